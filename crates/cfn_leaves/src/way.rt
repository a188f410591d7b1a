//! Ways between the root and a node, by the parents that nodes know.

ghost use Rattle.std.specs.Prelude.{◌≡◌, ◌<◌, [], length, reverse, IfOk, if◌then◌else◌};
ghost use Rattle.cfn_proof.specs.Nodes.{node_at, IsLinked};
ghost use Rattle.cfn_proof.specs.declared.path.Side.TheVariants.{Holds, Fails};
ghost use Rattle.cfn_leaves.specs.Ways.{EndsAbove, Goes, IsPathOf, IsSide};

use cfn_proof::{Decision, End, NodeId, Path, Side, Tree};
use std::alloc::{AllocError, Global};

/// The path of a node: the steps and decisions from the root to its end. An `Err` is want of memory.
pub fn path_to(alloc: Global, tree: &Tree, node: NodeId) -> Result<Path, AllocError>
    requires { node.number < length tree.now }
    ensures { IfOk result (IsPathOf tree.now node.number) }
{
    let mut way = way_to(alloc, tree, node)?;
    let mut path = Path::new(alloc);
    while let Some(id) = way.pop() {
        path = enter(alloc, tree, path, id)?;
    }
    Ok(path)
}

/// The nodes from a node up to the root. An `Err` is want of memory.
fn way_to(alloc: Global, tree: &Tree, node: NodeId) -> Result<Vec<NodeId>, AllocError>
    requires { node.number < length tree.now }
    ensures { IfOk result (λ way. Goes tree.now node.number [] (reverse way.items)) }
{
    tree.law_linked();
    let mut way = Vec::new(alloc);
    let mut at = node;
    way.push(at)?;
    while let Some(parent) = tree.node(at).parent {
        at = parent;
        way.push(at)?;
    }
    Ok(way)
}

/// The path of a node, from that of its parent. No step is copied where the node shares its block. An `Err` is want of memory.
fn enter(alloc: Global, tree: &Tree, path: Path, id: NodeId) -> Result<Path, AllocError>
    requires there { id.number < length tree.now }
    requires above { EndsAbove tree.now id.number path }
    ensures { IfOk result (IsPathOf tree.now id.number) }
{
    let block = &tree.node(id).block;
    match side(tree, id) {
        Some(side) => {
            let mut longer = path;
            longer.enter(side, block)?;
            Ok(longer)
        }
        None => Path::at_root(alloc, block),
    }
}

/// The side of its parent's split that a node is. There is none at the root alone. It takes no memory.
pub(crate) fn side(tree: &Tree, id: NodeId) -> Option<Side>
    requires { id.number < length tree.now }
    ensures { IsSide tree.now id.number result }
{
    tree.law_linked();
    let parent = tree.node(id).parent?;
    match tree.node(parent).end {
        End::Split {
            decision,
            first,
            ..
        } => Some(side_of(decision, first == id)),
        End::Free | End::Shut => None,
    }
}

/// A side of a split.
fn side_of(decision: Decision, is_first: bool) -> Side
    ensures { result ≡ (if is_first then Holds decision else Fails decision) }
{
    if is_first {
        Side::Holds(decision)
    } else {
        Side::Fails(decision)
    }
}
