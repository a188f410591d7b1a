//! Whether a path is that of a node, by a walk up the tree that copies nothing.
//!
//! The events that are left always have to be the path of the node that the walk has come to: they end with its block, and
//! before that with its side of the parent's split.

ghost use Rattle.std.specs.Prelude.{◌≡◌, ◌↔◌, ◌<◌, length, IsTrue, MatchOption, Some};
ghost use Rattle.cfn_proof.specs.declared.tree.NodeId.{NodeId};
ghost use Rattle.cfn_proof.specs.Nodes.{node_at};
ghost use Rattle.cfn_leaves.specs.Ways.{IsPathOf};

use crate::way::side;
use cfn_proof::laws::law_same_before;
use cfn_proof::{Ascent, NodeId, Path, Tree};

/// Whether a path is that of a node. It takes no memory.
pub(crate) fn is_at(tree: &Tree, node: NodeId, path: &Path) -> bool
    requires { node.number < length tree.now }
    ensures { IsTrue result ↔ IsPathOf tree.now node.number path.now }
{
    tree.law_linked();
    law_same_before();
    let mut at = node;
    let mut left = path.way_up();
    while let Some(parent) = tree.node(at).parent {
        let Some(rest) = above(tree, at, left) else {
            return false;
        };
        left = rest;
        at = parent;
    }
    left.is_block(&tree.node(at).block)
}

/// The path of the parent, where a child's ends with its block and its side of the split.
fn above<'p>(tree: &Tree, child: NodeId, left: Ascent<'p>) -> Option<Ascent<'p>>
    requires { child.number < length tree.now }
    ensures { (up : NodeId) → (node_at tree.now child.number).parent ≡ Some up → MatchOption result
        (IsPathOf tree.now child.number left.entry → ⊥)
        (λ rest. IsPathOf tree.now child.number left.entry ↔ IsPathOf tree.now up.number rest) }
{
    tree.law_linked();
    law_same_before();
    let side = side(tree, child)?;
    left.above(side, &tree.node(child).block)
}
