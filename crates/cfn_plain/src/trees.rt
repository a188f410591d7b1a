//! Whether a tree is valid or strict, and its bound, by recursion over its nodes.

ghost use Rattle.std.specs.Prelude.{◌≡◌, ◌↔◌, ◌<◌, [], ◌∷◌, length, IsTrue, IfOk};
ghost use Rattle.cfn_model.specs.declared.step.Event.TheVariants.{Took, Refused};
ghost use Rattle.cfn_model.specs.Tree.{Valid, Strict, bound};
ghost use Rattle.cfn_proof.specs.Nodes.{tree_at, tree_of};

use crate::closing::{can_close, is_strict_split};
use crate::steps::{after, block_runs, extended, is_decision};
use crate::sums::floor;
use cfn_model::{Decision, Event};
use cfn_net::Network;
use cfn_proof::{End, NodeId, Tree};
use std::alloc::{AllocError, Global};

/// Whether a tree is valid at the threshold `k`: every block runs, splits are in range, and closed leaves may be
/// closed (Allouche et al. 2015). An `Err` is want of memory.
pub fn valid(alloc: Global, network: &Network, tree: &Tree, k: u64) -> Result<bool, AllocError>
    ensures { IfOk result (λ answer. IsTrue answer ↔ Valid network.now [] (tree_of tree.now) k) }
{
    tree.law_linked();
    valid_from(alloc, network, &[], tree, Tree::ROOT, k)
}

/// Whether every split of a tree leaves a live value on either side. An `Err` is want of memory.
pub fn strict(alloc: Global, network: &Network, tree: &Tree) -> Result<bool, AllocError>
    ensures { IfOk result (λ answer. IsTrue answer ↔ Strict network.now [] (tree_of tree.now)) }
{
    tree.law_linked();
    strict_from(alloc, network, &[], tree, Tree::ROOT)
}

/// The least of the threshold `k` and the floors of a tree's open leaves. An `Err` is want of memory.
pub fn bound(alloc: Global, network: &Network, tree: &Tree, k: u64) -> Result<u64, AllocError>
    ensures { IfOk result (λ least. least ≡ bound network.now [] (tree_of tree.now) k) }
{
    tree.law_linked();
    bound_from(alloc, network, &[], tree, Tree::ROOT, k)
}

/// Whether the part of a tree that begins at a node is valid after a history, the newest event first.
fn valid_from(
    alloc: Global,
    network: &Network,
    history: &[Event],
    tree: &Tree,
    id: NodeId,
    k: u64,
) -> Result<bool, AllocError>
    requires { id.number < length tree.now }
    ensures { IfOk result (λ answer. IsTrue answer ↔ Valid network.now history.now (tree_at tree.now id.number) k) }
{
    tree.law_linked();
    let node = tree.node(id);
    if !block_runs(alloc, network, history, &node.block, k)? {
        return Ok(false);
    }
    let behind = after(alloc, &node.block, history)?;
    match node.end {
        End::Free => Ok(true),
        End::Shut => Ok(can_close(network, behind.as_slice(), k)),
        End::Split {
            decision,
            first,
            second,
        } => {
            if !is_decision(network, decision) {
                return Ok(false);
            }
            let (took, refused) = sides(alloc, decision, behind.as_slice())?;
            Ok(
                valid_from(alloc, network, took.as_slice(), tree, first, k)?
                    && valid_from(alloc, network, refused.as_slice(), tree, second, k)?,
            )
        }
    }
}

/// Whether every split is strict in the part of a tree that begins at a node, after a history, the newest event
/// first.
fn strict_from(
    alloc: Global,
    network: &Network,
    history: &[Event],
    tree: &Tree,
    id: NodeId,
) -> Result<bool, AllocError>
    requires { id.number < length tree.now }
    ensures { IfOk result (λ answer. IsTrue answer ↔ Strict network.now history.now (tree_at tree.now id.number)) }
{
    tree.law_linked();
    let node = tree.node(id);
    let End::Split {
        decision,
        first,
        second,
    } = node.end
    else {
        return Ok(true);
    };
    let behind = after(alloc, &node.block, history)?;
    if !is_strict_split(network, behind.as_slice(), decision) {
        return Ok(false);
    }
    let (took, refused) = sides(alloc, decision, behind.as_slice())?;
    Ok(
        strict_from(alloc, network, took.as_slice(), tree, first)?
            && strict_from(alloc, network, refused.as_slice(), tree, second)?,
    )
}

/// The least of the threshold and the floors of the open leaves in the part of a tree that begins at a node, after a
/// history, the newest event first.
fn bound_from(
    alloc: Global,
    network: &Network,
    history: &[Event],
    tree: &Tree,
    id: NodeId,
    k: u64,
) -> Result<u64, AllocError>
    requires { id.number < length tree.now }
    ensures { IfOk result (λ least. least ≡ bound network.now history.now (tree_at tree.now id.number) k) }
{
    tree.law_linked();
    let node = tree.node(id);
    let behind = after(alloc, &node.block, history)?;
    match node.end {
        End::Free => Ok(floor(network, behind.as_slice()).min(k as u128) as u64),
        End::Shut => Ok(k),
        End::Split {
            decision,
            first,
            second,
        } => {
            let (took, refused) = sides(alloc, decision, behind.as_slice())?;
            let least = bound_from(alloc, network, took.as_slice(), tree, first, k)?;
            Ok(least.min(bound_from(alloc, network, refused.as_slice(), tree, second, k)?))
        }
    }
}

/// The histories on the two sides of a split: in the first the decision was taken, in the second refused.
fn sides(
    alloc: Global,
    decision: Decision,
    history: &[Event],
) -> Result<(Vec<Event>, Vec<Event>), AllocError>
    ensures { IfOk result (λ sides. (sides.0.items ≡ Took decision ∷ history.now) × (sides.1.items ≡ Refused decision ∷ history.now)) }
{
    let took = extended(alloc, Event::Took(decision), history)?;
    let refused = extended(alloc, Event::Refused(decision), history)?;
    Ok((took, refused))
}
