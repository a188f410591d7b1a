//! Entries are done to the open leaves.

ghost use Rattle.std.specs.Prelude.{◌≡◌, ◌≤◌, ◌↔◌, IsTrue, MatchBool, OnOk};
ghost use Rattle.cfn_model.specs.Network.{Network as Net};
ghost use Rattle.cfn_model.specs.Tree.{count};
ghost use Rattle.cfn_machine.specs.Pool.{Pool};
ghost use Rattle.cfn_proof.specs.Nodes.{tree_of};
ghost use Rattle.cfn_record.specs.Entries.{CalledBack, Freed, Swept, Took};
ghost use Rattle.cfn_record.specs.Fault.{IsOutTo};
ghost use Rattle.cfn_replay.specs.Doing.{Does, DoesGive, IsHeld, Never, is_done};

use cfn_leaves::{Leaves, Placed};
use cfn_proof::Tree;
use std::alloc::AllocError;

/// Hands out the next leaf to a worker that wants so many nodes. The answer is whether it can, and whether that is this leaf
/// with this grant.
pub(crate) fn take(leaves: &mut Leaves, worker: u64, want: u64, leaf: u64, grant: u64) -> bool
    ensures { (P : Net) (pool : Pool) → IsHeld P pool leaves.old → MatchBool result
        (Does P pool (Took worker want leaf grant) leaves.new) (Never P pool (Took worker want leaf grant)) }
{
    if want == 0 {
        return false;
    }
    match leaves.hand_out(worker, want) {
        Ok(lent) => lent.leaf == leaf && lent.grant == grant,
        Err(_) => false,
    }
}

/// Whether a leaf is out to a worker with a grant.
pub(crate) fn is_out(leaves: &Leaves, worker: u64, leaf: u64, grant: u64) -> bool
    ensures { (P : Net) (pool : Pool) → IsHeld P pool leaves.now → IsTrue result ↔ IsOutTo pool worker leaf grant }
{
    leaves.is_out(leaf, worker, grant)
}

/// Puts a tree with at most so many splits and closed leaves in the place of a leaf that is out to a worker with such a
/// grant. An `Err` is want of memory, or that the leaf is not out so.
pub(crate) fn give(
    leaves: &mut Leaves,
    worker: u64,
    leaf: u64,
    grant: u64,
    tree: Tree,
) -> Result<(), AllocError>
    requires few { count (tree_of tree) ≤ grant }
    ensures { OnOk result (DoesGive leaves.old worker leaf grant tree leaves.new) }
{
    let placed = leaves.put(leaf, worker, grant, tree);
    if !is_done(&placed) {
        return Err(AllocError);
    }
    Ok(())
}

/// Whether a tree has taken its leaf's place.
fn is_done(placed: &Placed) -> bool
    ensures { result ≡ is_done placed.now }
{
    matches!(placed, Placed::Done)
}

/// Frees a leaf. The answer is whether it is out to that worker with that grant.
pub(crate) fn back(leaves: &mut Leaves, worker: u64, leaf: u64, grant: u64) -> bool
    ensures { (P : Net) (pool : Pool) → IsHeld P pool leaves.old → MatchBool result
        (Does P pool (Freed worker leaf grant) leaves.new) (IsOutTo pool worker leaf grant → ⊥) }
{
    leaves.put_back(leaf, worker, grant)
}

/// Calls all leaves back.
pub(crate) fn recall(leaves: &mut Leaves)
    ensures { (P : Net) (pool : Pool) → IsHeld P pool leaves.old → Does P pool CalledBack leaves.new }
{
    leaves.recall();
}

/// Closes the free leaves whose floor is at least what was seen.
pub(crate) fn sweep(leaves: &mut Leaves, seen: u64)
    ensures { (P : Net) (pool : Pool) → IsHeld P pool leaves.old → seen ≤ pool.view.seen → Does P pool (Swept seen) leaves.new }
{
    leaves.sweep(seen);
}
