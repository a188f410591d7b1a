//! Two trees in one.

ghost use Rattle.std.specs.Prelude.{◌≡◌, IfOk};
ghost use Rattle.cfn_proof.specs.Nodes.{tree_of};
ghost use Rattle.cfn_mending.specs.Joining.{join};
ghost use Rattle.cfn_merge.specs.Same.{same};

use crate::pair::Pair;
use crate::walk::Walk;
use cfn_proof::Tree;
use std::alloc::{AllocError, Global};

/// Both trees joined: where both have one split, each side is joined for itself, and else the higher one stands, or of two that
/// are as high the larger, or the first. An `Err` is want of memory, or of a node's number, or a height of 2^128 or more.
///
/// It takes time for the steps and nodes of both trees, and memory for the new one and for some 50 bytes a node of each. No step is
/// copied twice: the new tree's blocks stand in one buffer of its own.
pub fn join(alloc: Global, first: &Tree, second: &Tree) -> Result<Tree, AllocError>
    ensures { IfOk result (λ tree. tree_of tree ≡ join same (tree_of first.now) (tree_of second.now)) }
{
    let pair = Pair::of(alloc, first, second)?;
    let mut walk = Walk::make(alloc, &pair)?;
    let mut i: usize = 0;
    while i < walk.sources.len() {
        walk.step(alloc, &pair, i)?;
        i += 1;
    }
    walk.tree.law_linked();
    let Walk { mut tree, .. } = walk;
    tree.share(alloc)?;
    Ok(tree)
}
