//! What is kept of an old tree.

ghost use Rattle.std.specs.Prelude.{◌≡◌, [], IfOk, OnOk};
ghost use Rattle.cfn_proof.specs.Nodes.{tree_of};
ghost use Rattle.cfn_mending.specs.Keeping.{Kept};
ghost use Rattle.cfn_rebase.specs.Walking.{IsAtNode};

use crate::walk::Walk;
use cfn_net::{Network, Tables};
use cfn_proof::Tree;
use std::alloc::{AllocError, Global};

/// What is kept of an old tree in a network, at a threshold, a cost: each block up to its first step that is not allowed, or
/// leaves a cost of 2^64 or more; behind a block that is kept whole a closed leaf that may be closed, and a split that is in range
/// and takes a live value away on both sides; else an open leaf. The old tree may be one of another network. An `Err` is want of
/// memory, or of a node's number: it leaves all as it was.
pub fn keep(
    alloc: Global,
    network: &Network,
    tables: &Tables,
    old: &Tree,
    threshold: u64,
) -> Result<Tree, AllocError>
    requires tables { tables.now ≡ network.now }
    ensures kept { IfOk result (λ new. Kept network.now [] threshold (tree_of old.now) (tree_of new)) }
{
    let mut walk = Walk::make(alloc, network, tables, old, threshold)?;
    let kept = keep_all(alloc, old, &mut walk);
    let tree = walk.into_tree();
    kept?;
    Ok(tree)
}

/// Keeps what is kept of an old tree, at whose root the walk stands. An `Err` is want of memory, after which the tree says nothing.
fn keep_all(alloc: Global, old: &Tree, walk: &mut Walk<'_>) -> Result<(), AllocError>
    requires { IsAtNode walk.old.ground.network walk.old.threshold old.now walk.old 0 0 }
    ensures { OnOk result (Kept walk.old.ground.network [] walk.old.threshold (tree_of old.now) (tree_of walk.new.tree)) }
{
    walk.keep_node(alloc, old, Tree::ROOT, Tree::ROOT)?;
    let mut more = true;
    while more {
        more = walk.next(alloc, old)?;
    }
    walk.tree.law_linked();
    Ok(())
}
