//! The open leaves of a tree, in the order of its text, with their floors.
//!
//! A walk in that order (depth first, a split's first side before its second), with a stack of what is still ahead, so that
//! nothing recurs over the tree. Floors are summed on the way: each block is read once.

ghost use Rattle.std.specs.Prelude.{◌≡◌, ℕ, ◌+◌, ◌<◌, ◌^◌, List, [], ◌∷◌, length, reverse, IfOk, OnOk};
ghost use Rattle.cfn_model.specs.Tree.{count};
ghost use Rattle.cfn_proof.specs.Nodes.{tree_at, tree_of};
ghost use Rattle.cfn_model.specs.Sums.{lifted};
ghost use Rattle.cfn_model.specs.declared.step.Event.TheVariants.{Did};
ghost use Rattle.cfn_leaves.specs.declared.walk.Spot.{Spot};
ghost use Rattle.cfn_leaves.specs.Walked.{IsOnWay, lifts, spots_of};

use cfn_proof::{Block, End, NodeId, Step, Tree};
use std::alloc::{AllocError, Global};

/// A node, with the floor before its block or after it.
#[derive(Clone, Copy)]
pub(crate) struct Spot {
    pub(crate) node: NodeId,
    pub(crate) floor: u128,
}

/// A walk: the open leaves that it has come by, each with the floor at its end; the nodes that it has still to come to, the
/// next of them last, each with the floor before its block; and how many splits and closed leaves it has come by.
#[derive(Drop)]
pub(crate) struct Walk {
    pub(crate) spots: Vec<Spot>,
    pub(crate) ahead: Vec<Spot>,
    pub(crate) made: u64,
}

/// The open leaves of a tree behind a floor, and its splits and closed leaves. An `Err` is want of memory, or a floor of 2^128
/// or more.
pub(crate) fn open_spots(alloc: Global, tree: &Tree, floor: u128) -> Result<Walk, AllocError>
    requires { count (tree_of tree.now) < 2 ^ 64 }
    ensures spots { IfOk result (λ walk. walk.spots.items ≡ spots_of tree.now floor) }
    ensures made { IfOk result (λ walk. walk.made ≡ count (tree_of tree.now)) }
{
    tree.law_linked();
    let mut walk = begin(alloc, floor)?;
    while let Some(spot) = walk.ahead.pop() {
        visit(tree, spot, &mut walk)?;
    }
    Ok(walk)
}

/// A walk that begins at the root.
fn begin(alloc: Global, floor: u128) -> Result<Walk, AllocError>
    ensures spots { IfOk result (λ walk. walk.spots.items ≡ []) }
    ensures ahead { IfOk result (λ walk. walk.ahead.items ≡ record { node = record { number = 0 }; floor = floor } ∷ []) }
    ensures made { IfOk result (λ walk. walk.made ≡ 0) }
{
    let mut ahead = Vec::new(alloc);
    ahead.push(Spot {
        node: Tree::ROOT,
        floor,
    })?;
    Ok(Walk {
        spots: Vec::new(alloc),
        ahead,
        made: 0,
    })
}

/// Comes to a node. The sides of a split are ahead then.
fn visit(tree: &Tree, at: Spot, walk: &mut Walk) -> Result<(), AllocError>
    requires there { at.node.number < length tree.now }
    requires room { walk.old.made + count (tree_at tree.now at.node.number) < 2 ^ 64 }
    ensures on_way { OnOk result ((whole : List Spot) (last : ℕ) →
        IsOnWay tree.now whole last walk.old.spots.items walk.old.made (at ∷ reverse walk.old.ahead.items)
        → IsOnWay tree.now whole last walk.new.spots.items walk.new.made (reverse walk.new.ahead.items)) }
    ensures one { OnOk result (length walk.new.spots.items + walk.new.made ≡ length walk.old.spots.items + walk.old.made + 1) }
{
    tree.law_linked();
    let node = tree.node(at.node);
    let floor = floor_behind(at.floor, &node.block)?;
    match node.end {
        End::Free => {
            walk.spots.push(Spot {
                node: at.node,
                floor,
            })?;
        }
        End::Shut => walk.made += 1,
        End::Split { first, second, .. } => {
            walk.ahead.push(Spot {
                node: second,
                floor,
            })?;
            walk.ahead.push(Spot { node: first, floor })?;
            walk.made += 1;
        }
    }
    Ok(())
}

/// The floor behind a block. An `Err` is a floor of 2^128 or more.
fn floor_behind(floor: u128, block: &Block) -> Result<u128, AllocError>
    ensures { IfOk result (λ sum. sum ≡ floor + lifts block.now) }
{
    let mut sum = floor;
    for step in block.cursor() {
        sum = sum.checked_add(lift(step)).ok_or(AllocError)?;
    }
    Ok(sum)
}

/// What a step adds to the floor.
fn lift(step: Step) -> u128
    ensures { result ≡ lifted (Did step) }
{
    match step {
        Step::Lift { amount, .. } => u128::from(amount),
        _ => 0,
    }
}
