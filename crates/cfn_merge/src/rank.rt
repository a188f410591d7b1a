//! How high a tree is, and how large: by this of two trees one gives way to the other.

ghost use Rattle.std.specs.Prelude.{◌≡◌, ◌+◌, ◌<◌, ◌≤◌, ℕ, length, not, nat_lt, ◌&&◌, ◌||◌, IfOk};
ghost use Rattle.cfn_model.specs.Tree as trees;
ghost use Rattle.cfn_model.specs.Sums.{lifted};
ghost use Rattle.cfn_model.specs.declared.step.Event.TheVariants.{Did};
ghost use Rattle.cfn_proof.specs.Nodes.{with_children};
ghost use Rattle.cfn_mending.specs.Joining.{gives_way, is_below, lesser, lifts, raised};
ghost use Rattle.cfn_merge.specs.Ranking.{AreBelow, AreRanked, AreRanks, IsRank};

use cfn_model::Step;
use cfn_proof::{Block, End, Node, NodeId, Tree};
use std::alloc::{AllocError, Global};

/// What is lifted from a tree's root to that of its open leaves that lifts least, `None` where no leaf is open; and how many splits
/// and closed leaves the tree has.
#[derive(Clone, Copy)]
pub(crate) struct Rank {
    pub(crate) height: Option<u128>,
    pub(crate) count: u64,
}

impl Rank {
    /// That of a closed leaf, but that it counts nothing.
    const NONE: Rank = Rank {
        height: None,
        count: 0,
    };

    /// Whether a tree of this rank gives way to one of another: that is higher, or as high and larger.
    pub(crate) fn gives_way(self, other: Rank) -> bool
        ensures { (x y : trees.Tree) → IsRank self x → IsRank other y → result ≡ gives_way x y }
    {
        is_below(self.height, other.height)
            || (!is_below(other.height, self.height) && self.count < other.count)
    }
}

/// Whether a height is below another.
fn is_below(height: Option<u128>, other: Option<u128>) -> bool
    ensures { result ≡ is_below height other }
{
    match (height, other) {
        (None, _) => false,
        (Some(_), None) => true,
        (Some(low), Some(high)) => low < high,
    }
}

/// The lesser of two heights.
fn lesser(height: Option<u128>, other: Option<u128>) -> Option<u128>
    ensures { result ≡ lesser height other }
{
    match (height, other) {
        (None, _) => other,
        (Some(_), None) => height,
        (Some(first), Some(second)) => Some(first.min(second)),
    }
}

/// A height behind what is lifted before it. An `Err` is a height of 2^128 or more.
fn raised(more: u128, height: Option<u128>) -> Result<Option<u128>, AllocError>
    ensures { IfOk result (λ sum. sum ≡ raised more height) }
{
    match height {
        None => Ok(None),
        Some(height) => Ok(Some(more.checked_add(height).ok_or(AllocError)?)),
    }
}

/// What a block lifts. An `Err` is a sum of 2^128 or more.
fn lifts(block: &Block) -> Result<u128, AllocError>
    ensures { IfOk result (λ sum. sum ≡ lifts block.now) }
{
    let mut sum: u128 = 0;
    for step in block.cursor() {
        sum = sum.checked_add(lift(step)).ok_or(AllocError)?;
    }
    Ok(sum)
}

/// What a step lifts.
fn lift(step: Step) -> u128
    ensures { result ≡ lifted (Did step) }
{
    match step {
        Step::Lift { amount, .. } => u128::from(amount),
        _ => 0,
    }
}

/// The rank of each node's tree. An `Err` is want of memory, or a height of 2^128 or more.
pub(crate) fn ranks(alloc: Global, tree: &Tree) -> Result<Vec<Rank>, AllocError>
    ensures { IfOk result (λ ranks. AreRanks tree.now ranks.items) }
{
    tree.law_linked();
    let mut ranks = vec![in alloc; Rank::NONE; tree.len()]?;
    for i in (0..tree.len()).rev() {
        let node = tree.node(NodeId { number: i as u32 });
        ranks[i] = node_rank(node, &ranks)?;
    }
    Ok(ranks)
}

/// The rank of a node's tree, by those of its children. An `Err` is a number that is too great.
fn node_rank(node: &Node, ranks: &[Rank]) -> Result<Rank, AllocError>
    requires { AreBelow (length ranks.now) node.now.end }
    ensures { IfOk result (λ rank. (child : ℕ → trees.Tree) → AreRanked ranks.now node.now.end child
        → IsRank rank (with_children node.now.block node.now.end child)) }
{
    match node.end {
        End::Free => Ok(Rank {
            height: Some(lifts(&node.block)?),
            count: 0,
        }),
        End::Shut => Ok(Rank {
            height: None,
            count: 1,
        }),
        End::Split { first, second, .. } => {
            let one = ranks[first.number as usize];
            let two = ranks[second.number as usize];
            let below = one.count.checked_add(two.count).ok_or(AllocError)?;
            Ok(Rank {
                height: raised(lifts(&node.block)?, lesser(one.height, two.height))?,
                count: below.checked_add(1).ok_or(AllocError)?,
            })
        }
    }
}
