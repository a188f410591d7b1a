//! A dive: from a leaf of least floor down to the first children of splits, and behind each leaf that is not split back to the
//! newest second child of the dive, so often; then the next dive begins. So the list is full early, and its threshold falls
//! (limited backtracks as in Allouche et al. 2015).

ghost use Rattle.std.specs.Prelude.{◌≡◌, length, IfSome};
ghost use Rattle.cfn_ranking.specs.Ranked.{Waits};

use cfn_proof::NodeId;
use cfn_ranking::Ranking;
use std::alloc::Global;

/// How often a dive goes back to a second child.
const MOST_BACKTRACKS: u64 = 64;

/// The second child of a split, and the floor at the split.
#[derive(Clone, Copy)]
struct Second {
    leaf: NodeId,
    floor: u128,
}

/// The second children of a dive's splits, the newest last, and how often it may still go back to one.
#[derive(Drop)]
pub(crate) struct Dive {
    seconds: Vec<Second>,
    left: u64,
}

impl Dive {
    /// A dive that is over.
    pub(crate) fn new(alloc: Global) -> Dive {
        Dive {
            seconds: Vec::new(alloc),
            left: 0,
        }
    }

    /// A dive begins.
    pub(crate) fn begin(&mut self) {
        self.seconds.clear();
        self.left = MOST_BACKTRACKS;
    }

    /// The dive has split a leaf: its second child stands behind the first in the tree. Where there is no memory for it the dive does
    /// not go back any more.
    pub(crate) fn split(&mut self, first: NodeId, floor: u128) {
        let Some(number) = first.number.checked_add(1) else {
            return;
        };
        let second = Second {
            leaf: NodeId { number },
            floor,
        };
        if self.seconds.push(second).is_err() {
            self.left = 0;
        }
    }

    /// The newest second child that waits and has a floor below the threshold, where the dive may go back.
    pub(crate) fn back(&mut self, ranking: &Ranking) -> Option<NodeId>
        requires { length ranking.now.numbers ≡ length ranking.now.nodes }
        ensures { IfSome result (λ leaf. Waits ranking.now leaf.number) }
    {
        self.left = self.left.checked_sub(1)?;
        for _ in 0..self.seconds.len() {
            let newest = self.seconds.pop()?;
            if newest.floor < u128::from(ranking.threshold()) && ranking.waits(newest.leaf) {
                return Some(newest.leaf);
            }
        }
        None
    }
}
