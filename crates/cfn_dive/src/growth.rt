//! The tree that a dive makes.

ghost use Rattle.cfn_dive.specs.Diving.{GoesOn};

use cfn_explore::Halt;
use cfn_model::Event;
use cfn_proof::{NodeId, Path, Tree};
use std::snapshot::Snapshot;

/// The leaf at which the store stands.
#[derive(Clone, Copy)]
pub struct Leaf {
    pub id: NodeId,
    /// The floor there.
    pub floor: u128,
    /// The side of a split by which the store stands behind a place where it was fully consistent, if it was.
    pub since: Option<Event>,
    /// Whether it is the root of the whole tree: no event stands before it.
    pub is_root: bool,
}

/// A tree behind a path, in the making.
#[derive(Drop)]
pub struct Growth {
    /// The path before the tree.
    pub base: Snapshot<Path>,
    pub tree: Tree,
    /// The leaf that is expanded next. Where there is none, no leaf is open.
    pub current: Option<Leaf>,
    /// At which threshold the tree was made.
    pub threshold: u64,
    /// How many splits and closed leaves it has.
    pub nodes: u64,
    /// How many backtracks were granted, and how many of them are left.
    pub granted: u64,
    pub left: u64,
}

impl Growth {
    /// The leaf that is expanded next, where so many nodes may be made and `halt` is not past.
    pub fn next<H: Halt>(&self, grant: u64, halt: &H) -> Option<Leaf>
        ensures { GoesOn self.now grant (H.limited halt.now) result }
    {
        if self.nodes >= grant || self.left == 0 {
            return None;
        }
        match halt.past() {
            Some(_) => None,
            None => self.current,
        }
    }
}
