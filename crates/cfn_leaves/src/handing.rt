//! The next leaf is handed out, whatever is known of the pool.

ghost use Rattle.std.specs.Prelude.{◌≡◌, ◌↔◌, ◌≤◌, min, IsTrue};
ghost use Rattle.cfn_machine.specs.Pool.{active_leaves};
ghost use Rattle.cfn_leaves.specs.Handing.{HandsOut, IsDue, IsNext, Lends};
ghost use Rattle.cfn_leaves.specs.Value.{pool_tree};

use crate::entry::Mark;
use crate::leaves::Leaves;
use crate::taking::{held, mark};
use cfn_proof::NodeId;
use cfn_proof::laws::law_same_before;
use cfn_queue::OpenLeaf;

/// A leaf that was handed out: its number, and how many nodes may be made below it, at least 1.
#[derive(Clone, Copy)]
pub struct Lent {
    pub leaf: u64,
    pub grant: u64,
}

/// Why no leaf is handed out.
#[derive(Clone, Copy)]
pub enum Lack {
    /// No leaf is open, but such as are set aside.
    Empty,
    /// The budget of nodes is spent.
    Spent,
    /// No leaf is free, or all that the budget has left is granted.
    Again,
}

/// The leaf that is handed out next: its number and floor, its node, and how many nodes the budget has left.
#[derive(Clone, Copy)]
pub(crate) struct Due {
    pub(crate) leaf: OpenLeaf,
    pub(crate) node: NodeId,
    pub(crate) left: u64,
}

impl Leaves {
    /// Hands out a free leaf of least floor, the one of least number among those, to a worker that wants to make at most
    /// `want` nodes below it, at least 1. The grant is that, or less where the budget has less left. Where it hands out
    /// nothing, nothing changes. It takes no memory.
    pub fn hand_out(&mut self, worker: u64, want: u64) -> Result<Lent, Lack>
        requires wants { 1 ≤ want }
        ensures network { self.new.network ≡ self.old.network }
        ensures hands { HandsOut self.old worker want result self.new }
    {
        let due = self.due()?;
        let grant = self.lend(due, worker, want);
        Ok(Lent {
            leaf: u64::from(due.leaf.leaf),
            grant,
        })
    }

    /// The leaf that is handed out next, or why there is none. It takes no memory.
    pub(crate) fn due(&self) -> Result<Due, Lack>
        ensures { IsDue self.now result }
    {
        law_same_before();
        if self.has_none_active() {
            return Err(Lack::Empty);
        }
        if self.nodes == self.budget {
            return Err(Lack::Spent);
        }
        let left = self.budget - (self.nodes + self.granted);
        if left == 0 {
            return Err(Lack::Again);
        }
        let Some(first) = self.list.least() else {
            return Err(Lack::Again);
        };
        let Some(entry) = held(&self.table, first.leaf as usize) else {
            return Err(Lack::Again);
        };
        Ok(Due {
            leaf: first,
            node: entry.node,
            left,
        })
    }

    /// Hands out the next leaf, and answers its grant. It takes no memory.
    pub(crate) fn lend(&mut self, due: Due, worker: u64, want: u64) -> u64
        requires next { IsNext self.old due }
        requires wants { 1 ≤ want }
        ensures network { self.new.network ≡ self.old.network }
        ensures grant { result ≡ min want due.left }
        ensures lends { Lends self.old due worker want self.new }
    {
        law_same_before();
        let grant = want.min(due.left);
        let Some(first) = self.list.take_least() else {
            return grant;
        };
        let Some(entry) = held(&self.table, first.leaf as usize) else {
            return grant;
        };
        mark(
            &mut self.table,
            first.leaf as usize,
            entry,
            Mark::Out { worker, grant },
        );
        self.granted += grant;
        grant
    }

    /// Whether no leaf is active: none is free, and below none that is out may a node be made.
    fn has_none_active(&self) -> bool
        ensures { IsTrue result ↔ (active_leaves (pool_tree self.now) ≡ 0) }
    {
        law_same_before();
        self.list.len() == 0 && self.granted == 0
    }
}
