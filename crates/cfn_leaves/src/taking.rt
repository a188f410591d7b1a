//! A leaf is handed out.

ghost use Rattle.std.specs.Prelude.{◌≡◌, ◌≤◌, ◌<◌, length, slice_set, vec_len, vec_capacity, Some, None};
ghost use Rattle.cfn_leaves.specs.Answers.{IsSoundPool, Takes, none_for};
ghost use Rattle.cfn_leaves.specs.Standing.{entry_at};

use crate::entry::{Entry, Mark};
use crate::handing::Lack;
use crate::leaves::Leaves;
use crate::way::path_to;
use cfn_explore::Task;
use cfn_net::Network;

/// The answer to a worker that asks for a leaf.
#[derive(Drop)]
pub enum Taken {
    /// The task of the leaf that is handed out.
    Given { task: Task },
    /// No leaf is open, but such as are set aside.
    Empty,
    /// The budget of nodes is spent.
    Spent,
    /// No leaf is free, or all that the budget has left is granted.
    Again,
    /// There is no memory for the leaf's path.
    Memory,
}

impl Leaves {
    /// Hands out a free leaf of least floor, the one of least number among those (Allouche et al. 2015), to a worker that
    /// wants to make at most `want` nodes below it, at least 1. The grant is that, or less where the budget has less left.
    /// Where it hands out nothing, nothing changes.
    pub fn take(&mut self, network: &Network, worker: u32, want: u64) -> Taken
        requires own { network.now ≡ self.old.network }
        requires sound { IsSoundPool self.old }
        requires wants { 1 ≤ want }
        ensures network { self.new.network ≡ self.old.network }
        ensures takes { Takes self.old worker want result self.new }
    {
        let due = match self.due() {
            Ok(due) => due,
            Err(lack) => return Taken::none(lack),
        };
        let Ok(path) = path_to(*self.table.allocator(), &self.tree, due.node) else {
            return Taken::Memory;
        };
        let grant = self.lend(due, u64::from(worker), want);
        let leaf = u64::from(due.leaf.leaf);
        let task = Task::of(network, leaf, worker, grant, due.leaf.floor, path);
        Taken::Given { task }
    }
}

impl Taken {
    /// No task, for a reason.
    fn none(lack: Lack) -> Taken
        ensures { result ≡ none_for lack }
    {
        match lack {
            Lack::Empty => Taken::Empty,
            Lack::Spent => Taken::Spent,
            Lack::Again => Taken::Again,
        }
    }
}

/// What the table has of a number.
pub(crate) fn held(table: &[Option<Entry>], number: usize) -> Option<Entry>
    ensures { result ≡ entry_at table.now number }
{
    match table.get(number) {
        Some(entry) => *entry,
        None => None,
    }
}

/// Gives an entry of the table another mark. It takes no memory.
pub(crate) fn mark(table: &mut Vec<Option<Entry>>, number: usize, entry: Entry, mark: Mark)
    requires { number < length table.old.items }
    ensures { table.new.items ≡ slice_set table.old.items number (Some (record entry { mark = mark })) }
{
    table[number] = Some(Entry { mark, ..entry });
}

/// Takes an entry out of the table. It takes no memory.
pub(crate) fn clear(table: &mut Vec<Option<Entry>>, number: usize)
    requires { number < length table.old.items }
    ensures table { table.new.items ≡ slice_set table.old.items number None }
    ensures len { vec_len table.new ≡ vec_len table.old }
    ensures capacity { vec_capacity table.new ≡ vec_capacity table.old }
{
    table[number] = None;
}
