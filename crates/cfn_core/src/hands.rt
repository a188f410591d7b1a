//! The tasks in hand.

ghost use Rattle.std.specs.Prelude.{◌≡◌, reverse};
ghost use Rattle.cfn_core.specs.Actions.{without};

use cfn_explore::Task;
use std::marker::Model;
use std::snapshot::Snapshot;

/// A task in hand, kept by the number of its leaf. Contracts see the task.
#[derive(Drop)]
pub(crate) struct Hand {
    leaf: u64,
    task: Snapshot<Task>,
}

impl Model for Hand {
    ghost use Rattle.std.specs.Prelude.{◌≡◌};
    ghost use Rattle.cfn_machine.specs.Pool.{Task};

    ghost Value = { Task };

    ghost view = { λ h. h.task.value.task };

    ghost invariant = { λ h. h.leaf ≡ h.task.value.task.leaf };
}

impl Hand {
    /// A task in hand. It takes no memory.
    pub(crate) fn of(task: &Task) -> Hand
        ensures { result ≡ task.now.task }
    {
        Hand {
            leaf: task.leaf(),
            task: Snapshot::of(task),
        }
    }

    /// The number of the task's leaf.
    fn leaf(&self) -> u64
        ensures { result ≡ self.now.leaf }
    {
        self.leaf
    }
}

/// Takes the tasks of a leaf out of the hands, the newest of which is last. It takes no memory.
pub(crate) fn let_go(hands: &mut Vec<Hand>, leaf: u64)
    ensures { reverse hands.new.items ≡ without leaf (reverse hands.old.items) }
{
    hands.retain(|hand| hand.leaf() != leaf);
}
