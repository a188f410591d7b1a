//! What the workers do, and what they are answered.

use cfn_explore::{Piece, Task};
use cfn_net::Scored;

/// One atomic step of one worker. Workers have the numbers from 0 on; the main thread counts as one more, and has the
/// last number. Notes have numbers from 0 on, in the order in which they were made.
#[derive(Drop)]
pub enum Action {
    /// A worker reads the word.
    Look { worker: u32 },
    /// A worker has found an assignment, and lowers the word to its cost.
    Lower { worker: u32, found: Scored },
    /// A worker makes a note of what it has seen.
    Note { worker: u32 },
    /// A worker's view is joined into the pool's, and ends.
    Meet { worker: u32 },
    /// A worker asks for a leaf, to make at most `want` nodes below it.
    Take { worker: u32, want: u64 },
    /// A worker gives what it has made of a task.
    Give { piece: Piece, note: u64 },
    /// A worker gives a task back.
    Back { task: Task },
    /// Every leaf that is out is called back.
    Recall,
    /// The pool reads the word, and closes the free leaves whose floor reaches it.
    Sweep,
}

/// The answer to an action.
#[derive(Drop)]
pub enum Reply {
    /// The action may not be done, or names a worker that is not there: its own, or that of its task or piece. Nothing has
    /// changed.
    Idle,
    /// To a look or a lowering: the word.
    Seen { threshold: u64 },
    /// The number of the note that was made.
    Noted { note: u64 },
    /// The task that is handed out.
    Given { task: Task },
    /// No leaf is open.
    Empty,
    /// The budget of nodes is spent.
    Spent,
    /// No leaf is free, or all that the budget has left is granted.
    Again,
    /// The piece's leaf is not out to its worker with its grant, or has another path. Nothing has changed.
    Gone,
    /// The task's leaf is not out to its worker with its grant. Nothing has changed.
    NotOut,
    /// It is done.
    Done,
}
