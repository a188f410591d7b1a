//! What a search gives and is given: tasks and pieces, explorers, a limit of time, and a gate.
//!
//! - `Task` is a leaf of the pool's tree that was handed out to a worker, with what stands before it and how many nodes the worker
//!   may make below (`task.rt`). `Piece` is what a worker made of it: the tree below the leaf, and the threshold that it was made at
//!   (`piece.rt`). Each is of a network, and keeps what cfn_machine's tasks and pieces have to keep.
//! - `Explore` makes a piece of a task, and `Explored` is what it answers (`explore.rt`). `Explorers` makes such explorers for one
//!   network, as many as there are workers (`explorers.rt`), and `Problem` is a network with them (`problem.rt`). Nothing here says
//!   how a piece is made.
//! - `Deadline` is when something has to end, by a clock that is given as a value, and `Halt` what asks whether that is past: nothing
//!   but a reading of the clock makes a `Past`. `Never` has no limit (`deadline.rt`).
//! - `Gate` is what workers pass, and what is told how far the search is (`gate.rt`, `news.rt`). It can be told nothing but bounds that
//!   hold: `tell` has a condition, which whoever calls it has to prove.
#![tactic(auto)]

mod deadline;
mod explore;
mod explorers;
mod gate;
mod news;
mod piece;
mod problem;
mod task;

pub use deadline::{Deadline, Halt, Never, Past};
pub use explore::{Explore, Explored};
pub use explorers::Explorers;
pub use gate::{Gate, OpenGate, Point};
pub use news::News;
pub use piece::Piece;
pub use problem::Problem;
pub use task::Task;
