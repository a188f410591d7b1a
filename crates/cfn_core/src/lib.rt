//! The pool machine: a search tree whose open leaves are handed out to workers, and the word, the least price that any
//! of them has found, which each reads and lowers at its own time.
//!
//! The machine is defined in specs/ as a relation over lists of actions, each one atomic step of one worker.
//! - `World` runs it: `start` is the opening, `step` does one action, and `run` a list of them. `Action` and `Reply` are
//!   what workers do and are answered, `Task` a leaf that is handed out, `Piece` what is made of one.
//! - `laws` says what holds after every list of actions, so whatever the order in which the workers act.
//!
//! The pool's tree with its open leaves is cfn_leaves' `Leaves`, the code that the pool under the lock runs too (cfn_pool).
//! `word` has the actions on the word, `leaves` and `giving` those on the tree, each a call on the leaves; `copying` copies
//! the piece that is given. `seat` is what a worker has seen and keeps, and `hands` has the tasks in hand.
#![tactic(auto)]

mod action;
mod copying;
mod giving;
mod hands;
pub mod laws;
mod leaves;
mod seat;
mod word;
mod world;

pub use action::{Action, Reply};
pub use cfn_explore::{Piece, Task};
pub use world::World;
