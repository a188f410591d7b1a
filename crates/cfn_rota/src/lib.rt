//! Lanes of tasks (work stealing, Blumofe and Leiserson 1999): each worker pushes tasks to a lane of its own and pops them
//! there, and the others steal from it.
//!
//! - `rule.rt`: the rule that each step on a lane keeps, and what a step tells;
//! - `lane.rt`: the end of a lane that its worker has;
//! - `thief.rt`: an end that steals;
//! - `ends.rt`: the ends that each of several workers has.
//!
//! The tasks come out in the order in which they were pushed. Each end knows what it pushed and what it took. Once all ends
//! of a lane are put together, what was pushed is what was taken and what is left, each task as often.
#![tactic(auto)]

mod ends;
mod lane;
mod rule;
mod thief;

pub use ends::{Ends, deal};
pub use lane::Lane;
pub use rule::{Kind, Tally};
pub use thief::Thief;
