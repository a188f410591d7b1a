//! The pool of open leaves that several workers share (branch and bound as in Allouche et al. 2015), with its part of the
//! word of the incumbent.
//!
//! A `Pool` is a search tree whose open leaves are free, or out to workers (cfn_leaves), and what it has of the word
//! (cfn_low). Each call is one step of the pool as cfn_machine defines them: contracts see the pool of those definitions.
//! A pool is sound always: it keeps what every list of steps keeps.
//!
//! - `pool.rt`: the pool, and how it begins and ends;
//! - `steps.rt`: leaves are handed out, and pieces come back;
//! - `recording.rt`: what is recorded of them;
//! - `reading.rt`: what is read of it;
//! - `telling.rt`: what is told of it while a search runs.
#![tactic(auto)]

mod pool;
mod reading;
mod recording;
mod steps;
mod telling;

pub use cfn_leaves::Taken;
pub use pool::{Finished, Pool};
pub use steps::Handed;
