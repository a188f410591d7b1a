//! What tests that cross the crates share, and no code of the solver.
//!
//! - `running` is a whole run over files in memory.
//! - `gates` are gates that hold a worker.
//! - `clocks` are clocks that stand still, or jump.
//! - `drawing` draws small networks with the least cost that their words say.
#![tactic(auto)]

pub mod clocks;
pub mod drawing;
pub mod gates;
pub mod running;
