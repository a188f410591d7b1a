//! The search of a network: hybrid best-first search (`cfn_search`) by depth-first dives (`cfn_dive`).
//!
//! `solve` searches on the caller's thread, `solve_together` by several workers, and `solve_from` goes on from an earlier search. They make the tables that the divers share, and
//! promise what every search does, as `cfn_low` defines it (specs/Outcome.antt).
#![tactic(auto)]

mod solving;

pub use cfn_explore::{Gate, Halt, Never, News, OpenGate, Point};
pub use cfn_search::{Begin, Teamwork, Threshold};
pub use solving::{solve, solve_from, solve_together};
