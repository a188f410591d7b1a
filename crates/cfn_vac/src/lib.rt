//! Virtual arc consistency at the root, with whole amounts (Cooper et al., Soft arc consistency revisited, 2010).
//!
//! - `vac.rt`: what a caller has: one attempt to lift at an amount, and the driver over amounts;
//! - `amounts.rt`: the amount at which the driver begins;
//! - `ready.rt`: what a caller sees to before;
//! - `lifter.rt`: lifts by the plan of a derivation;
//! - `numbering.rt`: where each value stands among the deletions;
//! - `walk.rt`: the plan, from the last deletion to the first;
//! - `sources.rt`: from which values a function gathers an amount;
//! - `plan.rt`: a plan while it is built, and what it asks of each value;
//! - `run.rt`: makes the steps of a plan, or none of them;
//! - `tables.rt` and `power.rt`: numbers for values, and powers of two.
#![tactic(auto)]

mod amounts;
mod lifter;
mod numbering;
mod plan;
mod power;
mod ready;
mod run;
mod sources;
mod tables;
mod vac;
mod walk;

pub use lifter::Lifting;
pub use ready::{all_alive, count_values};
pub use vac::RootVac;
