//! Derivations of virtual arc consistency (Cooper et al., Soft arc consistency revisited, 2010): propagation in the network
//! that forbids each value and each tuple whose cost is at least an amount. It runs in a store itself: a deletion cuts the value there, so that
//! least costs, counts and what takes part are those of what is left; the caller goes back afterwards.
//!
//! - `deriver.rt`: what a caller has, and what it need not look at;
//! - `bans.rt`: what may not be a reason;
//! - `own.rt` and `looks.rt`: what one variable and one function delete;
//! - `costs.rt`: whether all live tuples with a value cost as much as an amount;
//! - `notes.rt` and `listed.rt`: what steps touch;
//! - `work.rt`: the deletions, and the variables that lost values since their functions were looked at.
#![tactic(auto)]

mod bans;
mod costs;
mod deriver;
mod listed;
mod looks;
mod notes;
mod own;
mod work;

pub use bans::Bans;
pub use deriver::{Derived, Deriver};
