//! Gains: what an enforcer of soft local consistencies does with a store, one value of one function at a time (Cooper et
//! al., Soft arc consistency revisited, 2010); and node consistency (Larrosa and Schiex, Solving weighted CSP by maintaining
//! arc consistency, 2004).
//!
//! - `limits.rt`: the threshold and the number of steps that a call works under, and how it halts;
//! - `moves.rt`: one step, where there is room for it;
//! - `levels.rt`: a variable's unary costs: what all live values have in common goes to the floor, and costly ones are cut;
//! - `supports.rt`: arc consistency of a value, and of a function;
//! - `nodes.rt`: node consistency by two passes over the variables, lifts and then cuts;
//! - `settling.rt`: what an enforcing call answers.
//!
//! Each call of the first four adds steps that run at the threshold and fall into groups, and says what holds where it added
//! none. Where it is spent a step is due: the store is not fully consistent.
#![tactic(auto)]

mod levels;
mod limits;
mod moves;
mod nodes;
mod settling;
mod supports;

pub use levels::{cut_costly, level};
pub use limits::{Halt, Limits};
pub use moves::{cut_tuple, cut_value, extend, lacking, lift, project};
pub use nodes::{NodeConsistency, is_wiped, least};
pub use settling::Settling;
pub use supports::{gain, support_all, support_at};
