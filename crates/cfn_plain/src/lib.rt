//! A plain program for the definitions of `cfn_model`: each function computes one of them, in the order in which it
//! is written down, and its contract is that definition.
//!
//! It is short and slow: no table is kept, and every sum is added up anew from the whole history. It shows on real
//! inputs what the definitions mean, and faster bodies can be compared with it. A history is a slice of events with
//! the newest first, as in the definitions.
//!
//! - `costs`: the total and the cost of an assignment, and the least cost.
//! - `sums`: the floor, unary costs and residual costs after a history.
//! - `decisions`: which values are on the first side of a split.
//! - `live`: which values and tuples are live.
//! - `steps`: which steps are allowed, and whether a list of steps runs; `tuples` has what a step asks of every tuple.
//! - `trees`: whether a tree is valid or strict, and its bound; `closing` has when a leaf may be closed.
//! - `certificates`: whether a certificate is good.
//! - `openness`: which variables are open, and which functions take part in making a network consistent; `supports`:
//!   which values have supports, by a search through all tuples; `groups`: whether the steps of an enforcing call fall into
//!   groups.
//! - `functions`: what a network says of a function that may not be there.
#![tactic(auto)]

mod certificates;
mod closing;
mod costs;
mod decisions;
mod functions;
mod groups;
mod live;
mod openness;
mod steps;
mod sums;
mod supports;
mod trees;
mod tuples;

pub use certificates::good;
pub use closing::can_close;
pub use costs::{cost, least, total};
pub use decisions::keeps;
pub use groups::{are_groups, are_open_groups};
pub use live::{is_live, is_live_tuple};
pub use openness::{has_open_pair, is_open, live_count, open_count, takes_part};
pub use steps::{allowed, runs};
pub use sums::{floor, residual, unary};
pub use supports::{Ask, Sought, has_full_support, has_support, has_tuple};
pub use trees::{bound, strict, valid};
