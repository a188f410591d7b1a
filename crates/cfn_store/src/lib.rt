//! The store: what a path of the search tree makes of a network, as differences beside the network's own tables.
//!
//! - `Store` stands for a list of events along a path. Each call that makes a step, or goes to a side of a split, appends
//!   its event; `mark` and `undo` go back, and `replay` goes to another path by way of what the two have in common. It
//!   tells the floor, unary costs, live values, extreme residual costs and the greatest amounts that steps take.
//! - `Mark` is a place on the path; a `Doubt` is a value of which it isn't known that it costs nothing.
//!
//! The tables of functions of which the network keeps only what differs from a default are written out in `Tables`, a
//! store's own or shared with other stores (`shelf.rt`).
//!
//! Inside, `State` keeps the events and undoes each as it was made: `Sums` has the costs (`sums.rt`), `Cuts` which
//! tuples are cut, and `cfn_rows` which values are live; `peaks.rt` has the greatest unary costs. `cfn_scan` goes over the
//! tuples of a function with what these have; `amounts.rt` has the greatest amounts, and `block.rt` packs the newest steps.
#![tactic(auto)]

mod amounts;
mod block;
mod cuts;
mod mark;
mod peaks;
mod shelf;
mod state;
mod store;
mod sums;
mod supports;

pub use mark::Mark;
pub use store::Store;
pub use supports::Doubt;
