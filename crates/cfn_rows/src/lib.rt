//! Rows of different lengths in one vector (a jagged array), and the live values of variables in such rows.
//!
//! - `Rows` has the items of all rows one behind another, with the start of each row and the end of the last one. A row is two loads
//!   and a slice, and a million rows cost no header and no allocation each (`rows.rt`).
//! - `LiveSets` has the live values of each variable of a network, as sparse sets with undo (Briggs and Torczon, An efficient
//!   representation for sparse sets, 1993; as in Le Clément de Saint-Marcq et al., Sparse-sets for domain implementation, 2013). It
//!   stands for a list of events, the newest first (`live.rt`, and `past.rt`, which contracts read). `order.rt` has one variable's
//!   values in an order, and the place of each, on plain slices; `undo.rt` takes an event back.
#![tactic(auto)]

mod live;
mod order;
mod past;
mod rows;
mod undo;

pub use live::LiveSets;
pub use rows::Rows;
