//! Reads a wcnf file with a top, a weighted partial MaxSAT formula (MaxSAT Evaluations), as a network.
//!
//! The words of the file's lines that are no comments are read from left to right, and the first that fails a check of
//! its place decides how the file is refused.
//!
//! - `read` answers the network, or a `ReadFault`: the file is refused, or memory is. `reading` goes over the file as a
//!   whole, and `clause` gathers the literals of one clause and adds its function.
//! - `tokens` takes the next word and the next number.
#![tactic(auto)]

mod clause;
mod fault;
mod laws;
mod lines;
mod reading;
mod tokens;

pub use fault::{ReadFault, Unread};
pub use laws::law_falsified_weight;
pub use reading::read;
