//! Reads a wcsp file (toulbar2 user manual, wcsp format) as a network.
//!
//! The words of the file are read from left to right, and the first that fails a check of its place
//! decides how the file is refused.
//!
//! - `read` answers the network, or a `ReadFault`: the file is refused, or memory is. `reading` goes over the file as a
//!   whole, `sizes` over the domain sizes, and `tables` over one cost function, with its `scope`. `sharing` finds its
//!   shared table, where it has one.
//! - `numerals` takes the next word and the next number, and `field` has what each number is checked for. `numeral`,
//!   `refused` and `Field` serve readers of other formats too.
#![tactic(auto)]

mod fault;
mod field;
mod numerals;
mod reading;
mod scope;
mod sharing;
mod sizes;
mod tables;

pub use fault::ReadFault;
pub use field::Field;
pub use numerals::{numeral, refused};
pub use reading::read;
