//! The definitions that the crates of the solver share, and the plain data that they speak of.
//!
//! What a contract says of networks, costs, steps, trees, certificates and texts is defined in this crate's
//! specs/, in the order that docs/DEFINITIONS.md gives. The code here is data alone.
#![tactic(auto)]

pub mod laws;
mod limits;
mod reading;
mod report;
mod step;
mod version;

pub use limits::{GREATEST, MOST_CELLS, MOST_FUNCTIONS, MOST_TUPLES, MOST_VALUES, MOST_VARIABLES};
pub use reading::{Kind, NumberFault, Refusal};
pub use report::{ResultWord, Row};
pub use step::{Decision, Event, Step};
pub use version::Version;
