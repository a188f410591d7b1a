//! Certificates that are read into trees.
//!
//! `read` reads the text of a certificate: its numbers, its best assignment, and its tree as far as its numbers are below
//! 2^32. `certificate` has what is read, and `reading` goes over the text: `head` reads the lines before the tree, and
//! `nodes` those of the tree, which a `Maker` makes with a stack of the trees that are due. `narrow` has which steps and
//! decisions fit. Nothing recurses. `Maker` and `node` are public for other texts that have trees.
#![tactic(auto)]

mod certificate;
mod head;
mod maker;
mod narrow;
mod nodes;
mod reading;
mod stop;

pub use certificate::{Best, ReadCertificate};
pub use cfn_certtext::TextFault;
pub use maker::Maker;
pub use nodes::node;
pub use reading::read;
