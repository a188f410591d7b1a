//! The writer of networks: a network's canonical text in toulbar2's wcsp format.
//!
//! `write` says the text, through one buffer of 4,096 bytes, and takes no memory. What the text is, is defined in
//! specs/Canonical.antt: it lists in each function just the cells whose entry differs from the default, once each and in
//! increasing order. `reads_back` is the law that reading the text gives the same network, so what is said of a text
//! that `write` said is that text again.
//!
//! - `network` has the text as a whole, and `function` the lines of one function.
//! - `number` has the numbers of a line, each with the byte behind it.
#![tactic(auto)]

mod function;
mod network;
mod number;

pub use network::{law_reads_back, write};
