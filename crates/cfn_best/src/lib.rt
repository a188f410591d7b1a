//! Certificates of the cheapest assignments of a network: definitions, texts, and laws.
//!
//! What makes one good and which line of its text fails first is defined in specs/, and `laws` says what follows.
//! `ListFault` says how a line fails. Nothing here computes.
#![tactic(auto)]

mod kind;
pub mod laws;

pub use kind::ListFault;
