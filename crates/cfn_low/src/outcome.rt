//! What a search hands out.

use cfn_model::Row;
use cfn_proof::Certificate;

/// Why a search stopped.
#[derive(Clone, Copy, PartialEq, Eq)]
pub enum Stop {
    /// No leaf is open.
    Done,
    /// A leaf is open that was not left to others, and as many nodes were expanded as the budget allows.
    Budget,
    /// A leaf is open that was not left to others, fewer nodes were expanded than the budget allows, and the limit of time is past.
    Time,
    /// A leaf is open, and all that are open were left to others.
    Part,
    /// A leaf is open that was not left to others, and fewer nodes were expanded than the budget allows: memory was refused.
    Memory,
}

/// The certificate, the rows of bounds from the opening on, the number of leaves that were expanded into a split or
/// closed, and why the search stopped.
#[derive(Drop)]
pub struct Outcome {
    pub certificate: Certificate,
    pub rows: Vec<Row>,
    pub nodes: u64,
    pub stop: Stop,
}
