//! How far a search is.

use cfn_model::Row;

/// How far a search is at one moment.
#[derive(Clone, Copy, PartialEq, Eq)]
pub struct News {
    /// Bounds on the least cost: at most the cost of every assignment, and the cost of an assignment that is known, if one is.
    pub bounds: Row,
    /// How many nodes were made: splits and closed leaves.
    pub nodes: u64,
    /// How many leaves are open.
    pub leaves: u64,
}
