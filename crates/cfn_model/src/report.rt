//! What a report of `solve` says beside its certificate.

/// Bounds that held at one moment of a search.
#[derive(Clone, Copy, PartialEq, Eq)]
pub struct Row {
    /// At most the cost of every assignment.
    pub lower: u64,
    /// The cost of an assignment that was known, if one was.
    pub upper: Option<u64>,
}

/// How a search ended.
#[derive(Clone, Copy, PartialEq, Eq)]
pub enum ResultWord {
    /// The best assignment is of least cost.
    Optimum,
    /// No assignment costs less than the upper bound. It is printed as `none`.
    Nothing,
    /// The budget of nodes was spent.
    Budget,
    /// The limit of time is past.
    Time,
    /// All leaves of this run's part are done, and leaves of others are open.
    Part,
    /// Memory was refused.
    Memory,
}
