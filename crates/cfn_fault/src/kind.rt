//! The ways in which a line of a certificate may fail.

/// What is wrong with the first line of a certificate that fails.
#[derive(Clone, Copy, Debug, PartialEq, Eq)]
pub enum FaultKind {
    /// The line does not follow the grammar.
    Text,
    /// The numbers of variables and functions and the upper bound are not the network's.
    Network,
    /// The best assignment's cost is no cost below the upper bound, or its values are no assignment of that cost.
    Best,
    /// A number of a step or a split is out of range.
    Range,
    /// A project is not allowed.
    Project,
    /// An extend is not allowed.
    Extend,
    /// A lift is not allowed.
    Lift,
    /// A cut is not allowed.
    Cut,
    /// A closed leaf may not be closed.
    Close,
    /// The lower bound is above what the tree shows.
    Lower,
}
