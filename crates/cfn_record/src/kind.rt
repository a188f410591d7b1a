//! The ways in which a line of a record may fail.

/// What is wrong with the first line of a record that fails.
#[derive(Clone, Copy, Debug, PartialEq, Eq)]
pub enum RecordFault {
    /// The line does not follow the grammar.
    Text,
    /// The numbers of variables and functions and the upper bound are not the network's.
    Network,
    /// The pool hands out no leaf then, or another leaf, or with another grant.
    Take,
    /// The leaf is not out to that worker with that grant, or the piece has not 1 to grant split and closed nodes.
    Give,
    /// The leaf is not out to that worker with that grant.
    Back,
    /// The threshold seen is above the one before or above a piece's threshold, or the best assignment's cost is not the last one seen.
    Seen,
    /// The certificate that the record comes to is not good.
    Certificate,
}
