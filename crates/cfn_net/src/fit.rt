//! Whether an assignment fits a network's domains.

/// What is wrong with an assignment, if anything is.
#[derive(Clone, Copy, Debug, PartialEq, Eq)]
pub enum Fit {
    /// There is a value for each variable, and each is in its variable's domain.
    Fits,
    /// The number of values is not the number of variables.
    Length,
    /// The least variable whose value is out of range.
    Value(u32),
}
