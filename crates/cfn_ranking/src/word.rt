//! The words for how a search for the cheapest assignments ended.

/// How a search for the cheapest assignments ended.
#[derive(Clone, Copy, Debug, PartialEq, Eq)]
pub enum ListWord {
    /// Every assignment that is not listed costs at least the threshold.
    Complete,
    /// The nodes that were allowed are spent.
    Budget,
    /// The time that was allowed is spent.
    Time,
    /// Memory was refused.
    Memory,
}
