//! What an enforcing call answers.

/// `Settled` where the store is consistent at the threshold, `Dead` where the floor reaches it or a variable has no live
/// value, `Spent` where a step was due and the block was as long as it may be.
#[derive(Clone, Copy, Debug, PartialEq, Eq)]
pub enum Settling {
    Settled,
    Dead,
    Spent,
}
