//! What an enforcing call works under.

/// The threshold that steps are allowed at, and how many steps a block may have.
#[derive(Clone, Copy)]
pub struct Limits {
    pub threshold: u64,
    pub steps: usize,
}

/// Why an enforcing call does not go on: the floor reached the threshold or a variable has no live value, or a step was due
/// and the block was as long as it may be.
#[derive(Clone, Copy)]
pub enum Halt {
    Dead,
    Spent,
}
