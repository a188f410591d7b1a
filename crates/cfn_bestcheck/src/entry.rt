//! A listed assignment.

/// Its cost and its values.
#[derive(Drop)]
pub(crate) struct Entry {
    pub(crate) cost: u64,
    pub(crate) values: Vec<u32>,
}
