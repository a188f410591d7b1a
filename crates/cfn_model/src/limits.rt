//! The limits that a network and its texts keep.

/// The greatest number that a text may have, and the greatest cost: 2^63 - 1.
pub const GREATEST: u64 = 9_223_372_036_854_775_807;

/// The most variables of a network.
pub const MOST_VARIABLES: u32 = 1_048_576;

/// The most values of a variable.
pub const MOST_VALUES: u32 = 4_096;

/// The most functions of a network.
pub const MOST_FUNCTIONS: u32 = 1_048_576;

/// The most tuples of a function.
pub const MOST_TUPLES: u32 = 4_194_304;

/// The most cells that the tables of all functions of a network have together, and the most tuples that a file lists
/// for one function.
pub const MOST_CELLS: u32 = 67_108_864;
