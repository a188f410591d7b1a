//! What one thread has of the word of the incumbent.

/// The price of the best assignment that is kept, the least threshold that was seen, and the shares of the word that it has
/// (of 128 in all). No value of it is made.
pub struct Sight {
    pub best: u64,
    pub seen: u64,
    pub shares: u32,
}
