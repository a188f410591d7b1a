//! What a search goes on with from the text of an earlier certificate, of an interrupted run or of a network that was edited since.
//!
//! - `resume` reads the text; what is kept of its tree and of its best assignment is a search's beginning (`resuming.rt`, `best.rt`).
//! - `keep` makes the tree that is kept (`keeping.rt`), by a walk over the old one (`walk.rt`).
//! - `Ground` is where the walk stands: the store, with the events that lead there (`ground.rt`). It makes the front of a block
//!   that is kept (`front.rt`), and tells how the block's node ends then (`ending.rt`).
//! - `testing.rt` tells whether a step may be made, by the store's rooms and by balances; `ranges.rt`, whether numbers are in
//!   range. A `Balance` is a cost as two sums, of what was added and of what was taken away (`balance.rt`).
#![tactic(auto)]

mod balance;
mod best;
mod ending;
mod front;
mod ground;
mod keeping;
mod ranges;
mod resuming;
mod testing;
mod walk;

pub use keeping::keep;
pub use resuming::{Resumed, resume};
