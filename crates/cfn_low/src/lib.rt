//! The word of the incumbent: the least price that any worker has found, in one atomic word, with the best assignment
//! that each worker keeps beside it; and what a search hands out.
//!
//! - `low.rt`: the word, and what is done with it from any thread, without waiting;
//! - `holder.rt`: what a worker has of it, and a note of what was seen;
//! - `rule.rt`: the rule that each step on the word keeps;
//! - `outcome.rt`: what a search hands out, as types.
//!
//! There are six kinds of step: the word is made, a part of it is split off or joined in, it is read, lowered, and closed.
//!
//! What every search owes of its outcome is defined in specs/Outcome.antt: a good certificate with its tree's bound, rows of bounds
//! that held, how many nodes were made, and why the search stopped.
#![tactic(auto)]

mod holder;
mod low;
mod outcome;
mod rule;

pub use holder::{Holder, Note};
pub use low::{Low, Unnamed};
pub use outcome::{Outcome, Stop};
pub use rule::Incumbent;
