//! The search for the K cheapest assignments, with a certificate of what every other one costs at least.
//!
//! - `search.rt`: `kbest`, the search from its beginning to its end;
//! - `steps.rt`: where the store stands next, and what an expansion makes of the list;
//! - `dive.rt`: to which leaf it goes back;
//! - `expanding.rt`: what becomes of one leaf: it is closed, split, or that of one assignment.
//!
//! Leaves are expanded one at a time, in dives. A dive begins at a leaf of least floor, the newest of those, and goes down to the
//! first child of each split at once. Behind another leaf it goes back to its newest second child, so often. The threshold is the
//! cost of the last assignment of a list that has K, and else the upper bound of the file: it only falls.
#![tactic(auto)]

mod dive;
mod expanding;
mod search;
mod steps;

pub use search::{Best, Limits, kbest};
