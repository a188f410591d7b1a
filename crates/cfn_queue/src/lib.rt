//! Two queues: of numbers, first in first out, and of open leaves, by floor.
//!
//! - `Queue` has numbers below a size, each at most once: the variables that are to be revised (worklist of arc consistency,
//!   Mackworth 1977). A flag for each number says whether it waits, so putting it again costs one look and changes nothing. All room
//!   is taken at the start (`queue.rt`).
//! - `OpenList` is the open list of a best-first search: open leaves with their floors, of which the one of least floor is taken
//!   first. It is a binary heap (Williams 1964), in the order of floors and, among equal floors, of numbers. Only `reserve` takes
//!   memory, so that a search can make room before it begins a change and then make it whole (`list.rt`).
#![tactic(auto)]

mod list;
mod queue;

pub use list::{OpenLeaf, OpenList};
pub use queue::Queue;
