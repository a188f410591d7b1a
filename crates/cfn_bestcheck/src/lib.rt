//! The checker of lists of the cheapest assignments.
//!
//! - `check_best` judges a list from the bytes of its text; `BestCheck` is its answer. `opening` has the lines before the
//!   list, `listing` the listed assignments, `tree` the lines of the tree.
//! - `Lines` takes one line after another from a text; `said` is what a line says, and `kinds` which of the lines that
//!   may come it is.
//!
//! It stands on `cfn_check` for all that it has with certificates: the way down and up a tree, and the cost of an
//! assignment.
#![tactic(auto)]

mod answer;
mod entry;
mod judging;
mod kinds;
mod lines;
mod listing;
mod opening;
mod said;
mod tree;

pub use answer::BestCheck;
pub use judging::check_best;
