//! The separate checker of certificates.
//!
//! It stands on no solver's store, and adds up all shifts in tables of its own (`cfn_tables`). It copies no table.
//!
//! - `check` judges a certificate from the bytes of its text; `Check` is its answer. `certificate` goes over the text in
//!   the order of its lines: `reading` has those before the tree, `best` and `assignment` the best assignment, `nodes`
//!   those of the tree. `Walk` is the way down and up the tree, with an `Owed` for each split whose second side is
//!   still to come.
//! - `Ledger` is where one path of the tree stands. It judges a step and makes it, takes or refuses a decision, tells
//!   whether a leaf may be closed, and goes back to a mark. `asked` has which steps and decisions of a text are in range,
//!   `allowed` what each step asks; an `Entry` is one event of the path.
//! - `only` has whether the values of one assignment are all that a path leaves.
//! - `Walk`, `node` and `Assignment` are public for checkers of other texts that have trees.
//! - `probe` walks over the live tuples that a project asks about.
#![tactic(auto)]

mod allowed;
mod answer;
mod asked;
mod assignment;
mod best;
mod certificate;
mod entry;
mod ledger;
mod nodes;
mod only;
mod owed;
mod probe;
mod reading;
mod walk;

pub use answer::Check;
pub use asked::Judged;
pub use assignment::Assignment;
pub use certificate::check;
pub use ledger::{Ledger, Mark};
pub use nodes::node;
pub use walk::Walk;
