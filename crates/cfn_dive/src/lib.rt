//! The dive of hybrid best-first search: the tree below one leaf, made depth first (Allouche et al. 2015).
//!
//! - `diver.rt`: `Diver`, what a worker has for its dives, and what it makes of a task, a piece;
//! - `divers.rt`: `Divers`, what makes the divers of a search;
//! - `growing.rt`: a dive from its beginning to its end;
//! - `expanding.rt`: one leaf is expanded: closed or split;
//! - `deciding.rt`: by which decision, as the diver's rule names it;
//! - `parts.rt`: what a diver is made of, and the leaves that wait;
//! - `growth.rt`: the tree that a dive makes.
//!
//! What a search does at one node, with the store at the leaf that it expands:
//!
//! - `propagation.rt`: what is enforced at a node, `root.rt`: what besides at the root, and `limit.rt`: by how many steps;
//! - `values.rt`: the value that a split tries first, and assignments.
//!
//! A search knows divers by `cfn_explore`'s traits alone. `Parts` are there for other searches too, which expand one leaf after
//! another.
//!
//! A dive begins at the leaf of its task and expands the first child of a split next. The second child waits with a mark of
//! where the store stood. Behind a closed leaf the store goes back to the newest mark, and refuses the decision there: that is
//! a backtrack, of which a dive makes only so many. A leaf whose floor reaches the threshold is closed at once.
//!
//! The threshold is what the worker has seen of the incumbent's price. It is read again at each leaf, and a cheaper assignment
//! lowers it for all workers.
#![tactic(auto)]

mod deciding;
mod diver;
mod divers;
mod expanding;
mod growing;
mod growth;
mod limit;
mod parts;
mod propagation;
mod root;
mod values;

pub use diver::Diver;
pub use divers::Divers;
pub use limit::{MOST_STEPS, step_limit};
pub use parts::Parts;
pub use propagation::{Asked, is_dead, propagate, settle, since};
pub use root::{Around, enforce};
pub use values::{first_value, held, offer, take_values};
