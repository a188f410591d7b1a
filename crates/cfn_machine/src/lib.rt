//! The pool of open leaves, by its definitions: a search tree whose open leaves are free, or out to a worker that may
//! make so many nodes below (branch and bound as in Allouche et al. 2015).
//!
//! specs/Pool.antt has the tree with its marks, tasks, pieces, views, rows of bounds, and what a sound pool is; the pool
//! may begin with a kept tree. specs/Steps.antt has each step as a relation on pools: a leaf is taken, a piece is given in
//! its place, a task is given back, all leaves are called back, free leaves are closed, a view is joined in, and a row is
//! noted. specs/Laws.antt has what holds after every list of them.
//! specs/Parts.antt has which open leaves a part of a search has, and where the others are.
//! There is hardly any code: `laws` has a function with nothing to do for each group of laws.
#![tactic(auto)]

pub mod laws;
mod part;
mod sight;

pub use part::Part;
pub use sight::Sight;
