//! Networks to try a solver on, drawn from a seed.
//!
//! `instance` makes the network of a seed and a number of variables, defined in specs/Generator.antt: a chain of
//! variables with three values each, a function of each variable, of each two neighbours, and of each two that have one
//! between them. Every cost is a draw of a linear congruential generator (Knuth, The Art of Computer Programming, volume
//! 2, 3.2.1), so the network is the same everywhere. `allowing_law` is the law that every assignment of it is allowed.
//!
//! - `draws` is the generator, and `function` draws the costs of one function.
//! - `group` adds the functions of all variables, or of all pairs so far apart.
#![tactic(auto)]

mod draws;
mod function;
mod group;
mod trial;

pub use trial::{instance, law_allowing};
