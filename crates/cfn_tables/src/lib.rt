//! Tables of a network's costs and live values at one point of a path, to which an event is added, and from which it is
//! taken off again, at the cost of what the event does.
//!
//! They are of numbers of 128 bits, and copy no table of the network. What they say of a history is `Says` in
//! `specs/Tables.antt`, over the definitions' own sums; what an event adds is `Adds`, read forwards where it is made and
//! backwards where it is taken off.
//!
//! - `Costs` are the tables: the floor, a `Domain` for each variable, `Shifts` for each function. `slots` counts the
//!   numbers of a function.
//! - A `Side` has the values that a decision keeps, or the others.
#![tactic(auto)]

mod costs;
mod domain;
mod shifts;
mod side;

pub use costs::Costs;
pub use shifts::slots;
