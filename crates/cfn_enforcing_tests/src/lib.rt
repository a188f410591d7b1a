//! Tests of what enforces consistency in a store, and no code of its own.
//!
//! - `stores` has a store's room, blocks and steps, and `lanes` the loops over rows.
//! - `dues` has what waits, `directing` one function made directional, and `settling` a network settled at its root.
//! - `derivations` has a derivation that empties a variable, and `lifting` what virtual arc consistency lifts by one, both on the
//!   networks of `networks`.
//! - `trimming` has steps that come to a dead end, and those of them that the end needs; `making` makes the steps of a list in
//!   a store.
#![tactic(auto)]

#[cfg(test)]
mod derivations;
#[cfg(test)]
mod directing;
#[cfg(test)]
mod dues;
#[cfg(test)]
mod lanes;
#[cfg(test)]
mod lifting;
#[cfg(test)]
mod making;
#[cfg(test)]
mod networks;
#[cfg(test)]
mod settling;
#[cfg(test)]
mod stores;
#[cfg(test)]
mod trimming;
