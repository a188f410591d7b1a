//! Tests of the parts that a search stands on, and no code of its own.
//!
//! - `networks` builds a network, `draws` draws some, and `places` has where a variable stands in scopes.
//! - `trees` has blocks, paths and trees.
//! - `waiting` has the queue, `table` rows of different lengths, and `values` the live values.
//! - `nodes` has node consistency.
//! - `listing` has the open list, `handing` the leaves of a tree that are handed out, `pooling` a pool over them, and
//!   `machine` the pool machine; `halving` splits a task's leaf for these.
#![tactic(auto)]

#[cfg(test)]
mod draws;
#[cfg(test)]
mod halving;
#[cfg(test)]
mod handing;
#[cfg(test)]
mod listing;
#[cfg(test)]
mod machine;
#[cfg(test)]
mod networks;
#[cfg(test)]
mod nodes;
#[cfg(test)]
mod places;
#[cfg(test)]
mod pooling;
#[cfg(test)]
mod table;
#[cfg(test)]
mod trees;
#[cfg(test)]
mod values;
#[cfg(test)]
mod waiting;
