//! Tests of the checkers on small networks, of trees that are kept or joined, and of searches' beginnings, and no code of its own.
//!
//! - `networks` has the networks of the checkers.
//! - `acting` makes a list of acts in a ledger, and names the first that goes otherwise than the list says.
//! - `stepping` has lists of steps, and `deciding` lists with decisions that are gone back from.
//! - `judging` has whole texts, and what the checker answers to each, in one table.
//! - `lists` has the same of lists of the cheapest assignments, and `hostile` such texts of hostile content.
//! - `reading` has texts, and what the reader of certificates tells of each line.
//! - `texts` has texts that are read into trees, and texts that are refused; `counts` counts a tree's nodes.
//! - `trees` has trees that are kept of certificates, `merging` trees that are joined, and `beginnings` searches' beginnings;
//!   `samples` has their networks and certificates.
#![tactic(auto)]

#[cfg(test)]
mod acting;
#[cfg(test)]
mod beginnings;
#[cfg(test)]
mod counts;
#[cfg(test)]
mod deciding;
#[cfg(test)]
mod hostile;
#[cfg(test)]
mod judging;
#[cfg(test)]
mod lists;
#[cfg(test)]
mod merging;
#[cfg(test)]
mod networks;
#[cfg(test)]
mod reading;
#[cfg(test)]
mod samples;
#[cfg(test)]
mod stepping;
#[cfg(test)]
mod texts;
#[cfg(test)]
mod trees;
