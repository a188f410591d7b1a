//! Tests of texts that are read and written, and no code of its own.
//!
//! - `splitting` has the words of a text, and the numbers that words are.
//! - `wcsp` and `wcnf` have files that are read, and files that are refused.
//! - `lines` writes lines of words, and `instances` networks.
//! - `certificates` writes certificates. `reports` says reports and messages.
//! - `records` writes records of searches, and `saying` says what is said of records that are replayed.
//! - `lists` writes lists of the cheapest assignments, and says what is said of them.
//! - `given` has what several of these are of.
#![tactic(auto)]

#[cfg(test)]
mod certificates;
#[cfg(test)]
mod given;
#[cfg(test)]
mod instances;
#[cfg(test)]
mod lines;
#[cfg(test)]
mod lists;
#[cfg(test)]
mod records;
#[cfg(test)]
mod reports;
#[cfg(test)]
mod saying;
#[cfg(test)]
mod splitting;
#[cfg(test)]
mod wcnf;
#[cfg(test)]
mod wcsp;
