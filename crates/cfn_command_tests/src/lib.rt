//! Tests of whole runs of `check`, `checkbest`, `merge`, `normal`, `trial` and `kbest`, and of runs that are recorded and replayed,
//! and no code of its own.
//!
//! - `checking` has which certificates are refused, where and how, and which are verified; `listing` the same of lists of the
//!   cheapest assignments; `merging` what certificates come to that are merged.
//! - `normal` judges canonical texts and refusals, and `trial` the least costs of drawn networks.
//! - `kbest` has what that command says and writes, and that `checkbest` verifies what it wrote; `limits` has limits, and each call
//!   on the outside failing in turn.
//! - `rows` has the records and certificates of two small networks, byte for byte; `running` records of several workers; `faults`
//!   records that are changed or cut; `failing` each call on the outside failing in turn.
#![tactic(auto)]

#[cfg(test)]
mod checking;
#[cfg(test)]
mod failing;
#[cfg(test)]
mod faults;
#[cfg(test)]
mod kbest;
#[cfg(test)]
mod limits;
#[cfg(test)]
mod listing;
#[cfg(test)]
mod merging;
#[cfg(test)]
mod normal;
#[cfg(test)]
mod rows;
#[cfg(test)]
mod running;
#[cfg(test)]
mod trial;
