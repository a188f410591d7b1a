//! Tests of the search and of what it stands on, and no code of its own.
//!
//! - `alone` has searches on one thread, `teams` by several workers, `failing` by explorers that want memory, and `recorded` with a
//!   record. `networks` has the networks.
//! - `lanes` has one worker alone, and `stealing` a lane of tasks between two threads.
//! - `dives` has one dive.
//! - `naming` has what a brancher names, and `halving` whole searches by the rule of the fewest live values.
//! - `sightings` has one word that several parts read and lower, and `threads` several threads.
#![tactic(auto)]

#[cfg(test)]
mod alone;
#[cfg(test)]
mod dives;
#[cfg(test)]
mod failing;
#[cfg(test)]
mod halving;
#[cfg(test)]
mod lanes;
#[cfg(test)]
mod naming;
#[cfg(test)]
mod networks;
#[cfg(test)]
mod recorded;
#[cfg(test)]
mod sightings;
#[cfg(test)]
mod stealing;
#[cfg(test)]
mod teams;
mod threads;
