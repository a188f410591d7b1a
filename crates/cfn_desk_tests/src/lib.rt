//! Tests of desks, of limits of time and of lines of progress, and no code of its own.
//!
//! - `calling` has the calls that a test makes of any desk, and what came of them.
//! - `memory` asks the desks in memory.
//! - `storage` is a storage in memory of which one call fails, and `faults` asks a desk over it.
//! - `system` asks a desk over the system's files.
//! - `deadlines` has limits of time by a clock in memory, and `lines` lines of progress by a clock and a standard error in memory.
#![tactic(auto)]

#[cfg(test)]
mod calling;
#[cfg(test)]
mod deadlines;
#[cfg(test)]
mod faults;
#[cfg(test)]
mod lines;
#[cfg(test)]
mod memory;
#[cfg(test)]
mod storage;
#[cfg(test)]
mod system;
