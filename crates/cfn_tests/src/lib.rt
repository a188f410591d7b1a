//! Tests of whole runs, and no code of its own.
//!
//! `solving`, `asking`, `reading`, `failing` and `migrating` judge what is found, what the words of a command line ask for,
//! which files are refused, what a fault of the outside leaves, and what becomes of a certificate of the first version; `rows`
//! walks the runs that these list. `rebasing` has runs that go on from a certificate, `workers` runs of several workers, `telling` what a gate is told of a run, and `timing`
//! runs under a limit of time.
#![tactic(auto)]

#[cfg(test)]
mod asking;
#[cfg(test)]
mod failing;
#[cfg(test)]
mod migrating;
#[cfg(test)]
mod reading;
#[cfg(test)]
mod rebasing;
#[cfg(test)]
mod rows;
#[cfg(test)]
mod solving;
#[cfg(test)]
mod telling;
#[cfg(test)]
mod timing;
#[cfg(test)]
mod workers;
