//! The one call that does all that the program does.
//!
//! `run` reads the words of the command line, loads and reads the file, and then solves it, writes the certificate and
//! says the report; or judges the certificate that it loaded, and says its bounds or its first line that fails, or writes
//! it in the second version; or lists the cheapest assignments, or judges such a list; or says the cost of an assignment, or the file's
//! network in its canonical text; or draws a network and says its least cost. How it may end, with each call of the desk,
//! and what each status says is defined in specs/Runs.antt, with a file for each command below it, and what a report
//! promises in specs/Headline.antt.
//!
//! - `program` has `run`. `commands` is the list of the commands, each of which has a file of its own, as specs/Runs has and
//!   proofs/Stating.
//! - `loading` goes from the names of files to bytes and a network in a format, and `output` writes a certificate and
//!   says its report. `searching` is the search, with its gate told before and behind. `status` has the statuses.
//! - A `Gate` is what the workers of a search pass, and what is told how far it is (`cfn_explore`). A limit of time is a `Deadline`
//!   by the clock that `run` is given (`cfn_explore`).
#![tactic(auto)]

mod commands;
mod loading;
mod output;
mod program;
mod searching;
mod status;

pub use cfn_solve::{Gate, News, OpenGate, Point};
pub use program::run;
pub use status::Status;
