//! What the program says: the report of a search, the lines on faults and costs, and lines of progress.
//!
//! - `write` says a report, and the other functions say a text each. The texts are defined in cfn_model's
//!   specs/Text.antt, and what `check` says and how the program is called in specs/Texts.antt.
//! - `word` is a number that may be missing. Lines of words are written by `cfn_line`.
//! - `Progress` is a gate that shows a `Line` of how far a search is, a few a second, on standard error (`progress`, `line`).
//!
//! Each line of at most 4,096 bytes is said by one call. No call takes memory.
#![tactic(auto)]

mod line;
mod merging;
mod message;
mod progress;
mod report;
mod word;

pub use line::Line;
pub use merging::{write_merged, write_refused_in};
pub use message::{
    write_cost, write_header_fault, write_memory_fault, write_migrated, write_read_fault,
    write_refusal, write_refused, write_trial, write_usage, write_value_fault, write_values_fault,
    write_verified, write_write_fault,
};
pub use progress::Progress;
pub use report::{Report, write};
