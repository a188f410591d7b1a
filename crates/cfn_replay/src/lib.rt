//! Recorded searches are run again.
//!
//! `replay` goes over the lines of a record's text and does its entries to the open leaves. It answers the text of the certificate that
//! the record comes to, or the first line that fails.
//!
//! - `Lines` takes one line after another from a record's text; `said` is what a line says, and `kinds` has what may come next,
//!   and the lines of nodes, whose numbers get 32 bits.
//! - `opening` reads the lines before the events. `sequence` does one event after another, and `events` one: `piece` reads the tree
//!   of a piece, and `entries` does entries to the open leaves.
//! - `closing` reads the lines behind the events: `best` has the best assignment, and `judging` the certificate, which the checker
//!   judges.
#![tactic(auto)]

mod answer;
mod best;
mod closing;
mod entries;
mod events;
mod judging;
mod kinds;
mod lines;
mod opening;
mod piece;
mod replaying;
mod said;
mod sequence;

pub use answer::Replay;
pub use replaying::replay;
