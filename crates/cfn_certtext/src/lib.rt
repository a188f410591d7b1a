//! The reader of certificates.
//!
//! `Reader` tells what a text says, line by line, as an `Event` with an `Item`, or the first line that follows no
//! certificate, as a `TextFault`. `stage` is which line is due, `fields` has the words of one line and their numbers,
//! and `parsing` reads a whole line as what `parsed` has. Of a step, `StepText` is what the line says, and of a split
//! `DecisionText`.
//!
//! `Fields` and `parse` are public for other texts that have lines of certificates. No call takes memory.
#![tactic(auto)]

mod event;
mod fields;
mod parsed;
mod parsing;
mod reader;
mod stage;

pub use event::{DecisionText, Event, Item, StepText, TextFault};
pub use fields::{Fields, numeral};
pub use parsed::Parsed;
pub use parsing::parse;
pub use reader::Reader;
