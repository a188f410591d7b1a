//! Records of what was done to the pool of open leaves in a search: definitions, texts and laws, and the history that a search keeps.
//!
//! specs/Entries.antt has the entries of a record, and the pool that they make of another one. specs/Lines.antt has records as text, and
//! specs/Decoding.antt reads a line backwards. specs/Replaying.antt has what a record comes to, and specs/Fault.antt which line of a text
//! fails first. `RecordFault` says how a line fails, and `laws` says what follows.
//!
//! `Happened` is one thing that can be done, and a `History` all that was done, in order. Which entry each is, is defined in
//! specs/Histories.antt.
#![tactic(auto)]

mod happened;
mod history;
mod kind;
pub mod laws;

pub use happened::Happened;
pub use history::History;
pub use kind::RecordFault;
