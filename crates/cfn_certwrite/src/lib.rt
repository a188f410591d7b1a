//! The writers of certificates, of lists of the cheapest assignments, and of records.
//!
//! - `write` puts a certificate into the file that a desk is writing, a word at a time (`certificate`, `nodes`). What its text is, is
//!   defined in cfn_model's specs/Text.antt. `walk` goes over the nodes of a tree in the order of their lines, with no recursion.
//!   `upgrade` writes a certificate of the first version as one of the second (`second`): all that is behind the first line is one put.
//! - `write_best` puts a list into a file in the same way (`list`, `list_nodes`, `number`). Its text is defined in cfn_best's
//!   specs/Lines.antt. `list_report` says what a search for a list found, and `list_message` what a checker found (specs/ListTexts.antt).
//! - `write_record` puts the record of a search into a file (`whole`, `entries`): its history, and of its certificate the network's
//!   numbers and the best assignment. Its text is defined in cfn_record's specs/Lines.antt. Nearly all lines are those of the pieces'
//!   trees. `record_nodes` gathers them in a `batch`, which is put by one call once another line might not fit. `record_message` says
//!   what came of a record that was replayed (specs/RecordTexts.antt).
//!
//! No call takes memory.
#![tactic(auto)]

mod batch;
mod certificate;
mod entries;
mod list;
mod list_message;
mod list_nodes;
mod list_report;
mod nodes;
mod number;
mod record_message;
mod record_nodes;
mod second;
mod walk;
mod whole;

pub use certificate::{put_best, put_network, write};
pub use list::write_best;
pub use list_message::{write_list_open, write_list_refused, write_list_verified};
pub use list_report::write_list_report;
pub use nodes::{put_end, put_steps};
pub use record_message::{write_record_refused, write_replayed};
pub use second::upgrade;
pub use walk::next_node;
pub use whole::{law_spelled, write_record};
