//! The command line of the program `wcspsolve`: which command its words spell.
//!
//!     wcspsolve solve FILE CERT [--workers W] [--budget B] [--seconds S] [--wcnf] [--progress] [--record REC]
//!     wcspsolve check FILE CERT [--wcnf]
//!     wcspsolve cost FILE VALUES.. [--wcnf]
//!     wcspsolve normal FILE [--wcnf]
//!     wcspsolve trial SEED SIZE [--workers W]
//!     wcspsolve migrate FILE CERT OUT
//!     wcspsolve rebase FILE OLD CERT [--workers W] [--budget B] [--seconds S] [--wcnf] [--progress] [--part I] [--parts N]
//!     wcspsolve merge FILE OUT CERT.. [--wcnf]
//!     wcspsolve replay FILE REC CERT [--wcnf]
//!     wcspsolve kbest FILE K CERT [--budget B] [--seconds S] [--wcnf]
//!     wcspsolve checkbest FILE CERT [--wcnf] [--complete]
//!
//! The crate `clap` says which word is which argument. `commands` is the list of the commands, each of which has a file of its
//! own: what it is asked with, its part of the command line, and how that is read. `arguments` has the arguments that several
//! of them take, and `found` reads what clap found and holds numbers to their limits. What the words spell, `request_of` of
//! `specs/Request.antt`, is a function of the words alone: clap's own function of the words, at the command line, and then the
//! reading.
#![tactic(auto)]

mod arguments;
pub mod commands;
mod fault;
mod format;
mod found;
mod parsing;

pub use commands::Command;
pub use fault::CliFault;
pub use format::Format;
pub use parsing::parse;
