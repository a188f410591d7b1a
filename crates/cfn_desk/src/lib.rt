//! The outside of the solver: named files, one file that is being written, and standard output.
//!
//! A call takes any `Desk`, and its contract sees the desk as one meaning: the calls that were made, and the named files.
//! So a caller's theorem speaks of bytes in and bytes out, and a caller is tried against a desk in memory whose calls fail
//! where a test says so.
//!
//! - `interface` has the contract, `Desk`, and how its calls fail.
//! - `MemoryDesk` is a desk in memory, and `SureDesk` one that keeps no text and on which only a load can fail.
//! - `trace` is the list of calls, `named` keeps files by their names, `slot` is room for one written file, and `room` for
//!   bytes, taken once.
#![tactic(auto)]

mod file_desk;
mod host;
mod interface;
mod memory;
mod named;
mod names;
mod out_file;
mod read;
mod room;
mod slot;
mod storage;
mod sure;
mod trace;

pub use file_desk::FileDesk;
pub use host::{HostDesk, HostOutput, HostStorage};
pub use interface::{Desk, Failed, LoadFault};
pub use memory::MemoryDesk;
pub use names::NameRoom;
pub use read::FILE_LIMIT;
pub use room::Full;
pub use slot::NAME_ROOM;
pub use storage::{Entry, ReadFault, Storage};
pub use sure::SureDesk;
