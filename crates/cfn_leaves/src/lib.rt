//! The pool of open leaves, as plain code: a search tree whose open leaves are free, or out to workers (branch and bound
//! as in Allouche et al. 2015).
//!
//! `Leaves` is the pool's state but for its view of the word, and each call on it one of the pool's steps as cfn_machine
//! defines them: `start` is the opening, also with a kept tree, of which a part of a search may leave leaves to others; `take` hands out a leaf, `give` puts a piece in its place,
//! `back` and `recall` free leaves, `sweep` closes those whose floor reaches the word, and `note` notes a row of bounds.
//! Whether the pool is sound is for the caller to keep: only `take` asks for it. Under `take`, `give` and `back` lie `hand_out`
//! (`handing`), `put` and `put_back`, which know a leaf by its number, its worker and its grant alone, and ask for nothing.
//!
//! The tree is an arena of nodes that only grows (`finish` hands it out). Beside it stand a table of the open leaves by
//! their numbers (`entry`), and the free ones in the order of their floors (cfn_queue). A leaf's path is read up the
//! tree (`way`), and a piece's leaves are numbered by a walk over it (`walk`) and put behind the table (`placing`).
//! Only `start`, `take`, `give` and `put` take memory, and a place in the list is kept for each leaf that is out, so that no
//! other call needs any.
#![tactic(auto)]

mod climb;
mod entry;
mod giving;
mod handing;
mod leaves;
mod noting;
mod opening;
mod placed;
mod placing;
mod reading;
mod returning;
mod setting_aside;
mod sweeping;
mod taking;
mod walk;
mod way;

pub use giving::Handed;
pub use handing::{Lack, Lent};
pub use leaves::Leaves;
pub use placed::Placed;
pub use taking::Taken;
pub use way::path_to;
