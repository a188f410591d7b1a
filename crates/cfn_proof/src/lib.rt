//! What a search leaves as its proof: blocks of steps, paths, and trees of blocks; and what it hands out with them.
//!
//! A tree is a list of nodes. What such a list means as a tree is defined in specs/Nodes.antt; specs/Local.antt
//! says what a whole tree has where each of its nodes has it, and `laws` carries those statements.
#![tactic(auto)]

mod ascent;
mod block;
mod certificate;
mod events;
pub mod laws;
mod packing;
mod path;
mod stretch;
mod tree;

pub use ascent::Ascent;
pub use block::{Block, Steps};
pub use certificate::Certificate;
pub use cfn_model::{Decision, Event, Row, Step};
pub use events::Events;
pub use path::{Path, Side};
pub use tree::{End, Node, NodeId, Tree};
