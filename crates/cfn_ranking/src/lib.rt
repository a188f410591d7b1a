//! The cheapest assignments that a search has found so far, with the tree that shows what the others cost.
//!
//! - `ranking.rt`: `Ranking`, the tree, its open leaves and the list, and what is read of it;
//! - `expanding.rt`: a leaf that was expanded is split or closed;
//! - `entering.rt`: or it is the leaf of an assignment, which goes into the list, and the last one may leave it;
//! - `place.rt`: where an assignment goes in the list;
//! - `finishing.rt`: the certificate at the end, a `BestCertificate` (`list.rt`).
//!
//! What is kept at any time is said node by node (specs/Ranked.antt), by what stands before a node. Which leaf is expanded next
//! is up to the search: `next` answers one of least floor. Nodes with numbers of listed assignments beside them mean a tree with
//! listed leaves (specs/Trees.antt); `laws` says what a whole tree has where each of its nodes has it.
#![tactic(auto)]

mod entering;
mod expanding;
mod finishing;
pub mod laws;
mod list;
mod place;
mod ranking;
mod spelling;
mod word;

pub use finishing::Finished;
pub use list::{BestCertificate, Listed};
pub use ranking::Ranking;
pub use word::ListWord;
