//! Certificates of one network in one.
//!
//! - `judge` gives what a good certificate has found, its best assignment and its tree (`judging.rt`).
//! - `Findings` are a best assignment and a tree (`findings.rt`). Those of two certificates are joined by `join_findings`, and make a
//!   certificate again.
//! - `join` makes the joined tree (`joining.rt`), by a walk that makes node after node (`walk.rt`). A `Pair` is the two trees, and
//!   tells what each node is to be (`pair.rt`): a `Source` is a node of one tree, or of both.
//! - A `Rank` is how high a tree is, and how many splits and closed leaves it has; a tree's nodes are ranked from the last on, since
//!   children stand behind their parents (`rank.rt`).
//! - `same.rt` tells whether two nodes are one split; `laws` says that only the same block and decision are.
#![tactic(auto)]

mod findings;
mod joining;
mod judging;
pub mod laws;
mod pair;
mod rank;
mod same;
mod walk;

pub use cfn_fault::FaultKind;
pub use findings::{Findings, certificate, join_findings};
pub use joining::join;
pub use judging::{Judged, judge};
