//! Local consistencies of weighted constraint networks, by their definitions (Larrosa and Schiex, Solving weighted CSP by
//! maintaining arc consistency, 2004; Cooper et al., Soft arc consistency revisited, 2010).
//!
//! specs/Openness.antt has open variables, and which functions take part. specs/Consistency.antt has node, arc,
//! directional and existential arc consistency, of one function or variable and of a whole network, and when a state is
//! dead. specs/Groups.antt has what the steps of an enforcing call gain, and specs/Agreement.antt when two histories agree
//! on what a consistency looks at.
//! specs/Virtual.antt has virtual arc consistency: derivations, closed families and plans, at a cost and under bans, over the
//! types of `deletion`.
//! There is no code: `laws` has a function with nothing to do for each group of laws.
#![tactic(auto)]

mod deletion;
pub mod laws;

pub use deletion::{Deletion, Reason, Source};
