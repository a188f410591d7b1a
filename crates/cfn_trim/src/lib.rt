//! Closes the leaf of one assignment by shifts (Cooper et al., Soft arc consistency revisited, 2010), and trims the blocks of
//! closed leaves: of the steps that propagation made at a dead leaf, those that its closing needs.
//!
//! A closed leaf's block may be any that runs and closes, so the choice of steps is free. It is made backwards, from the newest
//! step on: a cut is needed where the variable that was emptied lost its values, a project where a cut or a lift asks for its
//! value's unary cost, and so on. Then the block is made again by the chosen steps alone, each tested by the store's own tests;
//! where one cannot be made, or the end does not close, the whole block stands.
//!
//! - `trimmer.rt`: what a caller has;
//! - `needs.rt`: which steps are needed, from the newest back; `flags.rt`, its sets of numbers;
//! - `run.rt`: makes the chosen steps again; `testing.rt`, whether a step can be made;
//! - `end.rt`: what closes a leaf; `smallness.rt`: costs stay small along a block;
//! - `shutting.rt`: what an assignment costs is shifted to the floor, until the floor reaches the threshold.
#![tactic(auto)]

mod end;
mod flags;
mod needs;
mod run;
mod shutting;
mod smallness;
mod testing;
mod trimmer;

pub use shutting::shut;
pub use smallness::law_block_stays_tame;
pub use trimmer::Trimmer;
