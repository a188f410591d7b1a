//! Tests of what an enforcing call leaves of drawn networks, and of a store along walks there and back, and no code of its own.
//!
//! - `settling` draws networks, and has each settled at its root and below a decision.
//! - `judging` judges what a call did and left, and stands on the plain program alone.
//! - `resting` asks which values are known to rest.
//! - `grouping` has that program judge lists of steps which are known by hand to be groups, or not.
//! - `walking` draws networks, and walks a store of each: on by events, to marks and back to them.
//! - `going` has the events, each of them drawn and allowed where the store stands.
//! - `telling` compares what a store tells with what the plain program adds up anew.
#![tactic(auto)]

#[cfg(test)]
mod going;
#[cfg(test)]
mod grouping;
#[cfg(test)]
mod judging;
#[cfg(test)]
mod resting;
#[cfg(test)]
mod settling;
#[cfg(test)]
mod telling;
#[cfg(test)]
mod walking;
