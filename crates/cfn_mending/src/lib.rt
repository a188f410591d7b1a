//! The definitions of mending, with their laws: what is kept of the search tree of an old certificate where its network was
//! edited, how two certificates of one network are merged, and what a tree in the making will be.
//!
//! A tree is made leaf by leaf, in the order of its text or in any other: what is due at each open leaf says what it will be
//! (specs/Making.antt).
//!
//! Nothing here computes: `laws` carries what follows.
#![tactic(auto)]

pub mod laws;
