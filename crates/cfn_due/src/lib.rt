//! Which functions and variables of a network are due to be looked at, which events make them so, and what is known meanwhile,
//! so that it need not be looked at again.
//!
//! - `due.rt`: what waits, and how it is put and taken away;
//! - `last.rt`: what was put last, so that a run of steps on one variable walks its neighbours once;
//! - `laws.rt`: what an event leaves as it was, and what it is good for that nothing waits;
//! - `rests.rt`: for each variable a value that may rest, one that costs nothing and has a full support in each function of its
//!   variable and another one, and in which functions it is known to have one;
//! - `sides.rt`: at which places of functions a live value may lack a support;
//! - `marks.rt`: numbers that are marked.
//!
//! specs/Dues.antt says what holds of that which does not wait, and specs/Going.antt what an event may end.
#![tactic(auto)]

mod due;
mod last;
pub mod laws;
mod marks;
mod rests;
mod sides;

pub use due::{Due, Next};
pub use rests::Rests;
pub use sides::Sides;
