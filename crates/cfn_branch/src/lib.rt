//! The brancher: the variable and the value that a split names.
//!
//! - `choose` names the variable by weighted degree, `cheapest` the value by its unary cost (`choosing.rt`);
//! - `Weights` has the weight of each function, which `blame` raises (`weights.rt`);
//! - `split_fewest` names the variable of the fewest live values, and halves them where there are many (`fewest.rt`);
//! - `Rule` says by which of them a search splits (`rule.rt`).
//!
//! Where enforcing ended dead a caller blames the function that projected last (`blame_newest`); a search keeps the weights for
//! its whole run.
#![tactic(auto)]

mod choosing;
mod fewest;
mod rule;
mod weights;

pub use choosing::{cheapest, choose};
pub use fewest::{HALVED_FROM, choose_fewest, middle, split_fewest};
pub use rule::Rule;
pub use weights::{MOST_WEIGHT, Weights};
