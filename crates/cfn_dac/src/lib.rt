//! Full supports, by costs that are shifted through two places of a function (Cooper et al., Soft arc consistency
//! revisited, 2010), as directional and existential arc consistency both need them.
//!
//! - `pair.rt`: full supports for the values of one variable of a function, with regard to another;
//! - `plan.rt`: what is to go to each of these values;
//! - `binary.rt`: what each value has, looked up once where the function has two variables;
//! - `spread.rt`: what the values of the other variable give for it;
//! - `trim.rt`: costly tuples are cut;
//! - `collect.rt`: each value gets its amount;
//! - `dac.rt`: directional arc consistency of one function;
//! - `open.rt`: which variables of a function are open, and whether it takes part.
#![tactic(auto)]

mod binary;
mod collect;
mod dac;
mod open;
mod pair;
mod plan;
mod spread;
mod trim;

pub use dac::{directional, open_pair};
pub use open::{Opens, open_places, takes_part};
pub use pair::{Pair, full_supports};
pub use plan::least_total;
