//! Existential directional arc consistency, enforced on a store (de Givry, Heras, Zytnicki and Larrosa, Existential arc
//! consistency, 2005; Cooper et al., Soft arc consistency revisited, 2010). Only what is due is looked at.
//!
//! - `enforcer.rt`: what a caller has;
//! - `reviser.rt`: what is due, and in which order it is looked at;
//! - `looks.rt`: what looking at one thing does to a store.
//!
//! One variable is made existential (Larrosa, de Givry, Heras and Zytnicki, Existential arc consistency: getting closer to full
//! arc consistency in weighted CSPs, 2005) by
//!
//! - `neighbours.rt`: the functions between a variable and each other open variable;
//! - `asking.rt`: what a value asks of them;
//! - `resting.rt`: whether a variable is existential already, by a quick look;
//! - `raising.rt`: one variable made existential;
//! - `choosing.rt`: the value that asks least.
#![tactic(auto)]

mod asking;
mod choosing;
mod enforcer;
mod looks;
mod neighbours;
mod raising;
mod resting;
mod reviser;

pub use choosing::cheapest;
pub use enforcer::Enforcer;
pub use neighbours::Neighbours;
pub use raising::existential;
