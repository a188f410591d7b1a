//! The incidence of variables and functions: for each variable of a network the places at which it stands in the scopes
//! of functions.
//!
//! - `Incidence` tells the places of a variable;
//! - `Place` is a place of a function's scope.
//!
//! `incidence.rt` has both.
#![tactic(auto)]

mod incidence;

pub use incidence::{Incidence, Place};
