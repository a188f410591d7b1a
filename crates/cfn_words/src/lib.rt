//! The words of a text, one after the other, and the numbers that words are.
//!
//! What a word and a number are is defined in `cfn_model`, after the toulbar2 user manual, wcsp format.
#![tactic(auto)]

mod splitting;
mod value;

pub use splitting::{Word, Words};
pub use value::number;
