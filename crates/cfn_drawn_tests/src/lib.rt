//! Tests over drawn networks, and of the plain program that judges there, and no code of its own.
//!
//! - `least` judges searches by the plain program and by the drawn words.
//! - `mutating` changes a word or a line of good certificates, and has each judged by `check` and by `judging`, a plain
//!   judge that stands on the plain program alone.
//! - `plain` asks the plain program.
#![tactic(auto)]

#[cfg(test)]
mod judging;
#[cfg(test)]
mod least;
#[cfg(test)]
mod mutating;
#[cfg(test)]
mod plain;
