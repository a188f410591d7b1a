//! Why a certificate is refused: the first line that fails, and how.
//!
//! What it means that a line fails is defined in specs/, over the lines of a text and the certificates that begin
//! with them; `laws` says what follows.
#![tactic(auto)]

mod kind;
pub mod laws;

pub use kind::FaultKind;
