//! The formats in which a file may give a network.

/// The format of a file.
#[derive(Clone, Copy, PartialEq, Eq)]
pub enum Format {
    /// toulbar2's wcsp format, functions in extension.
    Wcsp,
    /// The classic wcnf format with a top (weighted partial MaxSAT, MaxSAT Evaluations).
    Wcnf,
}
