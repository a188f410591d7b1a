//! The ways in which a line of a list of assignments may fail.

use cfn_fault::FaultKind;

/// What is wrong with the first line that fails.
#[derive(Clone, Copy, Debug, PartialEq, Eq)]
pub enum ListFault {
    /// What may be wrong with a line of a certificate too.
    Certificate(FaultKind),
    /// A leaf is no leaf of the listed assignment with its number.
    Listed,
}
