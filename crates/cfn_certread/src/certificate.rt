//! What is read of a certificate.

use cfn_proof::Tree;

/// An assignment with its cost, as a text has it: each number is at most 9,223,372,036,854,775,807, there is at least one
/// value, and nothing is compared with a network.
#[derive(Drop)]
pub struct Best {
    pub cost: u64,
    pub values: Vec<u64>,
}

/// The lines before the best assignment, without the version.
#[derive(Clone, Copy)]
pub(crate) struct Head {
    pub(crate) variables: u64,
    pub(crate) functions: u64,
    pub(crate) upper: u64,
    pub(crate) lower: u64,
}

/// A certificate that was read: how many variables and functions its network has, the upper bound, the best assignment
/// that is known, the lower bound, and the tree as far as its numbers are below 2^32. Each number is at most
/// 9,223,372,036,854,775,807, and nothing is compared with a network.
#[derive(Drop)]
pub struct ReadCertificate {
    pub variables: u64,
    pub functions: u64,
    pub upper: u64,
    pub best: Option<Best>,
    pub lower: u64,
    pub tree: Tree,
}
