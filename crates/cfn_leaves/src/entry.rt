//! The table of open leaves: what is kept of each, by its number.

use cfn_proof::NodeId;

/// Whether an open leaf is free, or out: handed to a worker, who may make so many nodes.
#[derive(Clone, Copy)]
pub(crate) enum Mark {
    Free,
    Out { worker: u64, grant: u64 },
}

/// An open leaf: its node, its mark, and the floor at the end of its path.
#[derive(Clone, Copy)]
pub(crate) struct Entry {
    pub(crate) node: NodeId,
    pub(crate) mark: Mark,
    pub(crate) floor: u128,
}
