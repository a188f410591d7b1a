//! How many nodes of each kind a tree has.

use cfn_proof::{End, NodeId, Tree};

/// How many nodes of a tree are open leaves, closed leaves and splits, and how many steps they have.
#[derive(Clone, Copy, PartialEq, Eq)]
pub(crate) struct Counts {
    pub(crate) open: u64,
    pub(crate) closed: u64,
    pub(crate) split: u64,
    pub(crate) steps: u64,
}

/// Counts the nodes of a tree.
pub(crate) fn count_nodes(tree: &Tree) -> Counts {
    let mut counts = Counts {
        open: 0,
        closed: 0,
        split: 0,
        steps: 0,
    };
    for number in 0..tree.len() {
        let Ok(number) = u32::try_from(number) else {
            return counts;
        };
        let node = tree.node(NodeId { number });
        for _step in node.block.cursor() {
            counts.steps = counts.steps.saturating_add(1);
        }
        match node.end {
            End::Free => counts.open = counts.open.saturating_add(1),
            End::Shut => counts.closed = counts.closed.saturating_add(1),
            End::Split { .. } => counts.split = counts.split.saturating_add(1),
        }
    }
    counts
}
