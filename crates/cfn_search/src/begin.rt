//! What a search goes on from.

ghost use Rattle.std.specs.Prelude.{◌≡◌, [], ◌∷◌, None, IfOk};
ghost use Rattle.cfn_proof.specs.Nodes.{open_node};
ghost use Rattle.cfn_search.specs.Beginning.{MayBegin, start_of};
ghost use Rattle.cfn_low.specs.Outcome.{fresh};

use cfn_machine::Part;
use cfn_net::{Network, Scored};
use cfn_proof::Tree;
use std::alloc::{AllocError, Global};

/// What a search goes on from: a tree that is kept of an earlier one, the best assignment that is known, in a buffer that may be
/// empty, which part of the tree's open leaves it has, where it has not all, and whether a record is kept.
#[derive(Drop)]
pub struct Begin {
    pub tree: Tree,
    pub best: Scored,
    pub part: Option<Part>,
    /// Whether what is done to the pool is recorded; then nothing else may be begun with.
    pub recorded: bool,
}

impl Begin {
    /// One open leaf, and nothing known; and whether what is done to the pool is recorded. An `Err` is want of memory.
    pub fn fresh(alloc: Global, network: &Network, recorded: bool) -> Result<Begin, AllocError>
        ensures may { IfOk result (MayBegin network.now) }
        ensures start { IfOk result (λ begin. start_of network.now begin ≡ fresh network.now) }
        ensures recorded { IfOk result (λ begin. begin.recorded ≡ recorded) }
    {
        network.law_limits();
        Ok(Begin {
            tree: Tree::new(alloc)?,
            best: Scored::empty(alloc, network)?,
            part: None,
            recorded,
        })
    }
}
