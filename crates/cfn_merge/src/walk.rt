//! The joined tree in the making: node after node, in the order of their numbers, which is level by level.

ghost use Rattle.std.specs.Prelude.{◌≡◌, ◌+◌, ◌<◌, length, IfOk, OnOk};
ghost use Rattle.cfn_merge.specs.Sources.{IsWalking};

use crate::pair::{Ending, Pair, Source};
use cfn_proof::{NodeId, Tree};
use std::alloc::{AllocError, Global};

/// The tree so far, and the source of each of its nodes.
#[derive(Drop)]
pub(crate) struct Walk {
    pub(crate) tree: Tree,
    pub(crate) sources: Vec<Source>,
}

impl Walk {
    /// One open leaf, at which both trees are due, joined. An `Err` is want of memory.
    pub(crate) fn make(alloc: Global, pair: &Pair<'_>) -> Result<Walk, AllocError>
        ensures { IfOk result (λ made. IsWalking pair.now.first.tree.now pair.now.second.tree.now made.tree made.sources.items 0) }
    {
        pair.law_linked();
        let tree = Tree::new(alloc)?;
        let mut sources = Vec::new(alloc);
        sources.push(Source::Both {
            first: Tree::ROOT,
            second: Tree::ROOT,
        })?;
        Ok(Walk { tree, sources })
    }

    /// Makes the node with a number, an open leaf so far, as its source says. The sides of a split are due behind all nodes then.
    /// An `Err` is want of memory, or of numbers for nodes.
    pub(crate) fn step(
        &mut self,
        alloc: Global,
        pair: &Pair<'_>,
        i: usize,
    ) -> Result<(), AllocError>
        requires there { i < length self.old.sources.items }
        requires walking { IsWalking pair.now.first.tree.now pair.now.second.tree.now self.old.tree self.old.sources.items i }
        ensures { OnOk result (IsWalking pair.now.first.tree.now pair.now.second.tree.now self.new.tree self.new.sources.items (i + 1)) }
    {
        let leaf = NodeId { number: i as u32 };
        let (block, ending) = pair.part(self.sources[i]);
        let block = block.copy(alloc)?;
        match ending {
            Ending::Free => self.tree.leave(leaf, block),
            Ending::Shut => self.tree.close(leaf, block),
            Ending::Split {
                decision,
                first,
                second,
            } => {
                self.tree.split_behind(leaf, block, decision)?;
                self.sources.push(first)?;
                self.sources.push(second)?;
            }
        }
        self.tree.law_linked();
        Ok(())
    }
}
