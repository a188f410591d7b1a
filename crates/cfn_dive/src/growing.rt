//! A dive from its beginning to its end.

ghost use Rattle.std.specs.Prelude.{◌≡◌, false, ◌≤◌, [], IfOk};
ghost use Rattle.cfn_model.specs.Tree.{Closed};
ghost use Rattle.cfn_proof.specs.Nodes.{tree_of};
ghost use Rattle.cfn_low.specs.Holding.{price_of};
ghost use Rattle.cfn_dive.specs.Diving.{IsOf, IsDiving};
ghost use Rattle.cfn_explore.specs.Falling.{HasFallen};
ghost use Rattle.cfn_dive.specs.Making.{Begins, IsMade};

use crate::growth::{Growth, Leaf};
use crate::parts::Parts;
use cfn_explore::{Halt, Task};
use cfn_low::{Holder, Incumbent, Low};
use cfn_net::Network;
use cfn_proof::Tree;
use std::alloc::{AllocError, Global};
use std::snapshot::Snapshot;

/// A tree that a dive made, and whether the dive made all its backtracks.
#[derive(Drop)]
pub struct Grown {
    pub tree: Tree,
    pub cut: bool,
}

impl<'n> Parts<'n> {
    /// Reads the word, and makes a tree below the leaf of a task: leaves are expanded until none is open, or as many nodes are made as the task
    /// grants, or as many backtracks, or `halt` is past, which is asked behind each expansion. Where the task's floor reaches the
    /// threshold, it is one closed leaf. An `Err` is want of memory.
    pub fn grow<M: Incumbent, H: Halt>(
        &mut self,
        alloc: Global,
        network: &Network,
        task: &Task,
        low: &Low<M>,
        holder: &mut Holder<M>,
        backtracks: u64,
        halt: &H,
    ) -> Result<Grown, AllocError>
        requires network { network.now ≡ self.old.store.network }
        requires task { task.now.network ≡ self.old.store.network }
        requires word { M.network ≡ self.old.store.network }
        requires some { 1 ≤ backtracks }
        requires of { IsOf self.old.store.network self.old }
        ensures falls { HasFallen M.network holder.old holder.new }
        ensures looked { holder.new.seen ≤ price_of M.network holder.old }
        ensures made { IfOk result (λ made. IsMade self.old.store.network task.now.task backtracks (H.limited halt.now) holder.new.seen made.tree made.cut) }
        ensures of { IsOf self.old.store.network self.new }
    {
        low.look(holder);
        holder.law_kept();
        task.law_kept();
        network.law_limits();
        let grant = task.grant();
        if task.floor() >= u128::from(holder.seen()) {
            return closed_at_once(alloc);
        }
        let mut growth = self.begin(alloc, task, holder.seen(), backtracks)?;
        let mut next = growth.current;
        while let Some(leaf) = next {
            self.expand(alloc, network, &mut growth, leaf, low, holder, halt)?;
            next = growth.next(grant, halt);
        }
        holder.law_kept();
        Ok(Grown {
            cut: growth.left == 0,
            tree: shared(alloc, growth.tree)?,
        })
    }

    /// An open leaf behind a task's path, where the store stands then. An `Err` is want of memory.
    fn begin(
        &mut self,
        alloc: Global,
        task: &Task,
        threshold: u64,
        backtracks: u64,
    ) -> Result<Growth, AllocError>
        requires task { task.now.network ≡ self.old.store.network }
        requires of { IsOf self.old.store.network self.old }
        ensures diving { IfOk result (IsDiving self.old.store.network self.new) }
        ensures begins { IfOk result (Begins task.now.task.path threshold backtracks) }
        ensures of { IsOf self.old.store.network self.new }
    {
        task.law_kept();
        self.waiting.clear();
        let tree = Tree::new(alloc)?;
        self.store.replay(task.path())?;
        let root = Leaf {
            id: Tree::ROOT,
            floor: task.floor(),
            since: None,
            is_root: task.path().is_empty(),
        };
        Ok(Growth {
            base: Snapshot::of(task.path()),
            tree,
            current: Some(root),
            threshold,
            nodes: 0,
            granted: backtracks,
            left: backtracks,
        })
    }
}

/// A tree with its blocks in one buffer. An `Err` is want of memory.
fn shared(alloc: Global, tree: Tree) -> Result<Tree, AllocError>
    ensures { IfOk result (λ shared. shared ≡ tree) }
{
    let mut tree = tree;
    tree.share(alloc)?;
    Ok(tree)
}

/// A tree that is one closed leaf with an empty block. An `Err` is want of memory.
fn closed_at_once(alloc: Global) -> Result<Grown, AllocError>
    ensures tree { IfOk result (λ made. tree_of made.tree ≡ Closed []) }
    ensures cut { IfOk result (λ made. made.cut ≡ false) }
{
    let mut tree = Tree::new(alloc)?;
    tree.shut(Tree::ROOT);
    Ok(Grown { tree, cut: false })
}
