//! The walk over an old tree, a node at a time: the tree of what is kept grows with it.
//!
//! At each split that is kept both sides wait, the first above the second, each with the leaf of the new tree where it goes. The
//! newest of those that wait is next. So neither memory nor time goes with a side of a split that is not kept.

ghost use Rattle.std.specs.Prelude.{◌≡◌, ◌+◌, ◌<◌, [], true, false, reverse, IfOk, OnOk};
ghost use Rattle.cfn_proof.specs.declared.tree.End.TheVariants.{Free, Shut, Split};
ghost use Rattle.cfn_proof.specs.Nodes.{tree_at};
ghost use Rattle.cfn_rebase.specs.Walking.{Walks, IsNext, IsAtNode, IsEndingAt, weight, weights};

use crate::ground::{Ground, Spot};
use cfn_model::Decision;
use cfn_net::{Network, Tables};
use cfn_proof::{Block, End, NodeId, Side, Tree};
use std::alloc::{AllocError, Global};

/// A side of a split that waits: the root of its old tree, and the leaf where what is kept of that goes.
#[derive(Drop)]
pub(crate) struct Waiting<'n> {
    pub(crate) old: NodeId,
    pub(crate) leaf: NodeId,
    /// Where the split stands.
    pub(crate) spot: Spot<'n>,
    pub(crate) side: Side,
}

/// A walk: where it stands, the tree that is made, and the sides that wait, the newest last.
#[derive(Drop)]
pub(crate) struct Walk<'n> {
    pub(crate) ground: Ground<'n>,
    pub(crate) tree: Tree,
    pub(crate) waiting: Vec<Waiting<'n>>,
    pub(crate) threshold: u64,
}

impl<'n> Walk<'n> {
    /// A walk at the root of an old tree. An `Err` is want of memory.
    pub(crate) fn make(
        alloc: Global,
        network: &'n Network,
        tables: &'n Tables,
        old: &Tree,
        threshold: u64,
    ) -> Result<Walk<'n>, AllocError>
        requires { tables.now ≡ network.now }
        ensures { IfOk result (λ made. IsAtNode network.now threshold old.now made 0 0) }
    {
        old.law_linked();
        let ground = Ground::make(alloc, network, tables)?;
        let tree = Tree::new(alloc)?;
        let waiting = Vec::new(alloc);
        Ok(Walk {
            ground,
            tree,
            waiting,
            threshold,
        })
    }

    /// The tree that was made.
    pub(crate) fn into_tree(self) -> Tree
        ensures { result ≡ self.entry.tree }
    {
        self.tree
    }

    /// Goes to the newest side that waits, and keeps what is kept of the node there; whether one waited. An `Err` is want of
    /// memory, after which the tree says nothing.
    pub(crate) fn next(&mut self, alloc: Global, old: &Tree) -> Result<bool, AllocError>
        requires { Walks self.old.ground.network self.old.threshold old.now self.old }
        ensures walks { OnOk result (Walks self.old.ground.network self.old.threshold old.now self.new) }
        ensures less { IfOk result (λ more. more ≡ true → weights old.now (reverse self.new.waiting.items) < weights old.now (reverse self.old.waiting.items)) }
        ensures none { IfOk result (λ more. more ≡ false → self.new.waiting.items ≡ []) }
    {
        match self.waiting.pop() {
            None => Ok(false),
            Some(next) => {
                self.go_on(alloc, old, next)?;
                Ok(true)
            }
        }
    }

    /// Goes to a side that waited, and keeps what is kept of the node there. An `Err` is want of memory.
    fn go_on(&mut self, alloc: Global, old: &Tree, next: Waiting<'n>) -> Result<(), AllocError>
        requires { IsNext self.old.ground.network self.old.threshold old.now self.old next }
        ensures walks { OnOk result (Walks self.old.ground.network self.old.threshold old.now self.new) }
        ensures less { OnOk result (weights old.now (reverse self.new.waiting.items)
            < weight (tree_at old.now next.entry.old.number) + weights old.now (reverse self.old.waiting.items)) }
    {
        self.ground.back(&next.spot);
        self.ground.enter(next.side)?;
        self.keep_node(alloc, old, next.old, next.leaf)
    }

    /// Keeps what is kept of an old node at an open leaf, where the walk stands. An `Err` is want of memory.
    pub(crate) fn keep_node(
        &mut self,
        alloc: Global,
        old: &Tree,
        id: NodeId,
        leaf: NodeId,
    ) -> Result<(), AllocError>
        requires { IsAtNode self.old.ground.network self.old.threshold old.now self.old id.number leaf.number }
        ensures walks { OnOk result (Walks self.old.ground.network self.old.threshold old.now self.new) }
        ensures less { OnOk result (weights old.now (reverse self.new.waiting.items)
            < weight (tree_at old.now id.number) + weights old.now (reverse self.old.waiting.items)) }
    {
        let node = old.node(id);
        let whole = self.ground.front(self.threshold, &node.block)?;
        let block = self.ground.kept_block(alloc, whole, &node.block)?;
        let end = self.ground.ending(self.threshold, node, whole);
        self.end(old, id, leaf, block, end)
    }

    /// Ends a leaf behind a block, as what is kept of an old node ends. An `Err` is want of memory.
    fn end(
        &mut self,
        old: &Tree,
        id: NodeId,
        leaf: NodeId,
        block: Block,
        end: End,
    ) -> Result<(), AllocError>
        requires { IsEndingAt self.old.ground.network self.old.threshold old.now self.old id.number leaf.number block end }
        ensures walks { OnOk result (Walks self.old.ground.network self.old.threshold old.now self.new) }
        ensures less { OnOk result (weights old.now (reverse self.new.waiting.items)
            < weight (tree_at old.now id.number) + weights old.now (reverse self.old.waiting.items)) }
    {
        match end {
            End::Free => {
                self.leave(old, id, leaf, block);
                Ok(())
            }
            End::Shut => {
                self.close(old, id, leaf, block);
                Ok(())
            }
            End::Split {
                decision,
                first,
                second,
            } => self.divide(old, id, leaf, block, decision, first, second),
        }
    }

    /// Leaves a leaf open behind a block.
    fn leave(&mut self, old: &Tree, id: NodeId, leaf: NodeId, block: Block)
        requires { IsEndingAt self.old.ground.network self.old.threshold old.now self.old id.number leaf.number block Free }
        ensures walks { Walks self.old.ground.network self.old.threshold old.now self.new }
        ensures less { weights old.now (reverse self.new.waiting.items)
            < weight (tree_at old.now id.number) + weights old.now (reverse self.old.waiting.items) }
    {
        old.law_linked();
        self.tree.leave(leaf, block);
    }

    /// Closes a leaf behind a block.
    fn close(&mut self, old: &Tree, id: NodeId, leaf: NodeId, block: Block)
        requires { IsEndingAt self.old.ground.network self.old.threshold old.now self.old id.number leaf.number block Shut }
        ensures walks { Walks self.old.ground.network self.old.threshold old.now self.new }
        ensures less { weights old.now (reverse self.new.waiting.items)
            < weight (tree_at old.now id.number) + weights old.now (reverse self.old.waiting.items) }
    {
        old.law_linked();
        self.tree.close(leaf, block);
    }

    /// Splits a leaf behind a block; the two sides of the old split wait then. An `Err` is want of memory or of numbers.
    fn divide(
        &mut self,
        old: &Tree,
        id: NodeId,
        leaf: NodeId,
        block: Block,
        decision: Decision,
        first: NodeId,
        second: NodeId,
    ) -> Result<(), AllocError>
        requires { IsEndingAt self.old.ground.network self.old.threshold old.now self.old id.number leaf.number block (Split decision first second) }
        ensures walks { OnOk result (Walks self.old.ground.network self.old.threshold old.now self.new) }
        ensures less { OnOk result (weights old.now (reverse self.new.waiting.items)
            < weight (tree_at old.now id.number) + weights old.now (reverse self.old.waiting.items)) }
    {
        old.law_linked();
        self.waiting.reserve(2)?;
        let (one, two) = self.tree.split_behind(leaf, block, decision)?;
        let spot = self.ground.spot();
        let above = self.ground.spot();
        self.waiting.push_reserved(Waiting {
            old: second,
            leaf: two,
            spot,
            side: Side::Fails(decision),
        });
        self.waiting.push_reserved(Waiting {
            old: first,
            leaf: one,
            spot: above,
            side: Side::Holds(decision),
        });
        Ok(())
    }
}
