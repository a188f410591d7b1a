//! A tree that is made in the order of its text.

ghost use Rattle.std.specs.Prelude.{◌≡◌, ◌↔◌, ◌<◌, List, [], ◌∷◌, None, length, reverse, IfOk, OnOk, OnErr, IsTrue};
ghost use Rattle.cfn_model.specs.Text.{IsSpelledStep};
ghost use Rattle.cfn_fault.specs.Nodes.{Item, Makes, LeavesOpen, Closes, Splits};
ghost use Rattle.cfn_proof.specs.Nodes.{open_node, IsTree};
ghost use Rattle.cfn_certtext.specs.Reading.{step_of, decision_of};
ghost use Rattle.cfn_certread.specs.declared.maker.Due.TheVariants.{Read};
ghost use Rattle.cfn_certread.specs.Making.{Goes, IsDue, all_due, left_at, closed_at, sides_at};

use crate::narrow::{small_decision, small_step};
use cfn_certtext::{DecisionText, StepText};
use cfn_proof::{Block, NodeId, Tree};
use std::alloc::{AllocError, Global};
use std::marker::Model;

/// A tree of the text that is to come.
#[derive(Clone, Copy)]
pub(crate) enum Due {
    /// It is read into this open leaf.
    Read(NodeId),
    /// It stands below a node that ended before, and is skipped.
    Skip,
}

/// A tree in the making, with a stack of the trees of the text that are due.
#[derive(Drop)]
pub struct Maker {
    alloc: Global,
    tree: Tree,
    /// The steps so far of the block of the node that is due.
    block: Block,
    /// The next tree, if one is due.
    here: Option<Due>,
    /// Those behind it, the next one last.
    waiting: Vec<Due>,
}

impl Model for Maker {
    ghost use Rattle.std.specs.Prelude.{reverse};
    ghost use Rattle.cfn_certread.specs.Making.{Making, IsMaking, all_due};

    ghost Value = { Making };

    ghost view = { λ m. record { nodes = m.tree; block = m.block; due = all_due m.here (reverse m.waiting.items) } };

    ghost invariant = { λ m. IsMaking (record { nodes = m.tree; block = m.block; due = all_due m.here (reverse m.waiting.items) }) };
}

impl Maker {
    /// An open root, into which the whole tree is read. An `Err` is want of memory.
    pub fn new(alloc: Global) -> Result<Maker, AllocError>
        ensures { IfOk result (λ maker. maker ≡ record {
          nodes = open_node None ∷ [];
          block = [];
          due = Read (record { number = 0 }) ∷ [];
        }) }
    {
        Ok(Maker {
            alloc,
            tree: Tree::new(alloc)?,
            block: Block::new(alloc),
            here: Some(Due::Read(Tree::ROOT)),
            waiting: Vec::new(alloc),
        })
    }

    /// Whether no tree is due.
    pub fn is_over(&self) -> bool
        ensures { IsTrue result ↔ (self.now.due ≡ []) }
    {
        self.here.is_none()
    }

    /// Reads a step of the block of the node that is due. At one that has a number of 2^32 or more the node is left open,
    /// and the rest of its tree is skipped. An `Err` is want of memory.
    pub fn step(&mut self, step: StepText) -> Result<(), AllocError>
        requires some { 0 < length self.old.due }
        requires spelled { IsSpelledStep (step_of step) }
        ensures { OnOk result (Goes self.old self.new (Makes (step_of step))) }
    {
        let Some(here) = self.here else {
            return Ok(());
        };
        let Due::Read(leaf) = here else {
            return Ok(());
        };
        match small_step(step) {
            Some(step) => {
                self.block.push(step)?;
                Ok(())
            }
            None => {
                let block = taken(self.alloc, &mut self.block);
                self.tree.leave(leaf, block);
                self.here = Some(Due::Skip);
                Ok(())
            }
        }
    }

    /// The node that is due is an open leaf. It takes no memory.
    pub fn open(&mut self)
        requires { 0 < length self.old.due }
        ensures { Goes self.old self.new LeavesOpen }
    {
        let Some(here) = self.here else {
            return;
        };
        let block = taken(self.alloc, &mut self.block);
        leave(&mut self.tree, here, block);
        self.here = next_due(&mut self.waiting);
    }

    /// The node that is due is a closed leaf. It takes no memory.
    pub fn close(&mut self)
        requires { 0 < length self.old.due }
        ensures { Goes self.old self.new Closes }
    {
        let Some(here) = self.here else {
            return;
        };
        let block = taken(self.alloc, &mut self.block);
        close(&mut self.tree, here, block);
        self.here = next_due(&mut self.waiting);
    }

    /// The node that is due is a split, whose sides are due next. Where its decision has a number of 2^32 or more, the node
    /// is left open, and both sides are skipped. An `Err` is want of memory.
    pub fn split(&mut self, decision: DecisionText) -> Result<(), AllocError>
        requires { 0 < length self.old.due }
        ensures { OnOk result (Goes self.old self.new (Splits (decision_of decision))) }
    {
        let Some(here) = self.here else {
            return Ok(());
        };
        self.waiting.reserve(1)?;
        let block = taken(self.alloc, &mut self.block);
        let (first, second) = split(&mut self.tree, here, block, decision)?;
        self.waiting.push_reserved(second);
        self.here = Some(first);
        Ok(())
    }

    /// The tree that was made.
    pub fn into_tree(self) -> Tree
        ensures tree { result ≡ self.nodes }
        ensures linked { IsTree result }
    {
        self.tree.law_linked();
        self.tree
    }
}

/// Takes the steps of a block, and leaves none. It takes no memory.
fn taken(alloc: Global, block: &mut Block) -> Block
    ensures steps { result ≡ block.old }
    ensures left { block.new ≡ [] }
{
    std::mem::replace(block, Block::new(alloc))
}

/// Takes the next of the trees that wait, if there is one.
fn next_due(waiting: &mut Vec<Due>) -> Option<Due>
    ensures { all_due result (reverse waiting.new.items) ≡ reverse waiting.old.items }
{
    waiting.pop()
}

/// Leaves the leaf open that a tree is read into, behind a block. It takes no memory.
fn leave(tree: &mut Tree, here: Due, block: Block)
    requires { IsDue tree.old here }
    ensures { tree.new ≡ left_at tree.old here block }
{
    match here {
        Due::Read(leaf) => tree.leave(leaf, block),
        Due::Skip => {}
    }
}

/// Closes the leaf that a tree is read into, behind a block. It takes no memory.
fn close(tree: &mut Tree, here: Due, block: Block)
    requires { IsDue tree.old here }
    ensures { tree.new ≡ closed_at tree.old here block }
{
    match here {
        Due::Read(leaf) => tree.close(leaf, block),
        Due::Skip => {}
    }
}

/// Splits the leaf that a tree is read into, behind a block, and answers where its sides go. Where the decision has a
/// number of 2^32 or more, the leaf is left open. An `Err`, want of memory, leaves the tree as it was.
fn split(
    tree: &mut Tree,
    here: Due,
    block: Block,
    decision: DecisionText,
) -> Result<(Due, Due), AllocError>
    requires { IsDue tree.old here }
    ensures nodes { OnOk result (tree.new ≡ (sides_at tree.old here block (decision_of decision)).nodes) }
    ensures due { IfOk result (λ sides. sides.0 ∷ sides.1 ∷ [] ≡ (sides_at tree.old here block (decision_of decision)).due) }
    ensures err { OnErr result (tree.new ≡ tree.old) }
{
    let Due::Read(leaf) = here else {
        return Ok((Due::Skip, Due::Skip));
    };
    match small_decision(decision) {
        Some(decision) => {
            let (first, second) = tree.split_behind(leaf, block, decision)?;
            Ok((Due::Read(first), Due::Read(second)))
        }
        None => {
            tree.leave(leaf, block);
            Ok((Due::Skip, Due::Skip))
        }
    }
}
