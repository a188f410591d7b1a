//! The way from the root of a search tree to a node.
//!
//! A path has the root's block and a leg for each split, and shares its blocks with the tree. So going to a node takes no
//! step: steps are read where the events are.

ghost use Rattle.std.specs.Prelude.{◌≡◌, ◌↔◌, ◌≤◌, ◌^◌, [], ◌∷◌, length, reverse, IsTrue, IfOk, OnOk, OnErr, MatchOption};
ghost use Rattle.cfn_model.specs.Steps.{after};
ghost use Rattle.cfn_proof.specs.Legs.{event_of};

use crate::ascent::Ascent;
use crate::block::Block;
use crate::events::Events;
use cfn_model::{Decision, Event};
use std::alloc::{AllocError, Global};
use std::marker::Model;

/// A side of a split: the first child, where its decision holds, or the second, where it fails.
#[derive(Clone, Copy, PartialEq, Eq)]
pub enum Side {
    Holds(Decision),
    Fails(Decision),
}

impl Side {
    /// The event by which a path goes to the side.
    pub fn event(self) -> Event
        ensures { result ≡ event_of self }
    {
        match self {
            Side::Holds(decision) => Event::Took(decision),
            Side::Fails(decision) => Event::Refused(decision),
        }
    }
}

/// A side of a split, and the block behind it.
#[derive(Drop)]
pub(crate) struct Leg {
    pub(crate) side: Side,
    pub(crate) block: Block,
}

impl Leg {
    /// Whether it is this side and this block.
    pub(crate) fn is_of(&self, side: Side, block: &Block) -> bool
        ensures { IsTrue result ↔ ((self.now.side ≡ side) × (self.now.block ≡ block.now)) }
    {
        self.side == side && self.block.is_same(block)
    }
}

/// The steps and decisions from the root to a node. Contracts see the list of them, the newest first.
#[derive(Drop)]
pub struct Path {
    root: Block,
    legs: Vec<Leg>,
}

impl Model for Path {
    ghost use Rattle.std.specs.Prelude.{List};
    ghost use Rattle.cfn_model.specs.declared.step.Event.{Event};
    ghost use Rattle.cfn_proof.specs.Legs.{path_of};

    ghost Value = { List Event };

    ghost view = { λ p. path_of p.root p.legs.items };
}

impl Path {
    /// The root's path, which is empty. It takes no memory.
    pub fn new(alloc: Global) -> Path
        ensures { result ≡ [] }
    {
        Path {
            root: Block::new(alloc),
            legs: Vec::new(alloc),
        }
    }

    /// The path to the end of the root's block. An `Err` is want of memory.
    pub fn at_root(alloc: Global, block: &Block) -> Result<Path, AllocError>
        ensures { IfOk result (λ path. path ≡ after block.now []) }
    {
        Ok(Path {
            root: block.copy(alloc)?,
            legs: Vec::new(alloc),
        })
    }

    /// Goes to a side of a split, and to the end of the block behind it. An `Err`, want of memory, leaves the path as it was.
    pub fn enter(&mut self, side: Side, block: &Block) -> Result<(), AllocError>
        ensures ok { OnOk result (self.new ≡ after block.now (event_of side ∷ self.old)) }
        ensures err { OnErr result (self.new ≡ self.old) }
    {
        let alloc = *self.legs.allocator();
        let block = block.copy(alloc)?;
        self.legs.push(Leg { side, block })?;
        Ok(())
    }

    /// Whether there is no event. It takes no memory.
    pub fn is_empty(&self) -> bool
        ensures { IsTrue result ↔ (self.now ≡ []) }
    {
        self.legs.is_empty() && self.root.is_empty()
    }

    /// How many events there are, or `None` where they are 2^64 or more. It takes no memory.
    pub fn len(&self) -> Option<usize>
        ensures { MatchOption result (2 ^ 64 ≤ length self.now) (λ len. len ≡ length self.now) }
    {
        let mut len: usize = 0;
        for _event in self.events() {
            len = len.checked_add(1)?;
        }
        Some(len)
    }

    /// The events from the root on, the oldest first. It takes no memory.
    pub fn events(&self) -> Events<'_>
        ensures { self.now ≡ reverse result }
    {
        Events::of(&self.root, &self.legs)
    }

    /// The way from the end up to the root. It takes no memory.
    pub fn way_up(&self) -> Ascent<'_>
        ensures { result ≡ self.now }
    {
        Ascent::of(&self.root, &self.legs)
    }

    /// The same path, or want of memory.
    pub fn copy(&self, alloc: Global) -> Result<Path, AllocError>
        ensures { IfOk result (λ path. path ≡ self.now) }
    {
        let root = self.root.copy(alloc)?;
        let mut legs = Vec::new(alloc);
        for leg in &self.legs {
            legs.push(Leg {
                side: leg.side,
                block: leg.block.copy(alloc)?,
            })?;
        }
        Ok(Path { root, legs })
    }
}
