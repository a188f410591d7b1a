//! The way up a path, leg by leg.

ghost use Rattle.std.specs.Prelude.{◌≡◌, ◌↔◌, List, [], ◌∷◌, IsTrue, MatchOption};
ghost use Rattle.cfn_model.specs.declared.step.Event.{Event};
ghost use Rattle.cfn_model.specs.Steps.{after};
ghost use Rattle.cfn_proof.specs.Legs.{event_of, path_of};

use crate::block::Block;
use crate::path::{Leg, Side};
use std::marker::Model;

/// A path up to where a way up from its end has come. Contracts see the list of its events, the newest first.
#[derive(Drop)]
pub struct Ascent<'a> {
    root: &'a Block,
    legs: &'a [Leg],
}

impl<'a> Model for Ascent<'a> {
    ghost use Rattle.std.specs.Prelude.{List};
    ghost use Rattle.cfn_model.specs.declared.step.Event.{Event};
    ghost use Rattle.cfn_proof.specs.Legs.{path_of};

    ghost Value = { List Event };

    ghost view = { λ a. path_of a.root.now a.legs.now };
}

impl<'a> Ascent<'a> {
    /// All of the path of the root's block and legs.
    pub(crate) fn of(root: &'a Block, legs: &'a [Leg]) -> Ascent<'a>
        ensures { result ≡ path_of root.now legs.now }
    {
        Ascent { root, legs }
    }

    /// What is above a side of a split and the block behind it, where the events end with those. It takes no memory.
    pub fn above(self, side: Side, block: &Block) -> Option<Ascent<'a>>
        ensures { MatchOption result
            ((above : List Event) → self.entry ≡ after block.now (event_of side ∷ above) → ⊥)
            (λ above. self.entry ≡ after block.now (event_of side ∷ above)) }
    {
        let (leg, legs) = self.legs.split_last()?;
        if leg.is_of(side, block) {
            Some(Ascent {
                root: self.root,
                legs,
            })
        } else {
            None
        }
    }

    /// Whether the events are those of a block of the root. It takes no memory.
    pub fn is_block(self, block: &Block) -> bool
        ensures { IsTrue result ↔ (self.entry ≡ after block.now []) }
    {
        self.legs.is_empty() && self.root.is_same(block)
    }
}
