//! The events of a path, one by one.

ghost use Rattle.std.specs.Prelude.{◌≡◌, ◌++◌};
ghost use Rattle.std.specs.Iterator.{YieldsFirst, item_count};
ghost use Rattle.cfn_proof.specs.Legs.{did, events_of};

use crate::block::{Block, Steps};
use crate::path::Leg;
use cfn_model::Event;
use std::marker::Model;

/// The events of a path that are still to be read, the oldest first. Contracts see the list of them.
#[derive(Drop)]
pub struct Events<'a> {
    /// The steps that are left of a block.
    steps: Steps<'a>,
    /// The legs behind that block.
    legs: &'a [Leg],
}

impl<'a> Model for Events<'a> {
    ghost use Rattle.std.specs.Prelude.{List, ◌++◌};
    ghost use Rattle.cfn_model.specs.declared.step.Event.{Event};
    ghost use Rattle.cfn_proof.specs.Legs.{did, events_of};

    ghost Value = { List Event };

    ghost view = { λ e. did e.steps ++ events_of e.legs.now };
}

impl<'a> Events<'a> {
    /// The events of the root's block and of the legs behind it.
    pub(crate) fn of(root: &'a Block, legs: &'a [Leg]) -> Events<'a>
        ensures { result ≡ did root.now ++ events_of legs.now }
    {
        Events {
            steps: root.cursor(),
            legs,
        }
    }
}

impl<'a> Iterator for Events<'a> {
    type Item = Event;

    ghost next_gives = { YieldsFirst (λ left. left) };

    ghost remaining = { item_count (λ left. left) };

    fn next(&mut self) -> Option<Event> {
        if let Some(step) = self.steps.next() {
            return Some(Event::Did(step));
        }
        let (leg, behind) = self.legs.split_first()?;
        self.legs = behind;
        self.steps = leg.block.cursor();
        Some(leg.side.event())
    }
}
