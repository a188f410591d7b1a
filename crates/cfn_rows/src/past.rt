//! The list of events that contracts read. It has no bytes, and costs nothing at run time.

ghost use Rattle.std.specs.Prelude.{List};
ghost use Rattle.cfn_model.specs.declared.step.Event.{Event};

use cfn_model::Event;
use std::marker::{Model, PhantomData};

/// A change of the list: an event more, or the newest one less.
#[derive(Clone, Copy)]
enum Change {
    Add(Event),
    Back,
}

/// The events so far, the newest first.
#[derive(Drop)]
pub(crate) struct Past {
    marker: PhantomData<u8>,
    pub ghost events: { List Event },
}

impl Model for Past {
    ghost use Rattle.std.specs.Borrow.{ftrue};

    ghost also_owns = { λ _. ftrue };
}

impl Past {
    ghost use Rattle.std.specs.Prelude.{◌≡◌, [], ◌∷◌, drop};
    ghost use Rattle.cfn_rows.specs.Past.{changed};

    /// No event yet.
    pub(crate) fn new() -> Past
        ensures { result.events ≡ [] }
    {
        Past {
            marker: PhantomData,
        }
    }

    /// Adds an event.
    pub(crate) fn add(&mut self, event: Event)
        ensures { self.new.events ≡ event ∷ self.old.events }
    {
        self.change(&Change::Add(event));
    }

    /// Goes back over the newest event, where there is one.
    pub(crate) fn back(&mut self)
        ensures { self.new.events ≡ drop 1 self.old.events }
    {
        self.change(&Change::Back);
    }

    fn change(&mut self, _change: &Change)
        ensures { self.new.events ≡ changed _change.now self.old.events }
    {}
}
