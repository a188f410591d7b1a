//! A place on a store's path, to come back to.

ghost use Rattle.std.specs.Prelude.{◌≡◌};
ghost use Rattle.cfn_store.specs.Marking.{IsMark};

use crate::store::Store;
use std::marker::Model;
use std::snapshot::Snapshot;

/// Where a store stood. Contracts see what it stood for. It takes no memory.
#[derive(Drop)]
pub struct Mark<'n> {
    pub(crate) events: usize,
    pub(crate) base: usize,
    at: Snapshot<Store<'n>>,
}

impl<'n> Model for Mark<'n> {
    ghost use Rattle.cfn_store.specs.Standing.{Standing};
    ghost use Rattle.cfn_store.specs.Marking.{IsMark};

    ghost Value = { Standing };

    ghost view = { λ m. m.at.value };

    ghost invariant = { λ m. IsMark m.events m.base m.at.value };
}

impl<'n> Mark<'n> {
    /// Where a store stands, behind so many events, of which so many stand before its block.
    pub(crate) fn of(store: &Store<'n>, events: usize, base: usize) -> Mark<'n>
        requires { IsMark events base store.now }
        ensures { result ≡ store.now }
    {
        Mark {
            events,
            base,
            at: Snapshot::of(store),
        }
    }

    /// How many events stand before the mark, and how many before its block; and its steps have a spelling.
    pub(crate) fn places(&self) -> (usize, usize)
        ensures { IsMark result.0 result.1 self.now }
    {
        (self.events, self.base)
    }
}
