//! What a worker has of the word, and a note of what one has seen.

ghost use Rattle.std.specs.Prelude.{◌≡◌, ◌==◌};
ghost use Rattle.cfn_low.specs.Holding.{Holding, IsHolding, sight_of};
ghost use Rattle.cfn_low.specs.Steps.{bare};

use crate::rule::Incumbent;
use atomic_table::Seat;
use cfn_machine::Sight;
use cfn_net::Scored;
use std::marker::{Model, PhantomData};

/// A worker's part of the word: the best assignment that it keeps, the threshold that it has seen, and its shares.
#[derive(Drop)]
pub struct Holder<M: Incumbent> {
    pub(crate) seat: Seat<(), Sight>,
    pub(crate) best: Scored,
    pub(crate) seen: u64,
    pub(crate) shares: u32,
    pub(crate) word: PhantomData<M>,
}

impl<M: Incumbent> Model for Holder<M> {
    ghost Value = { Holding };

    ghost view = { λ s. record { held = s.best.held; seen = s.seen; shares = s.shares } };

    ghost invariant = { λ s. (s.seat.table_id ≡ M.table) × (s.best.network ≡ M.network)
        × (s.seat.me ≡ bare (sight_of M.network (record { held = s.best.held; seen = s.seen; shares = s.shares })))
        × IsHolding M.network (record { held = s.best.held; seen = s.seen; shares = s.shares }) };
}

/// A note of the threshold that a worker has seen.
#[derive(Drop)]
pub struct Note<M: Incumbent> {
    pub(crate) seat: Seat<(), Sight>,
    pub(crate) seen: u64,
    pub(crate) word: PhantomData<M>,
}

impl<M: Incumbent> Model for Note<M> {
    ghost use Rattle.std.specs.Prelude.{◌≡◌, ℕ, ◌≤◌};
    ghost use Rattle.cfn_low.specs.Steps.{IsReached, bare, sight};

    ghost Value = { ℕ };

    ghost view = { λ s. s.seen };

    ghost invariant = { λ s. (s.seat.table_id ≡ M.table) × (s.seat.me ≡ bare (sight M.network.upper s.seen 0)) × (s.seen ≤ M.network.upper) × IsReached M.network s.seen };
}

impl<M: Incumbent> Holder<M> {
    /// The threshold that was seen last.
    pub fn seen(&self) -> u64
        ensures { result ≡ self.now.seen }
    {
        self.seen
    }

    /// The best assignment that is kept.
    pub fn best(&self) -> &Scored
        ensures { result.now ≡ record { network = M.network; held = self.now.held } }
    {
        &self.best
    }

    /// Nothing: its contract tells a caller what a part keeps.
    pub fn law_kept(&self)
        ensures { IsHolding M.network self.now }
    {
        let _ = &self.seen;
    }

    /// Whether it has all 128 shares of the word.
    pub fn whole(&self) -> bool
        ensures { result ≡ (self.now.shares == 128) }
    {
        self.shares == 128
    }
}
