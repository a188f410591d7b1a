//! Existential directional arc consistency for a caller: what is due is looked at until nothing is (`reviser.rt`).

ghost use Rattle.std.specs.Prelude.{◌≡◌, ◌<◌, ◌≤◌, ◌+◌, length, IfOk, IfSome};
ghost use Rattle.cfn_rows.specs.Sets.{live_count};
ghost use Rattle.cfn_store.specs.Rooms.{sets_of};
ghost use Rattle.cfn_store.specs.Standing.{history};
ghost use Rattle.cfn_edac.specs.Asking.{IsCheapest};
ghost use Rattle.cfn_gain.specs.Calls.{Adds};
ghost use Rattle.cfn_edac.specs.Settling.{Answers, HasGained, IsBehindSettled};

use crate::reviser::Reviser;
use cfn_gain::{Halt, Limits, Settling};
use cfn_incidence::Incidence;
use cfn_model::Event;
use cfn_net::Network;
use cfn_store::Store;
use std::alloc::{AllocError, Global};
use std::marker::Model;

/// Enforces existential directional arc consistency on stores of a network. Contracts see the network.
#[derive(Drop)]
pub struct Enforcer<'n> {
    reviser: Reviser<'n>,
}

impl<'n> Model for Enforcer<'n> {
    ghost use Rattle.cfn_model.specs.Network.{Network};

    ghost Value = { Network };

    ghost view = { λ s. s.reviser.network };
}

impl<'n> Enforcer<'n> {
    /// For stores of this network. An `Err` is want of memory; no other call takes any.
    pub fn make(alloc: Global, network: &'n Network) -> Result<Enforcer<'n>, AllocError>
        ensures { IfOk result (λ enforcer. enforcer ≡ network.now) }
    {
        Ok(Enforcer {
            reviser: Reviser::make(alloc, network)?,
        })
    }

    /// Of the live values of a variable that has some, the one that asks least: its unary cost, and what it finds in the first
    /// functions to other open variables, is least; of those that ask as little the least. No memory is taken.
    pub fn cheapest(&mut self, store: &Store<'_>, incidence: &Incidence, x: u32) -> u32
        requires network { store.now.network ≡ self.old }
        requires incidence { incidence.now ≡ self.old }
        requires variable { x < length self.old.sizes }
        requires some { 1 ≤ live_count (sets_of store.now) x }
        ensures cheapest { IsCheapest store.now.network (history store.now) x result }
        ensures same { self.new ≡ self.old }
    {
        self.reviser.cheapest(store, incidence, x)
    }

    /// Makes a store fully consistent at the threshold, while its block has fewer steps than it may have. `since` is the
    /// event behind which the store stands of a place where it was fully consistent at some threshold: then only what that
    /// event may have ended is looked at, and what the steps that are made end. With `None` all is looked at. The steps fall
    /// into groups, each of which gains something (Cooper et al. 2010); only where a step was due and the block was as long as
    /// it may be is the answer `Spent`, and the last group unfinished.
    pub fn settle(
        &mut self,
        store: &mut Store<'_>,
        incidence: &Incidence,
        limits: Limits,
        since: Option<Event>,
    ) -> Settling
        requires network { store.old.network ≡ self.old }
        requires incidence { incidence.now ≡ self.old }
        requires threshold { limits.threshold ≤ self.old.upper }
        requires room { limits.steps ≤ length store.old.block + store.old.spare }
        requires since { IfSome since (IsBehindSettled store.old) }
        ensures adds { Adds store.old store.new limits }
        ensures answer { Answers store.new limits result }
        ensures gains { HasGained store.old store.new limits result }
        ensures same { self.new ≡ self.old }
    {
        if store.floor() >= u128::from(limits.threshold) {
            return Settling::Dead;
        }
        self.reviser.begin(store, incidence, since);
        match self.reviser.revise_all(store, incidence, limits) {
            Ok(()) => Settling::Settled,
            Err(Halt::Dead) => Settling::Dead,
            Err(Halt::Spent) => Settling::Spent,
        }
    }
}
