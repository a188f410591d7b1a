//! Where a walk over a tree stands: the store, and the events that lead there.

ghost use Rattle.std.specs.Prelude.{◌≡◌, ◌<◌, [], ◌∷◌, IfOk, OnOk};
ghost use Rattle.cfn_model.specs.declared.step.Event.TheVariants.{Took, Refused};
ghost use Rattle.cfn_model.specs.Steps.{IsDecision};
ghost use Rattle.cfn_model.specs.Paths.{TameBlock};
ghost use Rattle.cfn_model.specs.Text.{IsSpelledStep};
ghost use Rattle.cfn_proof.specs.Legs.{event_of};
ghost use Rattle.cfn_store.specs.Marking.{IsBehind};
ghost use Rattle.cfn_store.specs.Standing.{history, with_step};
ghost use Rattle.cfn_rebase.specs.Making.{CanMake, IsTried, decision_of};

use crate::testing::may_make;
use cfn_model::{Event, Step};
use cfn_net::{Network, Tables};
use cfn_proof::Side;
use cfn_store::{Mark, Store};
use std::alloc::{AllocError, Global};
use std::marker::Model;

/// A store of a network, and the events from the root to where it stands, the oldest first. Contracts see what the store
/// stands for.
#[derive(Drop)]
pub(crate) struct Ground<'n> {
    network: &'n Network,
    store: Store<'n>,
    events: Vec<Event>,
}

impl<'n> Model for Ground<'n> {
    ghost use Rattle.std.specs.Prelude.{◌≡◌, reverse};
    ghost use Rattle.cfn_store.specs.Standing.{Standing, history};

    ghost Value = { Standing };

    ghost view = { λ g. g.store };

    ghost invariant = { λ g. (g.network.now ≡ g.store.network) × (reverse g.events.items ≡ history g.store) };
}

/// A place on the way to where a walk stands.
#[derive(Drop)]
pub(crate) struct Spot<'n> {
    mark: Mark<'n>,
    /// How many events stand before it.
    events: usize,
}

impl<'n> Model for Spot<'n> {
    ghost use Rattle.std.specs.Prelude.{◌≡◌, length};
    ghost use Rattle.cfn_store.specs.Standing.{Standing, history};

    ghost Value = { Standing };

    ghost view = { λ s. s.mark };

    ghost invariant = { λ s. s.events ≡ length (history s.mark) };
}

impl<'n> Ground<'n> {
    /// The root of a network's trees. An `Err` is want of memory.
    pub(crate) fn make(
        alloc: Global,
        network: &'n Network,
        tables: &'n Tables,
    ) -> Result<Ground<'n>, AllocError>
        requires { tables.now ≡ network.now }
        ensures network { IfOk result (λ made. made.network ≡ network.now) }
        ensures base { IfOk result (λ made. made.base ≡ []) }
        ensures block { IfOk result (λ made. made.block ≡ []) }
    {
        Ok(Ground {
            network,
            store: Store::over(alloc, network, tables)?,
            events: Vec::new(alloc),
        })
    }

    /// Makes a step where it is allowed at the threshold and leaves costs below 2^64; whether it does. Where it does not, all
    /// stays as it was. An `Err` is want of memory.
    pub(crate) fn step(&mut self, threshold: u64, step: Step) -> Result<bool, AllocError>
        requires spelled { IsSpelledStep step }
        ensures { IfOk result (IsTried self.old threshold step self.new) }
    {
        if !may_make(self.network, &self.store, &self.events, threshold, step) {
            return Ok(false);
        }
        self.events.reserve(1)?;
        self.store.reserve(1)?;
        go(&mut self.store, threshold, step);
        self.store.law_exact();
        self.events.push_reserved(Event::Did(step));
        Ok(true)
    }

    /// Goes to a side of a split. An `Err` is want of memory.
    pub(crate) fn enter(&mut self, side: Side) -> Result<(), AllocError>
        requires { IsDecision self.old.network (decision_of side) }
        ensures network { OnOk result (self.new.network ≡ self.old.network) }
        ensures base { OnOk result (self.new.base ≡ event_of side ∷ history self.old) }
        ensures block { OnOk result (self.new.block ≡ []) }
    {
        self.events.reserve(1)?;
        self.store.reserve(1)?;
        match side {
            Side::Holds(decision) => self.store.take(decision),
            Side::Fails(decision) => self.store.refuse(decision),
        }
        self.events.push_reserved(side.event());
        Ok(())
    }

    /// Where the walk stands.
    pub(crate) fn spot(&self) -> Spot<'n>
        ensures { result ≡ self.now }
    {
        Spot {
            mark: self.store.mark(),
            events: self.events.len(),
        }
    }

    /// Goes back to a place on the way.
    pub(crate) fn back(&mut self, spot: &Spot<'n>)
        requires { IsBehind spot.now self.old }
        ensures network { self.new.network ≡ self.old.network }
        ensures base { self.new.base ≡ spot.now.base }
        ensures block { self.new.block ≡ spot.now.block }
    {
        self.store.undo(&spot.mark);
        self.events.truncate(spot.events);
    }

    /// Costs stay small along the block. It costs nothing.
    pub(crate) fn law_stays_tame(&self)
        ensures { TameBlock self.now.network self.now.base self.now.block }
    {
        self.store.law_exact();
    }

    /// The store.
    pub(crate) fn store(&self) -> &Store<'n>
        ensures { result.now ≡ self.now }
    {
        &self.store
    }

    /// The network.
    pub(crate) fn network(&self) -> &'n Network
        ensures { result.now ≡ self.now.network }
    {
        self.network
    }
}

/// Makes a step that can be made.
fn go(store: &mut Store<'_>, threshold: u64, step: Step)
    requires can { CanMake store.old threshold step }
    requires room { 0 < store.old.spare }
    ensures { store.new ≡ with_step store.old step }
{
    let _ = threshold;
    match step {
        Step::Project {
            function,
            place,
            value,
            amount,
        } => store.project(function, place, value, amount),
        Step::Extend {
            function,
            place,
            value,
            amount,
        } => store.extend(function, place, value, amount),
        Step::Lift { variable, amount } => store.lift(variable, amount),
        Step::CutValue { variable, value } => store.cut_value(variable, value),
        Step::CutTuple { function, cell } => store.cut_tuple(function, cell),
    }
}
