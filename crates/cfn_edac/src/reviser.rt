//! What is due is looked at, the longest waiting first: a function for arc consistency, else a variable for existential arc
//! consistency, else a function for directional arc consistency. Where that made no step it is consistent, and waits no
//! longer; where it made steps these are noted, and it is looked at again. Where nothing waits all variables are looked at for
//! node consistency.
//!
//! Invariant: what does not wait is consistent in the store as it stands, and what is known of resting values and of supports is so there.

ghost use Rattle.std.specs.Prelude.{◌≡◌, ◌<◌, ◌≤◌, length, take, IfOk, IfSome, IsOkAnd, OnOk};
ghost use Rattle.cfn_model.specs.declared.limits.TheConstants.{MOST_VALUES};
ghost use Rattle.cfn_queue.specs.Waiting.{IsFirst};
ghost use Rattle.cfn_consistency.specs.Consistency.{IsNodeConsistent, AreFullyConsistent};
ghost use Rattle.cfn_rows.specs.Sets.{live_count};
ghost use Rattle.cfn_store.specs.Rooms.{sets_of};
ghost use Rattle.cfn_store.specs.Standing.{history};
ghost use Rattle.cfn_edac.specs.Asking.{IsCheapest};
ghost use Rattle.cfn_model.specs.Steps.{after};
ghost use Rattle.cfn_due.specs.Dues.{Holds};
ghost use Rattle.cfn_due.specs.Nexts.{IsNext};
ghost use Rattle.cfn_gain.specs.Calls.{GoesOn, Does, Shows};
ghost use Rattle.cfn_gain.specs.Gains.{Gains};
ghost use Rattle.cfn_due.specs.Resting.{AreSure};
ghost use Rattle.cfn_due.specs.Siding.{AreSupported};
ghost use Rattle.cfn_edac.specs.Revising.{HoldsIn, IsSureIn, IsKnownIn, IsRevised, IsRunOut};
ghost use Rattle.cfn_edac.specs.Settling.{IsBehindSettled};

use crate::looks::{arc, levels};
use crate::{Neighbours, cheapest, existential};
use cfn_dac::directional;
use cfn_due::{Due, Next, Rests, Sides};
use cfn_gain::{Halt, Limits};
use cfn_incidence::Incidence;
use cfn_model::{Event, MOST_VALUES};
use cfn_net::Network;
use cfn_store::Store;
use std::alloc::{AllocError, Global};
use std::marker::Model;

/// What is due in stores of a network, and the room that it takes to look at it. Contracts see the network, what is due and
/// what is sure.
#[derive(Drop)]
pub(crate) struct Reviser<'n> {
    network: &'n Network,
    due: Due,
    /// Room for an amount for each value of a variable.
    moves: Vec<u64>,
    /// Room for the neighbours of a variable.
    neighbours: Neighbours<'n>,
    /// The values that may rest, and where they are known to.
    rests: Rests,
    /// At which places of functions values may lack supports.
    sides: Sides,
}

impl<'n> Model for Reviser<'n> {
    ghost use Rattle.std.specs.Prelude.{◌≡◌, length};
    ghost use Rattle.cfn_model.specs.declared.limits.TheConstants.{MOST_VALUES as most_values};
    ghost use Rattle.cfn_due.specs.Dues.{HasSizes};
    ghost use Rattle.cfn_edac.specs.Revising.{Revising};

    ghost Value = { Revising };

    ghost view = { λ s. record { network = s.network.now; due = s.due; rests = s.rests; sides = s.sides } };

    ghost invariant = { λ s. (s.neighbours.network ≡ s.network.now) × (length s.moves.items ≡ most_values) × HasSizes s.network.now s.due × (s.sides.size ≡ length s.network.now.functions) };
}

impl<'n> Reviser<'n> {
    /// For stores of this network. An `Err` is want of memory; no other call takes any.
    pub fn make(alloc: Global, network: &'n Network) -> Result<Reviser<'n>, AllocError>
        ensures { IfOk result (λ reviser. reviser.network ≡ network.now) }
    {
        let made = both(Due::make(alloc, network)?, room_for_moves(alloc))?;
        let made = both(made, Neighbours::make(alloc, network))?;
        let made = both(made, Rests::make(alloc, network))?;
        let ((((due, moves), neighbours), rests), sides) = both(made, Sides::make(alloc, network))?;
        Ok(Reviser {
            network,
            due,
            moves,
            neighbours,
            rests,
            sides,
        })
    }

    /// Of the live values of a variable that has some, the one that asks least of its neighbours, and of those the least.
    pub fn cheapest(&mut self, store: &Store<'_>, incidence: &Incidence, x: u32) -> u32
        requires network { store.now.network ≡ self.old.network }
        requires incidence { incidence.now ≡ self.old.network }
        requires variable { x < length self.old.network.sizes }
        requires some { 1 ≤ live_count (sets_of store.now) x }
        ensures cheapest { IsCheapest store.now.network (history store.now) x result }
        ensures same { self.new ≡ self.old }
    {
        cheapest(&mut self.neighbours, store, incidence, x)
    }

    /// What is due in a store that stands one event behind a place where it was fully consistent; with no such event, all.
    pub fn begin(&mut self, store: &Store<'_>, incidence: &Incidence, since: Option<Event>)
        requires network { store.now.network ≡ self.old.network }
        requires incidence { incidence.now ≡ self.old.network }
        requires since { IfSome since (IsBehindSettled store.now) }
        ensures network { self.new.network ≡ self.old.network }
        ensures holds { HoldsIn store.now self.new.due }
        ensures sure { IsSureIn store.now self.new.rests }
        ensures known { IsKnownIn store.now self.new.sides }
    {
        store.law_exact();
        self.rests.forget();
        match since {
            Some(event) => {
                self.due.clear();
                self.due.note(self.network, incidence, &event);
                self.sides.begin_behind(incidence, &event);
            }
            None => {
                self.due.put_all(self.network);
                self.sides.doubt_all();
            }
        }
    }

    /// Looks at what is due until nothing is and all variables are level.
    pub fn revise_all(
        &mut self,
        store: &mut Store<'_>,
        incidence: &Incidence,
        limits: Limits,
    ) -> Result<(), Halt>
        requires network { store.old.network ≡ self.old.network }
        requires incidence { incidence.now ≡ self.old.network }
        requires goes { GoesOn store.old limits }
        requires holds { HoldsIn store.old self.old.due }
        requires sure { IsSureIn store.old self.old.rests }
        requires known { IsKnownIn store.old self.old.sides }
        ensures does { Does store.old store.new limits result }
        ensures gains { Gains store.old store.new limits result }
        ensures sure { OnOk result (IsSureIn store.new self.new.rests) }
        ensures known { OnOk result (IsKnownIn store.new self.new.sides) }
        ensures settled { OnOk result (AreFullyConsistent store.new.network (history store.new) limits.threshold) }
        ensures network { self.new.network ≡ self.old.network }
    {
        loop {
            let before = store.block_len();
            self.revise_until_step(store, incidence, limits)?;
            if store.block_len() == before {
                self.level_all(store, incidence, limits)?;
                if store.block_len() == before {
                    return Ok(());
                }
            }
        }
    }

    /// Looks at what is due until that makes a step, or nothing is.
    fn revise_until_step(
        &mut self,
        store: &mut Store<'_>,
        incidence: &Incidence,
        limits: Limits,
    ) -> Result<(), Halt>
        requires network { store.old.network ≡ self.old.network }
        requires incidence { incidence.now ≡ self.old.network }
        requires goes { GoesOn store.old limits }
        requires holds { HoldsIn store.old self.old.due }
        requires sure { IsSureIn store.old self.old.rests }
        requires known { IsKnownIn store.old self.old.sides }
        ensures does { Does store.old store.new limits result }
        ensures gains { Gains store.old store.new limits result }
        ensures run { OnOk result (IsRunOut store.old store.new self.new.due) }
        ensures sure { OnOk result (IsSureIn store.new self.new.rests) }
        ensures known { OnOk result (IsKnownIn store.new self.new.sides) }
        ensures network { self.new.network ≡ self.old.network }
    {
        let before = store.block_len();
        while let Some(next) = self.due.next() {
            self.revise_next(store, incidence, limits, next)?;
            if store.block_len() > before {
                return Ok(());
            }
        }
        Ok(())
    }

    /// Looks at what is due next.
    fn revise_next(
        &mut self,
        store: &mut Store<'_>,
        incidence: &Incidence,
        limits: Limits,
        next: Next,
    ) -> Result<(), Halt>
        requires network { store.old.network ≡ self.old.network }
        requires incidence { incidence.now ≡ self.old.network }
        requires goes { GoesOn store.old limits }
        requires holds { HoldsIn store.old self.old.due }
        requires sure { IsSureIn store.old self.old.rests }
        requires known { IsKnownIn store.old self.old.sides }
        requires next { IsNext self.old.due next }
        ensures does { Does store.old store.new limits result }
        ensures gains { Gains store.old store.new limits result }
        ensures revised { OnOk result (IsRevised store.old store.new self.old.due self.new.due) }
        ensures sure { OnOk result (IsSureIn store.new self.new.rests) }
        ensures known { OnOk result (IsKnownIn store.new self.new.sides) }
        ensures network { self.new.network ≡ self.old.network }
    {
        match next {
            Next::Arc(f) => self.revise_arc(store, incidence, limits, f),
            Next::Existing(x) => self.revise_existing(store, incidence, limits, x),
            Next::Directed(f) => self.revise_directed(store, incidence, limits, f),
        }
    }

    /// Looks at the function that has waited longest for arc consistency.
    fn revise_arc(
        &mut self,
        store: &mut Store<'_>,
        incidence: &Incidence,
        limits: Limits,
        f: u32,
    ) -> Result<(), Halt>
        requires network { store.old.network ≡ self.old.network }
        requires incidence { incidence.now ≡ self.old.network }
        requires goes { GoesOn store.old limits }
        requires holds { HoldsIn store.old self.old.due }
        requires sure { IsSureIn store.old self.old.rests }
        requires known { IsKnownIn store.old self.old.sides }
        requires function { f < self.old.due.arcs.size }
        requires first { IsFirst self.old.due.arcs.items f }
        ensures does { Does store.old store.new limits result }
        ensures gains { Gains store.old store.new limits result }
        ensures revised { OnOk result (IsRevised store.old store.new self.old.due self.new.due) }
        ensures sure { OnOk result (IsSureIn store.new self.new.rests) }
        ensures known { OnOk result (IsKnownIn store.new self.new.sides) }
        ensures network { self.new.network ≡ self.old.network }
    {
        let before = store.block_len();
        arc(store, limits, f, &self.sides)?;
        if store.block_len() > before {
            self.note_steps(incidence, store, before);
        } else {
            self.due.done_arc();
            self.sides.trust(f);
        }
        Ok(())
    }

    /// Looks at the variable that has waited longest.
    fn revise_existing(
        &mut self,
        store: &mut Store<'_>,
        incidence: &Incidence,
        limits: Limits,
        x: u32,
    ) -> Result<(), Halt>
        requires network { store.old.network ≡ self.old.network }
        requires incidence { incidence.now ≡ self.old.network }
        requires goes { GoesOn store.old limits }
        requires holds { HoldsIn store.old self.old.due }
        requires sure { IsSureIn store.old self.old.rests }
        requires known { IsKnownIn store.old self.old.sides }
        requires variable { x < self.old.due.existing.size }
        requires first { IsFirst self.old.due.existing.items x }
        ensures does { Does store.old store.new limits result }
        ensures gains { Gains store.old store.new limits result }
        ensures revised { OnOk result (IsRevised store.old store.new self.old.due self.new.due) }
        ensures sure { OnOk result (IsSureIn store.new self.new.rests) }
        ensures known { OnOk result (IsKnownIn store.new self.new.sides) }
        ensures network { self.new.network ≡ self.old.network }
    {
        self.network.law_limits();
        let before = store.block_len();
        existential(
            &mut self.neighbours,
            &mut self.rests,
            &self.due,
            store,
            incidence,
            limits,
            x,
            &mut self.moves,
        )?;
        if store.block_len() > before {
            self.note_steps(incidence, store, before);
        } else {
            self.due.done_existing();
        }
        Ok(())
    }

    /// Looks at the function that has waited longest for directional arc consistency.
    fn revise_directed(
        &mut self,
        store: &mut Store<'_>,
        incidence: &Incidence,
        limits: Limits,
        f: u32,
    ) -> Result<(), Halt>
        requires network { store.old.network ≡ self.old.network }
        requires incidence { incidence.now ≡ self.old.network }
        requires goes { GoesOn store.old limits }
        requires holds { HoldsIn store.old self.old.due }
        requires sure { IsSureIn store.old self.old.rests }
        requires known { IsKnownIn store.old self.old.sides }
        requires function { f < self.old.due.directed.size }
        requires first { IsFirst self.old.due.directed.items f }
        ensures does { Does store.old store.new limits result }
        ensures gains { Gains store.old store.new limits result }
        ensures revised { OnOk result (IsRevised store.old store.new self.old.due self.new.due) }
        ensures sure { OnOk result (IsSureIn store.new self.new.rests) }
        ensures known { OnOk result (IsKnownIn store.new self.new.sides) }
        ensures network { self.new.network ≡ self.old.network }
    {
        self.network.law_limits();
        let before = store.block_len();
        directional(store, limits, f, &mut self.moves)?;
        if store.block_len() > before {
            self.note_steps(incidence, store, before);
        } else {
            self.due.done_directed();
        }
        Ok(())
    }

    /// Looks at each variable for node consistency.
    fn level_all(
        &mut self,
        store: &mut Store<'_>,
        incidence: &Incidence,
        limits: Limits,
    ) -> Result<(), Halt>
        requires network { store.old.network ≡ self.old.network }
        requires incidence { incidence.now ≡ self.old.network }
        requires goes { GoesOn store.old limits }
        requires holds { HoldsIn store.old self.old.due }
        requires sure { IsSureIn store.old self.old.rests }
        requires known { IsKnownIn store.old self.old.sides }
        ensures does { Does store.old store.new limits result }
        ensures gains { Gains store.old store.new limits result }
        ensures holds { OnOk result (HoldsIn store.new self.new.due) }
        ensures sure { OnOk result (IsSureIn store.new self.new.rests) }
        ensures known { OnOk result (IsKnownIn store.new self.new.sides) }
        ensures nodes { Shows store.old store.new result (IsNodeConsistent store.old.network (history store.old) limits.threshold) }
        ensures still { Shows store.old store.new result (self.new.due ≡ self.old.due) }
        ensures network { self.new.network ≡ self.old.network }
    {
        let before = store.block_len();
        levels(store, limits)?;
        if store.block_len() > before {
            self.note_steps(incidence, store, before);
        }
        Ok(())
    }

    /// Puts what the steps of a store's block from a number on may have ended.
    fn note_steps(&mut self, incidence: &Incidence, store: &Store<'_>, start: usize)
        requires network { store.now.network ≡ self.old.network }
        requires incidence { incidence.now ≡ self.old.network }
        requires start { start ≤ length store.now.block }
        ensures due { Holds store.now.network (after (take start store.now.block) store.now.base) self.old.due → HoldsIn store.now self.new.due }
        ensures sure { AreSure store.now.network (after (take start store.now.block) store.now.base) self.old.rests → IsSureIn store.now self.new.rests }
        ensures known { AreSupported store.now.network (after (take start store.now.block) store.now.base) self.old.sides → IsKnownIn store.now self.new.sides }
        ensures network { self.new.network ≡ self.old.network }
    {
        self.due.note_steps(incidence, store, start);
        self.rests.note_steps(incidence, store, start);
        self.sides.note_steps(incidence, store, start);
    }
}

/// Room for an amount for each value of a variable. An `Err` is want of memory.
fn room_for_moves(alloc: Global) -> Result<Vec<u64>, AllocError>
    ensures { IfOk result (λ moves. length moves.items ≡ MOST_VALUES) }
{
    Ok(vec![in alloc; 0; MOST_VALUES as usize]?)
}

/// Two values, where the second was made too, so that no exit of a maker has more than one thing to let go. An `Err` is want of
/// memory.
fn both<A: Drop, B: Drop>(one: A, other: Result<B, AllocError>) -> Result<(A, B), AllocError>
    ensures one { IfOk result (λ made. made.0 ≡ one) }
    ensures other { IfOk result (λ made. IsOkAnd other (λ given. made.1 ≡ given)) }
{
    Ok((one, other?))
}
