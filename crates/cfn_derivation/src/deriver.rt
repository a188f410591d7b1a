//! Derivations, and what is known of a store before them.
//!
//! First the variables that may have a costly value are looked at, then the functions that may not be arc consistent. Each deletion
//! makes its variable wait, and the functions on a variable that waits are looked at again (AC-3, Mackworth 1977), until a
//! variable is emptied or none waits. A function that is arc consistent deletes nothing before a variable of it loses a value,
//! so a derivation costs no pass over all functions.
//!
//! Invariant: a place of a function that was looked at has nothing to delete, unless a variable of the function waits; where this has
//! two variables, the other one.

ghost use Rattle.std.specs.Prelude.{◌≡◌, ℕ, ◌+◌, ◌<◌, ◌≤◌, true, false, List, [], ◌∷◌, ◌++◌, length, take, None, IfOk, IsTrue, IsFalse, MatchOption};
ghost use Rattle.cfn_queue.specs.Waiting.{is_in, AreBelow};
ghost use Rattle.cfn_consistency.specs.Virtual.{IsClosedFamily};
ghost use Rattle.cfn_consistency.specs.Consistency.{AreArcConsistent};
ghost use Rattle.cfn_model.specs.Steps.{after};
ghost use Rattle.cfn_store.specs.Standing.{history};
ghost use Rattle.cfn_derivation.specs.declared.deriver.Derived.TheVariants.{Closed, Emptied};
ghost use Rattle.cfn_derivation.specs.Derived.{value_count, AllAlive, EmptiesLast, IsDerived};
ghost use Rattle.cfn_derivation.specs.Banned.{bans_of};
ghost use Rattle.cfn_derivation.specs.Working.{HasRoom, IsDone, Extends};
ghost use Rattle.cfn_derivation.specs.Watched.{TouchedAre, CostlyAre, AreCostly, IsWatched};

use crate::bans::Bans;
use crate::listed::Listed;
use crate::looks::{look_all, look_around};
use crate::notes::{list_costly, note_steps};
use crate::own::own_all;
use crate::work::{Work, count_values};
use cfn_consistency::Deletion;
use cfn_incidence::Incidence;
use cfn_net::Network;
use cfn_store::Store;
use std::alloc::{AllocError, Global};
use std::marker::Model;

/// How a derivation ended: what is left is a closed family, or a variable has no value left.
#[derive(Clone, Copy, PartialEq, Eq)]
pub enum Derived {
    Closed,
    Emptied(u32),
}

/// Derivations in stores of a network. Contracts see the network, the functions that may not be arc consistent, the variables
/// that may have a value of a unary cost of at least an amount, and the deletions of the newest derivation. Only `make` takes memory.
#[derive(Drop)]
pub struct Deriver<'n> {
    network: &'n Network,
    work: Work,
    touched: Listed,
    costly: Listed,
}

impl<'n> Model for Deriver<'n> {
    ghost use Rattle.cfn_derivation.specs.Watched.{Watch, HasSizes};

    ghost Value = { Watch };

    ghost view = { λ s. record { network = s.network.now; touched = s.touched; costly = s.costly; deletions = s.work.deletions } };

    ghost invariant = { λ s. HasSizes s.network.now s.work s.touched s.costly };
}

impl<'n> Deriver<'n> {
    /// For stores of this network, of which nothing is known until `begin`. An `Err` is want of memory.
    pub fn make(alloc: Global, network: &'n Network) -> Result<Deriver<'n>, AllocError>
        ensures network { IfOk result (λ deriver. deriver.network ≡ network.now) }
    {
        let touched = Listed::make(alloc, network.functions())?;
        let costly = Listed::make(alloc, network.variables())?;
        Ok(Deriver {
            network,
            work: Work::make(alloc, network)?,
            touched,
            costly,
        })
    }

    /// How many steps a derivation may add to a store: one for each value.
    pub fn room(&self) -> usize
        ensures { result ≡ value_count self.now.network }
    {
        count_values(self.network)
    }

    /// The deletions of the newest derivation, the first of them first.
    pub fn deletions(&self) -> &[Deletion]
        ensures { result.now ≡ self.now.deletions }
    {
        self.work.deletions()
    }

    /// Deletes values in the store, with a reason each, until a variable has no value left or nothing is left to delete: a value
    /// with a unary cost of at least `q`, or one whose live tuples in a function have residual costs of at least `q`.
    pub fn derive(
        &mut self,
        store: &mut Store<'_>,
        incidence: &Incidence,
        q: u64,
        bans: &Bans<'_>,
    ) -> Derived
        requires network { store.old.network ≡ self.old.network }
        requires incidence { incidence.now ≡ self.old.network }
        requires bans { bans.now.network ≡ self.old.network }
        requires some { 0 < q }
        requires room { value_count self.old.network ≤ store.old.spare }
        requires alive { AllAlive self.old.network (history store.old) }
        requires watch { IsWatched self.old.network (history store.old) self.old q }
        ensures derived { IsDerived store.old store.new q (bans_of bans.now) self.new.deletions }
        ensures closed { result ≡ Closed → IsClosedFamily store.new.network (history store.new) q (bans_of bans.now) }
        ensures emptied { (x : ℕ) → result ≡ Emptied x → EmptiesLast store.new.network (history store.new) x }
        ensures same { self.new ≡ record self.old { deletions = self.new.deletions } }
        ensures watch { IsWatched self.old.network (history store.old) self.new q }
    {
        self.work.clear();
        let costly = self.costly.items();
        let touched = self.touched.items();
        match propagate(store, &mut self.work, incidence, q, bans, costly, touched) {
            None => Derived::Closed,
            Some(x) => Derived::Emptied(x),
        }
    }

    /// Begins with a store: where it is settled no function is to be looked at, else all are; and so are the variables with a value
    /// of a unary cost of at least `q`.
    pub fn begin(&mut self, store: &Store<'_>, settled: bool, q: u64)
        requires network { store.now.network ≡ self.old.network }
        requires settled { settled ≡ true → (k : ℕ) × AreArcConsistent self.old.network (history store.now) k }
        ensures network { self.new.network ≡ self.old.network }
        ensures deletions { self.new.deletions ≡ self.old.deletions }
        ensures watch { IsWatched self.old.network (history store.now) self.new q }
    {
        self.touched.clear();
        if !settled {
            self.touched.fill(self.network.functions());
        }
        self.lower(store, q);
    }

    /// Takes another amount `q`: it looks at all values.
    pub fn lower(&mut self, store: &Store<'_>, q: u64)
        requires network { store.now.network ≡ self.old.network }
        requires touched { TouchedAre self.old.network (history store.now) self.old.touched.items }
        ensures network { self.new.network ≡ self.old.network }
        ensures touched { self.new.touched ≡ self.old.touched }
        ensures deletions { self.new.deletions ≡ self.old.deletions }
        ensures watch { IsWatched self.old.network (history store.now) self.new q }
        ensures costly { AreCostly self.old.network (history store.now) q self.new.costly.items }
    {
        list_costly(&mut self.costly, store, q);
    }

    /// Takes note of the steps of the store's block from a number on: what was known before them is known behind them of what
    /// they leave as it was.
    pub fn note(&mut self, store: &Store<'_>, incidence: &Incidence, start: usize)
        requires network { store.now.network ≡ self.old.network }
        requires incidence { incidence.now ≡ self.old.network }
        requires start { start ≤ length store.now.block }
        ensures network { self.new.network ≡ self.old.network }
        ensures deletions { self.new.deletions ≡ self.old.deletions }
        ensures watch { (q : ℕ) → IsWatched self.old.network (after (take start store.now.block) store.now.base) self.old q → IsWatched self.old.network (history store.now) self.new q }
    {
        note_steps(&mut self.touched, &mut self.costly, store, incidence, start);
    }
}

/// Looks at variables and functions, and then at the functions on variables that lost values. Ends with a variable that is emptied.
fn propagate(
    store: &mut Store<'_>,
    work: &mut Work,
    incidence: &Incidence,
    q: u64,
    bans: &Bans<'_>,
    costly: &[u32],
    touched: &[u32],
) -> Option<u32>
    requires some { 0 < q }
    requires incidence { incidence.now ≡ store.old.network }
    requires bans { bans.now.network ≡ store.old.network }
    requires costly { AreBelow (length store.old.network.sizes) costly.now }
    requires touched { AreBelow (length store.old.network.functions) touched.now }
    requires waiting { work.old.waiting.items ≡ [] }
    requires room { HasRoom store.old work.old }
    requires alive { AllAlive store.old.network (history store.old) }
    requires variables { CostlyAre store.old.network (history store.old) q costly.now }
    requires functions { TouchedAre store.old.network (history store.old) touched.now }
    ensures extends { Extends q (bans_of bans.now) store.old store.new work.old work.new }
    ensures ends { MatchOption result (IsClosedFamily store.new.network (history store.new) q (bans_of bans.now)) (EmptiesLast store.new.network (history store.new)) }
{
    let emptied = own_all(store, work, q, bans, costly);
    if emptied.is_some() {
        return emptied;
    }
    let emptied = look_all(store, work, q, bans, touched);
    if emptied.is_some() {
        return emptied;
    }
    settle(store, work, incidence, q, bans)
}

/// Looks at the functions on each variable that waits, until none waits. Ends with a variable that is emptied.
fn settle(
    store: &mut Store<'_>,
    work: &mut Work,
    incidence: &Incidence,
    q: u64,
    bans: &Bans<'_>,
) -> Option<u32>
    requires some { 0 < q }
    requires incidence { incidence.now ≡ store.old.network }
    requires bans { bans.now.network ≡ store.old.network }
    requires room { HasRoom store.old work.old }
    requires alive { AllAlive store.old.network (history store.old) }
    requires done { (f : ℕ) → IsDone store.old.network (history store.old) q (bans_of bans.now) work.old.waiting.items f }
    ensures extends { Extends q (bans_of bans.now) store.old store.new work.old work.new }
    ensures ends { MatchOption result (AllAlive store.new.network (history store.new)) (EmptiesLast store.new.network (history store.new)) }
    ensures done { result ≡ None → (f : ℕ) → IsDone store.new.network (history store.new) q (bans_of bans.now) [] f }
{
    while let Some(x) = work.take() {
        let emptied = look_around(store, work, q, bans, x, incidence.places(x));
        if emptied.is_some() {
            return emptied;
        }
    }
    None
}
