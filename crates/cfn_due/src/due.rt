//! Three queues of what is due to be looked at: functions for arc consistency, functions for directional arc consistency,
//! and variables for existential arc consistency. What does not wait is known to be consistent.
//!
//! Costs of what is live are never negative on a store's path. So a support, a live tuple of residual cost 0, stays one until
//! a value or the tuple is cut or the cost rises, and it rises by an extend alone; a full support stays one until that or
//! until the unary cost of its other value rises, which it does by a project to it alone (Cooper et al., Soft arc consistency
//! revisited, 2010). An event puts what may end so, and nothing else.

ghost use Rattle.std.specs.Prelude.{◌≡◌, ℕ, ◌<◌, ◌≤◌, true, not, List, ◌∷◌, length, take, drop, IfOk, MatchOption};
ghost use Rattle.cfn_model.specs.declared.step.Event.{Event as PathEvent};
ghost use Rattle.cfn_model.specs.declared.step.Event.TheVariants.{Did};
ghost use Rattle.cfn_model.specs.Decisions.{variable_of};
ghost use Rattle.cfn_model.specs.Network.{Network as CostNetwork};
ghost use Rattle.cfn_model.specs.Steps.{InRange, after};
ghost use Rattle.cfn_queue.specs.Waiting.{new_queue, IsFirst};
ghost use Rattle.cfn_incidence.specs.Places.{StandsAt};
ghost use Rattle.cfn_scan.specs.Exact.{InPlace, HasNoDebts};
ghost use Rattle.cfn_store.specs.Standing.{history};
ghost use Rattle.cfn_consistency.specs.Openness.{TakesPart};
ghost use Rattle.cfn_consistency.specs.Consistency.{IsArcConsistent, IsDirectional, IsExistential, AreArcConsistent, AreDirectional, AreExistential};
ghost use Rattle.cfn_due.specs.Dues.{emptied, without_first, rising, falling, all_due, NothingWaits, waits, HasSizes, Holds};
ghost use Rattle.cfn_due.specs.Nexts.{IsNext};
ghost use Rattle.cfn_due.specs.Going.{IsOn, IsUpper, IsNear, ArePut, IsNoted, AreNoted};
ghost use Rattle.cfn_due.specs.Remembered.{IsLast};

use crate::last::{Last, is_of};
use cfn_incidence::{Incidence, Place};
use cfn_model::{Decision, Event, Step};
use cfn_net::Network;
use cfn_queue::Queue;
use cfn_store::Store;
use std::alloc::{AllocError, Global};
use std::marker::Model;

/// What is due to be looked at. Contracts see the three queues. Only `make` takes memory.
#[derive(Drop)]
pub struct Due {
    /// Functions that are to be made arc consistent, where they take part in that.
    arcs: Queue,
    /// Functions that are to be made directional.
    directed: Queue,
    /// Variables that are to be made existential.
    existing: Queue,
}

/// What is due next: a function for arc consistency, else a variable for existential arc consistency, else a function for
/// directional arc consistency. Of each kind it is the one that has waited longest.
#[derive(Clone, Copy, Debug, PartialEq, Eq)]
pub enum Next {
    Arc(u32),
    Existing(u32),
    Directed(u32),
}

impl Model for Due {
    ghost use Rattle.cfn_due.specs.Dues.{Dues};

    ghost Value = { Dues };

    ghost view = { λ s. record { arcs = s.arcs; directed = s.directed; existing = s.existing } };
}

impl Due {
    /// All of a network waits. An `Err` is want of memory.
    pub fn make(alloc: Global, network: &Network) -> Result<Due, AllocError>
        ensures { IfOk result (λ due. due ≡ all_due network.now) }
    {
        let mut due = Due {
            arcs: Queue::make(alloc, network.functions())?,
            directed: Queue::make(alloc, network.functions())?,
            existing: Queue::make(alloc, network.variables())?,
        };
        due.put_all(network);
        Ok(due)
    }

    /// Makes all of a network wait: functions and variables with the first one first, but for directional arc consistency the
    /// last one first.
    pub fn put_all(&mut self, network: &Network)
        requires sizes { HasSizes network.now self.old }
        ensures all { self.new ≡ all_due network.now }
        ensures holds { (history : List PathEvent) → Holds network.now history self.new }
    {
        self.clear();
        put_rising(&mut self.arcs, network.functions());
        put_rising(&mut self.existing, network.variables());
        put_falling(&mut self.directed, network.functions());
    }

    /// Takes all away that waits, where the whole network is consistent. It takes as long as there are numbers that wait.
    pub fn clear(&mut self)
        ensures arcs { self.new.arcs ≡ emptied self.old.arcs }
        ensures directed { self.new.directed ≡ emptied self.old.directed }
        ensures existing { self.new.existing ≡ emptied self.old.existing }
        ensures holds { (P : CostNetwork) (history : List PathEvent) (k : ℕ)
            → AreArcConsistent P history k → AreDirectional P history k → AreExistential P history k → Holds P history self.new }
    {
        empty(&mut self.arcs);
        empty(&mut self.directed);
        empty(&mut self.existing);
    }

    /// What is due next. There is nothing exactly where nothing waits.
    pub fn next(&self) -> Option<Next>
        ensures { MatchOption result (NothingWaits self.now) (IsNext self.now) }
    {
        if let Some(f) = self.arcs.first() {
            return Some(Next::Arc(f));
        }
        if let Some(x) = self.existing.first() {
            return Some(Next::Existing(x));
        }
        self.directed.first().map(Next::Directed)
    }

    /// Whether a function does not wait for directional arc consistency, but has it.
    pub fn is_directed(&self, f: u32) -> bool
        requires { f < self.now.directed.size }
        ensures is { result ≡ not (waits self.now.directed f) }
        ensures directed { result ≡ true → (P : CostNetwork) (history : List PathEvent) → Holds P history self.now → IsDirectional P history f }
    {
        !self.directed.has(f)
    }

    /// Takes the function away that has waited longest for arc consistency: it is so, if it takes part.
    pub fn done_arc(&mut self)
        ensures taken { self.new ≡ record self.old { arcs = without_first self.old.arcs } }
        ensures holds { (P : CostNetwork) (history : List PathEvent) (f : ℕ) → IsFirst self.old.arcs.items f → Holds P history self.old
            → (TakesPart P history f → IsArcConsistent P history f) → Holds P history self.new }
    {
        self.arcs.take();
    }

    /// Takes the function away that has waited longest for directional arc consistency: it is so.
    pub fn done_directed(&mut self)
        ensures taken { self.new ≡ record self.old { directed = without_first self.old.directed } }
        ensures holds { (P : CostNetwork) (history : List PathEvent) (f : ℕ) → IsFirst self.old.directed.items f → Holds P history self.old
            → IsDirectional P history f → Holds P history self.new }
    {
        self.directed.take();
    }

    /// Takes the variable away that has waited longest for existential arc consistency: it is so.
    pub fn done_existing(&mut self)
        ensures taken { self.new ≡ record self.old { existing = without_first self.old.existing } }
        ensures holds { (P : CostNetwork) (history : List PathEvent) (x : ℕ) → IsFirst self.old.existing.items x → Holds P history self.old
            → IsExistential P history x → Holds P history self.new }
    {
        self.existing.take();
    }

    /// Puts what an event may end. What does not wait holds after it, where what did not wait held before it and no cost of
    /// what is live is negative after it.
    pub fn note(&mut self, network: &Network, incidence: &Incidence, event: &Event)
        requires incidence { incidence.now ≡ network.now }
        requires sizes { HasSizes network.now self.old }
        requires place { InPlace network.now event.now }
        ensures noted { IsNoted network.now event.now self.old self.new }
        ensures sizes { HasSizes network.now self.new }
        ensures keeps { (history : List PathEvent) → HasNoDebts network.now (event.now ∷ history) → Holds network.now history self.old
            → Holds network.now (event.now ∷ history) self.new }
    {
        network.law_limits();
        let mut last = Last::nothing();
        match *event {
            Event::Did(step) => self.note_step(network, incidence, step, &mut last),
            Event::Took(decision) | Event::Refused(decision) => {
                self.lose(network, incidence, variable(decision), &mut last);
            }
        }
    }

    /// Puts what the steps of a store's block from a number on may end.
    pub fn note_steps(&mut self, incidence: &Incidence, store: &Store<'_>, start: usize)
        requires incidence { incidence.now ≡ store.now.network }
        requires sizes { HasSizes store.now.network self.old }
        requires start { start ≤ length store.now.block }
        ensures noted { AreNoted store.now.network (drop start store.now.block) self.old self.new }
        ensures sizes { HasSizes store.now.network self.new }
        ensures keeps { Holds store.now.network (after (take start store.now.block) store.now.base) self.old
            → Holds store.now.network (history store.now) self.new }
    {
        store.law_exact();
        let network = store.network();
        network.law_limits();
        let mut last = Last::nothing();
        for i in start..store.block_len() {
            self.note_step(network, incidence, store.step(i), &mut last);
        }
    }

    /// Puts what a step may end.
    fn note_step(&mut self, network: &Network, incidence: &Incidence, step: Step, last: &mut Last)
        requires incidence { incidence.now ≡ network.now }
        requires sizes { HasSizes network.now self.old }
        requires range { InRange network.now step }
        requires last { IsLast network.now last.old self.old }
        ensures noted { IsNoted network.now (Did step) self.old self.new }
        ensures last { IsLast network.now last.new self.new }
    {
        network.law_limits();
        match step {
            Step::Project {
                function,
                place,
                ..
            } => {
                let x = network.scope(function)[place as usize];
                self.rise(network, incidence, x, last);
            }
            Step::Extend { function, .. } | Step::CutTuple { function, .. } => {
                self.change(network, function, last);
            }
            Step::Lift { .. } => {}
            Step::CutValue { variable, .. } => self.lose(network, incidence, variable, last),
        }
    }

    /// Unary costs of a variable rose.
    fn rise(&mut self, network: &Network, incidence: &Incidence, x: u32, last: &mut Last)
        requires incidence { incidence.now ≡ network.now }
        requires sizes { HasSizes network.now self.old }
        requires variable { x < length network.now.sizes }
        requires last { IsLast network.now last.old self.old }
        ensures arcs { self.new.arcs ≡ self.old.arcs }
        ensures directed { ArePut self.old.directed self.new.directed (IsUpper network.now x) }
        ensures existing { ArePut self.old.existing self.new.existing (IsNear network.now x) }
        ensures last { IsLast network.now last.new self.new }
    {
        if is_of(last.risen, x) {
            return;
        }
        put_upper(incidence, x, &mut self.directed);
        put_near(network, incidence, x, &mut self.existing);
        last.risen = Some(x);
    }

    /// A variable lost values.
    fn lose(&mut self, network: &Network, incidence: &Incidence, x: u32, last: &mut Last)
        requires incidence { incidence.now ≡ network.now }
        requires sizes { HasSizes network.now self.old }
        requires variable { x < length network.now.sizes }
        requires last { IsLast network.now last.old self.old }
        ensures arcs { ArePut self.old.arcs self.new.arcs (IsOn network.now x) }
        ensures directed { ArePut self.old.directed self.new.directed (IsUpper network.now x) }
        ensures existing { ArePut self.old.existing self.new.existing (IsNear network.now x) }
        ensures last { IsLast network.now last.new self.new }
    {
        self.rise(network, incidence, x, last);
        if is_of(last.lost, x) {
            return;
        }
        put_functions(incidence, x, &mut self.arcs);
        last.lost = Some(x);
    }

    /// Costs of a function rose, or a tuple of it was cut.
    fn change(&mut self, network: &Network, f: u32, last: &mut Last)
        requires sizes { HasSizes network.now self.old }
        requires function { f < length network.now.functions }
        requires last { IsLast network.now last.old self.old }
        ensures arcs { ArePut self.old.arcs self.new.arcs (λ g. f ≡ g) }
        ensures directed { ArePut self.old.directed self.new.directed (λ g. f ≡ g) }
        ensures existing { ArePut self.old.existing self.new.existing (λ x. IsOn network.now x f) }
        ensures last { IsLast network.now last.new self.new }
    {
        if is_of(last.changed, f) {
            return;
        }
        self.arcs.put(f);
        self.directed.put(f);
        put_scope(network, f, &mut self.existing);
        last.changed = Some(f);
    }
}

/// The variable of a decision.
fn variable(decision: Decision) -> u32
    ensures { result ≡ variable_of decision }
{
    match decision {
        Decision::Is { variable, .. } | Decision::Most { variable, .. } => variable,
    }
}

/// Takes each number away.
fn empty(queue: &mut Queue)
    ensures { queue.new ≡ emptied queue.old }
{
    while let Some(_) = queue.take() {}
}

/// Puts the numbers below a size into an empty queue, the least first.
fn put_rising(queue: &mut Queue, size: u32)
    requires { queue.old ≡ new_queue size }
    ensures { queue.new ≡ record { size = size; items = rising size } }
{
    for i in 0..size {
        queue.put(i);
    }
}

/// Puts the numbers below a size into an empty queue, the greatest first.
fn put_falling(queue: &mut Queue, size: u32)
    requires { queue.old ≡ new_queue size }
    ensures { queue.new ≡ record { size = size; items = falling size size } }
{
    for i in 0..size {
        queue.put(size - 1 - i);
    }
}

/// Puts each function on `x`.
fn put_functions(incidence: &Incidence, x: u32, queue: &mut Queue)
    requires variable { x < length incidence.now.sizes }
    requires size { queue.old.size ≡ length incidence.now.functions }
    ensures { ArePut queue.old queue.new (IsOn incidence.now x) }
{
    for place in incidence.places(x) {
        queue.put(place.function);
    }
}

/// Puts each function on `x`, but not one of two variables of which `x` is the lower one.
fn put_upper(incidence: &Incidence, x: u32, queue: &mut Queue)
    requires variable { x < length incidence.now.sizes }
    requires size { queue.old.size ≡ length incidence.now.functions }
    ensures { ArePut queue.old queue.new (IsUpper incidence.now x) }
{
    for place in incidence.places(x) {
        if place.other <= x {
            queue.put(place.function);
        }
    }
}

/// Puts `x`, and each variable in the scope of a function on `x`.
fn put_near(network: &Network, incidence: &Incidence, x: u32, queue: &mut Queue)
    requires incidence { incidence.now ≡ network.now }
    requires variable { x < length network.now.sizes }
    requires size { queue.old.size ≡ length network.now.sizes }
    ensures { ArePut queue.old queue.new (IsNear network.now x) }
{
    queue.put(x);
    for place in incidence.places(x) {
        put_beside(network, *place, x, queue);
    }
}

/// Puts each variable in the scope of a place's function, where the one at the place, `x`, waits.
fn put_beside(network: &Network, place: Place, x: u32, queue: &mut Queue)
    requires stands { StandsAt network.now x place }
    requires waits { waits queue.old x ≡ true }
    requires size { queue.old.size ≡ length network.now.sizes }
    ensures { ArePut queue.old queue.new (λ y. IsOn network.now y place.function) }
{
    network.law_limits();
    if place.other == x {
        put_scope(network, place.function, queue);
    } else {
        queue.put(place.other);
    }
}

/// Puts each variable in the scope of `f`.
fn put_scope(network: &Network, f: u32, queue: &mut Queue)
    requires function { f < length network.now.functions }
    requires size { queue.old.size ≡ length network.now.sizes }
    ensures { ArePut queue.old queue.new (λ x. IsOn network.now x f) }
{
    network.law_limits();
    for x in network.scope(f) {
        queue.put(*x);
    }
}
