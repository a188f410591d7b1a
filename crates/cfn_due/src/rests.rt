//! Values that may rest, and in which functions they are known to have a full support.
//!
//! A full support stays one until a value of it or its tuple is cut, or the cost of the tuple or the unary cost of its other
//! value rises; so a step puts the functions in doubt that it changes, or those on the variable that it changes, and no other
//! (Cooper et al., Soft arc consistency revisited, 2010). All of it can be put in doubt at once.

ghost use Rattle.std.specs.Prelude.{◌≡◌, true, ℕ, ◌+◌, ◌-◌, ◌*◌, ◌<◌, ◌≤◌, List, length, take, slice_index, IfOk, IfSome, IsTrue};
ghost use Rattle.cfn_model.specs.declared.step.Event.{Event};
ghost use Rattle.cfn_model.specs.declared.step.Event.TheVariants.{Did};
ghost use Rattle.cfn_model.specs.Network.{Network as CostNetwork, arity, variable_at};
ghost use Rattle.cfn_model.specs.Steps.{InRange, after};
ghost use Rattle.cfn_store.specs.Standing.{history};
ghost use Rattle.cfn_due.specs.Going.{IsOn, GoesFull};
ghost use Rattle.cfn_due.specs.Resting.{RestsAt, is_sure, AreSure, AreDoubted, IsDoubted};

use crate::marks::Marks;
use cfn_incidence::{Incidence, Place};
use cfn_model::Step;
use cfn_net::Network;
use cfn_store::Store;
use std::alloc::{AllocError, Global};
use std::marker::Model;

/// For each variable a value, and in which functions it is known to rest: to have a full support with regard to the other open
/// variable, where there is one other. What is seen at a function's fourth place and behind is not remembered. Only `make` takes
/// memory.
#[derive(Drop)]
pub struct Rests {
    /// For each variable the value.
    values: Vec<u32>,
    /// At which of the first three places of each function the value of its variable is known to rest.
    sure: Marks,
}

impl Model for Rests {
    ghost use Rattle.cfn_due.specs.Resting.{Resting};

    ghost Value = { Resting };

    ghost view = { λ s. record { values = s.values.items; sure = s.sure } };
}

impl Rests {
    /// The value 0 for each variable of a network, and nothing is sure. An `Err` is want of memory.
    pub fn make(alloc: Global, network: &Network) -> Result<Rests, AllocError>
        ensures { IfOk result (λ rests. (P : CostNetwork) (history : List Event) → AreSure P history rests) }
    {
        Ok(Rests {
            values: vec![in alloc; 0; network.variables() as usize]?,
            sure: Marks::make(alloc, 3 * network.functions() as usize)?,
        })
    }

    /// Puts all in doubt, at once.
    pub fn forget(&mut self)
        ensures { (P : CostNetwork) (history : List Event) → AreSure P history self.new }
    {
        self.sure.clear();
    }

    /// The value of a variable. It may cost something, or be dead.
    pub fn value(&self, x: u32) -> u32
        ensures { result ≡ slice_index self.now.values x }
    {
        match self.values.get(x as usize) {
            Some(value) => *value,
            None => 0,
        }
    }

    /// Whether the value of the variable at a place is known to rest there.
    pub fn is_sure(&self, place: Place) -> bool
        ensures { result ≡ true → (place.place < 3) × IsTrue (is_sure self.now place.function place.place) }
    {
        if place.place > 2 {
            return false;
        }
        self.sure.has(number_of(place.function, place.place))
    }

    /// Remembers that the value of the variable at a place rests there.
    pub fn rely(&mut self, place: Place)
        ensures sure { (P : CostNetwork) (history : List Event) → AreSure P history self.old
            → RestsAt P history place.function place.place (slice_index self.old.values (variable_at P place.function place.place))
            → AreSure P history self.new }
        ensures values { self.new.values ≡ self.old.values }
    {
        if place.place < 3 {
            self.sure.mark(number_of(place.function, place.place));
        }
    }

    /// Keeps another value for a variable, which puts all functions on it in doubt.
    pub fn keep(&mut self, incidence: &Incidence, x: u32, value: u32)
        requires { x < length incidence.now.sizes }
        ensures { (history : List Event) → AreSure incidence.now history self.old → AreSure incidence.now history self.new }
    {
        self.doubt_on(incidence, x);
        if (x as usize) < self.values.len() {
            self.values[x as usize] = value;
        }
    }

    /// Puts in doubt what the steps of a store's block from a number on may have ended.
    pub fn note_steps(&mut self, incidence: &Incidence, store: &Store<'_>, start: usize)
        requires incidence { incidence.now ≡ store.now.network }
        requires start { start ≤ length store.now.block }
        ensures { AreSure store.now.network (after (take start store.now.block) store.now.base) self.old
            → AreSure store.now.network (history store.now) self.new }
    {
        store.law_exact();
        let network = store.network();
        network.law_limits();
        let mut last = None;
        for i in start..store.block_len() {
            self.note_step(network, incidence, store.step(i), &mut last);
        }
    }

    /// Puts in doubt what a step may end. `last` is the variable of which all functions are in doubt.
    fn note_step(
        &mut self,
        network: &Network,
        incidence: &Incidence,
        step: Step,
        last: &mut Option<u32>,
    )
        requires incidence { incidence.now ≡ network.now }
        requires range { InRange network.now step }
        requires last { IfSome last.old (IsDoubted network.now self.old) }
        ensures doubted { AreDoubted self.old self.new (GoesFull network.now (Did step)) }
        ensures last { IfSome last.new (IsDoubted network.now self.new) }
    {
        network.law_limits();
        match step {
            Step::Project {
                function,
                place,
                ..
            } => {
                let x = network.scope(function)[place as usize];
                self.touch(incidence, x, last);
            }
            Step::Extend { function, .. } | Step::CutTuple { function, .. } => {
                self.doubt(function);
            }
            Step::Lift { .. } => {}
            Step::CutValue { variable, .. } => self.touch(incidence, variable, last),
        }
    }

    /// Puts all functions on a variable in doubt, unless they are so.
    fn touch(&mut self, incidence: &Incidence, x: u32, last: &mut Option<u32>)
        requires variable { x < length incidence.now.sizes }
        requires last { IfSome last.old (IsDoubted incidence.now self.old) }
        ensures doubted { AreDoubted self.old self.new (IsOn incidence.now x) }
        ensures last { IfSome last.new (IsDoubted incidence.now self.new) }
    {
        if *last == Some(x) {
            return;
        }
        self.doubt_on(incidence, x);
        *last = Some(x);
    }

    /// Puts all functions on a variable in doubt.
    fn doubt_on(&mut self, incidence: &Incidence, x: u32)
        requires { x < length incidence.now.sizes }
        ensures { AreDoubted self.old self.new (IsOn incidence.now x) }
    {
        for place in incidence.places(x) {
            self.doubt(place.function);
        }
    }

    /// Puts a function in doubt.
    fn doubt(&mut self, f: u32)
        ensures { AreDoubted self.old self.new (λ g. f ≡ g) }
    {
        self.sure.unmark(number_of(f, 0));
        self.sure.unmark(number_of(f, 1));
        self.sure.unmark(number_of(f, 2));
    }
}

/// The number of one of the first three places of a function.
fn number_of(f: u32, place: u32) -> usize
    ensures { result ≡ 3 * f + place }
{
    3 * f as usize + place as usize
}
