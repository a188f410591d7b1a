//! At which places of functions of two variables a live value may lack a support.
//!
//! A support of a value stays one until its tuple or a value of another variable in it is cut, or its cost rises; so what a
//! variable loses puts the other place of each function on it in doubt, and not its own (Larrosa and Schiex, Solving weighted
//! CSP by maintaining arc consistency, 2004).

ghost use Rattle.std.specs.Prelude.{◌≡◌, ℕ, ◌<◌, ◌≤◌, List, ◌∷◌, length, take, IfOk};
ghost use Rattle.cfn_model.specs.declared.step.Event.{Event as PathEvent};
ghost use Rattle.cfn_model.specs.declared.step.Event.TheVariants.{Did};
ghost use Rattle.cfn_model.specs.Decisions.{variable_of};
ghost use Rattle.cfn_model.specs.Network.{Network as CostNetwork, arity};
ghost use Rattle.cfn_model.specs.Steps.{InRange, after};
ghost use Rattle.cfn_consistency.specs.Consistency.{AreArcConsistent};
ghost use Rattle.cfn_scan.specs.Exact.{InPlace, HasNoDebts};
ghost use Rattle.cfn_store.specs.Standing.{history};
ghost use Rattle.cfn_due.specs.Going.{IsElsewhere, GoesSide};
ghost use Rattle.cfn_due.specs.Siding.{is_doubted, HasSupports, AreSupported, AreAsked, IsOtherAsked};

use crate::marks::{Marks, number_of};
use cfn_incidence::{Incidence, Place};
use cfn_model::{Decision, Event, Step};
use cfn_net::Network;
use cfn_store::Store;
use std::alloc::{AllocError, Global};
use std::marker::Model;

/// The places of functions of two variables at which a live value may lack a support. Only `make` takes memory.
#[derive(Drop)]
pub struct Sides {
    /// How many functions there are.
    size: u32,
    /// Which of the two places of each function are in doubt.
    doubted: Marks,
}

impl Model for Sides {
    ghost use Rattle.std.specs.Prelude.{◌≡◌, ◌*◌, length};
    ghost use Rattle.cfn_due.specs.Siding.{Siding};

    ghost Value = { Siding };

    ghost view = { λ s. record { size = s.size; doubted = s.doubted } };

    ghost invariant = { λ s. length s.doubted.stamps ≡ 2 * s.size };
}

impl Sides {
    /// For the functions of a network. An `Err` is want of memory.
    pub fn make(alloc: Global, network: &Network) -> Result<Sides, AllocError>
        ensures { IfOk result (λ sides. sides.size ≡ length network.now.functions) }
    {
        let size = network.functions();
        Ok(Sides {
            size,
            doubted: Marks::make(alloc, 2 * size as usize)?,
        })
    }

    /// Puts all places in doubt.
    pub fn doubt_all(&mut self)
        ensures size { self.new.size ≡ self.old.size }
        ensures all { (P : CostNetwork) (history : List PathEvent) → self.old.size ≡ length P.functions → AreSupported P history self.new }
    {
        self.doubted.fill();
    }

    /// Begins anew behind a place where all was arc consistent: what an event may have ended there is in doubt.
    pub fn begin_behind(&mut self, incidence: &Incidence, event: &Event)
        requires size { self.old.size ≡ length incidence.now.functions }
        requires place { InPlace incidence.now event.now }
        ensures size { self.new.size ≡ self.old.size }
        ensures known { (history : List PathEvent) (k : ℕ) → HasNoDebts incidence.now (event.now ∷ history) → AreArcConsistent incidence.now history k
            → AreSupported incidence.now (event.now ∷ history) self.new }
    {
        self.doubted.clear();
        match *event {
            Event::Did(step) => self.note_step(incidence, step),
            Event::Took(decision) => self.touch(incidence, variable(decision)),
            Event::Refused(decision) => self.touch(incidence, variable(decision)),
        }
    }

    /// Whether a place of a function is in doubt.
    pub fn is_doubted(&self, f: u32, place: u32) -> bool
        ensures { result ≡ is_doubted self.now f place }
    {
        self.doubted.has(number_of(f, place))
    }

    /// Remembers that at both places of a function of two variables each live value has a support.
    pub fn trust(&mut self, f: u32)
        ensures size { self.new.size ≡ self.old.size }
        ensures known { (P : CostNetwork) (history : List PathEvent) → AreSupported P history self.old
            → (arity P f ≡ 2 → HasSupports P history f 0 × HasSupports P history f 1) → AreSupported P history self.new }
    {
        self.doubted.unmark(number_of(f, 0));
        self.doubted.unmark(number_of(f, 1));
    }

    /// Puts in doubt what the steps of a store's block from a number on may have ended.
    pub fn note_steps(&mut self, incidence: &Incidence, store: &Store<'_>, start: usize)
        requires size { self.old.size ≡ length incidence.now.functions }
        requires incidence { incidence.now ≡ store.now.network }
        requires start { start ≤ length store.now.block }
        ensures size { self.new.size ≡ self.old.size }
        ensures known { AreSupported store.now.network (after (take start store.now.block) store.now.base) self.old
            → AreSupported store.now.network (history store.now) self.new }
    {
        store.law_exact();
        for i in start..store.block_len() {
            self.note_step(incidence, store.step(i));
        }
    }

    /// Puts in doubt what a step may end.
    fn note_step(&mut self, incidence: &Incidence, step: Step)
        requires size { self.old.size ≡ length incidence.now.functions }
        requires range { InRange incidence.now step }
        ensures { AreAsked incidence.now self.old self.new (GoesSide incidence.now (Did step)) }
    {
        match step {
            Step::Extend { function, .. } | Step::CutTuple { function, .. } => self.doubt(function),
            Step::CutValue { variable, .. } => self.touch(incidence, variable),
            Step::Project { .. } | Step::Lift { .. } => {}
        }
    }

    /// Puts the other places of all functions on a variable in doubt.
    fn touch(&mut self, incidence: &Incidence, x: u32)
        requires size { self.old.size ≡ length incidence.now.functions }
        requires variable { x < length incidence.now.sizes }
        ensures { AreAsked incidence.now self.old self.new (IsElsewhere incidence.now x) }
    {
        for place in incidence.places(x) {
            self.doubt_other(*place);
        }
    }

    /// Puts the other place of a function of two variables in doubt.
    fn doubt_other(&mut self, place: Place)
        requires { place.function < self.old.size }
        ensures { IsOtherAsked self.old self.new place }
    {
        if place.place < 2 {
            self.doubted
                .mark(number_of(place.function, 1 - place.place));
        }
    }

    /// Puts both places of a function in doubt.
    fn doubt(&mut self, f: u32)
        requires { f < self.old.size }
        ensures { (P : CostNetwork) → AreAsked P self.old self.new (λ g i. f ≡ g) }
    {
        self.doubted.mark(number_of(f, 0));
        self.doubted.mark(number_of(f, 1));
    }
}

/// The variable of a decision.
fn variable(decision: Decision) -> u32
    ensures { result ≡ variable_of decision }
{
    match decision {
        Decision::Is { variable, .. } | Decision::Most { variable, .. } => variable,
    }
}
