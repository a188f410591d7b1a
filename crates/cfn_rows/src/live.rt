//! Sparse sets of live values.
//!
//! Each variable has its values in an order, the place of each in it, and a count: the values at places below the count
//! are the live ones. An event that takes values exchanges places below the count alone, and lowers it. So every count
//! that was before is as good for the new order, and an event is taken back by its count alone.

ghost use Rattle.std.specs.Prelude.{◌≡◌, ℕ, ◌+◌, ◌<◌, ◌≤◌, not, ◌&&◌, ◌==◌, length, map, slice_index, IfOk, OnErr};
ghost use Rattle.cfn_model.specs.declared.step.Step.TheVariants.{CutValue};
ghost use Rattle.cfn_model.specs.declared.step.Event.TheVariants.{Did, Took, Refused};
ghost use Rattle.cfn_model.specs.Decisions.{variable_of, value_of};
ghost use Rattle.cfn_model.specs.Sums.{is_live, removes};
ghost use Rattle.cfn_rows.specs.Order.{stays, InRange};
ghost use Rattle.cfn_rows.specs.Sets.{new_sets, with_event, without_newest, IsValue, live_count, AreLive};
ghost use Rattle.cfn_rows.specs.Jagged.{row_at};

use crate::Rows;
use crate::order::{Kept, count_up, narrow};
use crate::past::Past;
use crate::undo::Undo;
use cfn_model::{Decision, Event, Step};
use std::alloc::{AllocError, Global};
use std::marker::Model;

/// The live values of each variable. Contracts see the size of each variable's domain, the events that the sets stand
/// for, the newest first, and for how many more events there is room.
#[derive(Drop)]
pub struct LiveSets {
    values: Rows<u32>,
    places: Rows<u32>,
    counts: Vec<u32>,
    trail: Vec<Undo>,
    past: Past,
}

impl Model for LiveSets {
    ghost use Rattle.std.specs.Prelude.{◌-◌, length, map, reverse, vec_len, vec_capacity};
    ghost use Rattle.cfn_rows.specs.Sets.{Sets};
    ghost use Rattle.cfn_rows.specs.Tables.{IsTrail};

    ghost Value = { Sets };

    ghost view = { λ s. record {
      sizes = map length s.places;
      history = s.past.events;
      spare = vec_capacity s.trail - vec_len s.trail;
    } };

    ghost invariant = { λ s. IsTrail s.values s.places s.counts.items (reverse s.trail.items) s.past.events };
}

// For each of these sizes the values below it, each at its own place.
fn orders(alloc: Global, sizes: &[u32]) -> Result<Rows<u32>, AllocError>
    ensures sizes { IfOk result (λ rows. map length rows ≡ sizes.now) }
    ensures places { IfOk result (λ rows. (x a : ℕ) → x < length rows → a < length (row_at rows x) → slice_index (row_at rows x) a ≡ a) }
{
    let mut rows = Rows::filled(alloc, sizes, 0)?;
    for x in 0..sizes.len() {
        count_up(rows.row_mut(x));
    }
    Ok(rows)
}

impl LiveSets {
    /// All values below these sizes are live, and there is room for no event. An `Err` is want of memory; beside this
    /// only `reserve` takes memory.
    pub fn make(alloc: Global, sizes: &[u32]) -> Result<LiveSets, AllocError>
        ensures { IfOk result (λ sets. sets ≡ new_sets sizes.now) }
    {
        Ok(LiveSets {
            values: orders(alloc, sizes)?,
            places: orders(alloc, sizes)?,
            counts: Vec::from_slice(alloc, sizes)?,
            trail: Vec::new(alloc),
            past: Past::new(),
        })
    }

    /// Makes room for `n` more events. An `Err`, want of memory, leaves all as it was.
    pub fn reserve(&mut self, n: usize) -> Result<(), AllocError>
        ensures sizes { self.new.sizes ≡ self.old.sizes }
        ensures history { self.new.history ≡ self.old.history }
        ensures ok { IfOk result (λ _. n ≤ self.new.spare) }
        ensures more { self.old.spare ≤ self.new.spare }
        ensures err { OnErr result (self.new ≡ self.old) }
    {
        self.trail.reserve(n)
    }

    /// Whether the value `a` of the variable `x` is live.
    pub fn is_live(&self, x: u32, a: u32) -> bool
        requires { IsValue self.now x a }
        ensures { result ≡ is_live self.now.history x a }
    {
        self.places.row(x as usize)[a as usize] < self.counts[x as usize]
    }

    /// How many values of the variable `x` are live.
    pub fn count(&self, x: u32) -> u32
        requires { x < length self.now.sizes }
        ensures { result ≡ live_count self.now x }
    {
        self.counts[x as usize]
    }

    /// The live values of the variable `x`, each once, in any order.
    pub fn live(&self, x: u32) -> &[u32]
        requires { x < length self.now.sizes }
        ensures { AreLive self.now x result.now }
    {
        &self.values.row(x as usize)[..self.counts[x as usize] as usize]
    }

    /// Cuts the value `a` of the variable `x`. Where it isn't live no set changes; it is an event nonetheless.
    pub fn cut(&mut self, x: u32, a: u32)
        requires value { IsValue self.old x a }
        requires room { 0 < self.old.spare }
        ensures { self.new ≡ with_event self.old (Did (CutValue x a)) }
    {
        let step = Step::CutValue {
            variable: x,
            value: a,
        };
        self.record(Event::Did(step), x, Kept::But(a));
    }

    /// The first side of a split: of its variable the decision's values stay.
    pub fn take(&mut self, d: Decision)
        requires value { IsValue self.old (variable_of d) (value_of d) }
        requires room { 0 < self.old.spare }
        ensures { self.new ≡ with_event self.old (Took d) }
    {
        match d {
            Decision::Is { variable, value } => self.record(
                Event::Took(d),
                variable,
                Kept::Only(value),
            ),
            Decision::Most { variable, value } => self.record(
                Event::Took(d),
                variable,
                Kept::AtMost(value),
            ),
        }
    }

    /// The second side of a split: of its variable the other values stay.
    pub fn refuse(&mut self, d: Decision)
        requires value { IsValue self.old (variable_of d) (value_of d) }
        requires room { 0 < self.old.spare }
        ensures { self.new ≡ with_event self.old (Refused d) }
    {
        match d {
            Decision::Is { variable, value } => self.record(
                Event::Refused(d),
                variable,
                Kept::But(value),
            ),
            Decision::Most { variable, value } => self.record(
                Event::Refused(d),
                variable,
                Kept::Above(value),
            ),
        }
    }

    /// Takes the newest event back, whose room is free again.
    pub fn undo(&mut self)
        requires { 0 < length self.old.history }
        ensures { self.new ≡ without_newest self.old }
    {
        if let Some(undo) = self.trail.pop() {
            self.counts[undo.variable as usize] = undo.count;
            self.past.back();
        }
    }

    // An event that leaves of the live values of `x` those that stay, and all of every other variable.
    fn record(&mut self, event: Event, x: u32, kept: Kept)
        requires variable { x < length self.old.sizes }
        requires range { InRange kept (slice_index self.old.sizes x) }
        requires event { (y a : ℕ) → removes event y a ≡ ((x == y) && not (stays kept a)) }
        requires room { 0 < self.old.spare }
        ensures { self.new ≡ with_event self.old event }
    {
        let at = x as usize;
        let count = self.counts[at];
        let left = narrow(
            self.values.row_mut(at),
            self.places.row_mut(at),
            count,
            kept,
        );
        self.counts[at] = left;
        self.trail.push_reserved(Undo { variable: x, count });
        self.past.add(event);
    }
}
