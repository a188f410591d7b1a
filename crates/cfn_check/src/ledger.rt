//! Where a checker stands on the way down a search tree.

ghost use Rattle.std.specs.Prelude.{◌≡◌, ℕ, ◌+◌, ◌-◌, ◌<◌, ◌≤◌, ◌↔◌, List, [], ◌∷◌, length, slice_index, pos, neg_ℤ, ◌+ℤ◌, nat_lt, IsTrue, IfOk, OnOk, OnErr};
ghost use Rattle.cfn_model.specs.declared.step.Event.TheVariants.{Took, Refused};
ghost use Rattle.cfn_model.specs.Network.{Fits, cells, cell, dims, dims_at, scope_at, arity, function_at};
ghost use Rattle.cfn_model.specs.Sums.{when, floor, unary, residual, is_live, is_cut};
ghost use Rattle.cfn_model.specs.Steps.{IsValue, IsCell};
ghost use Rattle.cfn_model.specs.Tree.{CanClose, IsWiped};
ghost use Rattle.cfn_tables.specs.Slots.{slots, shifted};
ghost use Rattle.cfn_check.specs.Along.{along};
ghost use Rattle.cfn_check.specs.Along.{IsSlight};
ghost use Rattle.cfn_tables.specs.Possible.{IsPossible};
ghost use Rattle.cfn_check.specs.Standing.{IsMarked, with_event, without};
ghost use Rattle.cfn_certtext.specs.Reading.{step_of, decision_of};
ghost use Rattle.cfn_check.specs.Asking.{IsJudged, IsDecided};

use crate::allowed::allowed;
use crate::asked::{Judged, decision_in_range, in_range};
use crate::entry::Entry;
use cfn_certtext::{DecisionText, StepText};
use cfn_model::{Event, Step};
use cfn_net::{Network, NetworkSnapshot};
use cfn_tables::{Costs, slots};
use std::alloc::{AllocError, Global};
use std::marker::Model;

/// The costs and live values of a network after the events of a path (Cooper et al. 2010). Contracts see the network
/// and the path's history, the newest event first.
///
/// It is bound to the network that it was made for, and borrows nothing of it. An event takes time for the values that it
/// touches and the places of its function, and going back over it takes the same time again. Memory is taken by `make`,
/// which copies no table, then for the path's events, and at the first cut of a tuple of a function for its flags.
#[derive(Drop)]
pub struct Ledger {
    network: NetworkSnapshot,
    costs: Costs,
    trail: Vec<Entry>,
}

impl Model for Ledger {
    ghost use Rattle.std.specs.Prelude.{reverse};
    ghost use Rattle.cfn_check.specs.Standing.{Standing, IsLedger, events_of};

    ghost Value = { Standing };

    ghost view = { λ l. record { network = l.network.value; history = events_of (reverse l.trail.items) } };

    ghost invariant = { λ l. IsLedger l.network.value l.costs (reverse l.trail.items) };
}

/// A length of a path, to go back to.
#[derive(Clone, Copy)]
pub struct Mark {
    /// The number of events from the root on.
    pub events: usize,
}

impl Ledger {
    /// How many events a path may have. A longer one counts as want of memory.
    const MOST: usize = 1099511627776;

    /// The root of a network's search tree, before any event. An `Err` is want of memory.
    pub fn make(alloc: Global, network: &Network) -> Result<Ledger, AllocError>
        ensures { IfOk result (λ l. l ≡ record { network = network.now; history = [] }) }
    {
        Ok(Ledger {
            network: NetworkSnapshot::of(network),
            costs: Costs::of(alloc, network)?,
            trail: Vec::new(alloc),
        })
    }

    /// Judges a step at the threshold `k`, and makes it where it is allowed. Any other answer, and an `Err`, want of
    /// memory, leaves all as it was.
    pub fn judge(&mut self, network: &Network, k: u64, step: StepText) -> Result<Judged, AllocError>
        requires { network.now ≡ self.old.network }
        ensures network { self.new.network ≡ self.old.network }
        ensures ok { IfOk result (IsJudged self.old k (step_of step) self.new) }
        ensures err { OnErr result (self.new ≡ self.old) }
    {
        let Some(step) = in_range(network, step) else {
            return Ok(Judged::Range);
        };
        if !allowed(self, network, k, step) {
            return Ok(Judged::NotAllowed);
        }
        self.record(network, Event::Did(step))?;
        Ok(Judged::Done)
    }

    /// Goes to the first side of a split: its decision holds. The answer is whether the decision is in range; where it is
    /// not, all stays as it was. An `Err`, want of memory, leaves all as it was too.
    pub fn take(&mut self, network: &Network, decision: DecisionText) -> Result<bool, AllocError>
        requires { network.now ≡ self.old.network }
        ensures network { self.new.network ≡ self.old.network }
        ensures ok { IfOk result (IsDecided self.old (decision_of decision) (Took (decision_of decision)) self.new) }
        ensures err { OnErr result (self.new ≡ self.old) }
    {
        let Some(decision) = decision_in_range(network, decision) else {
            return Ok(false);
        };
        self.record(network, Event::Took(decision))?;
        Ok(true)
    }

    /// Goes to the second side of a split: its decision fails. The answer is whether the decision is in range; where it
    /// is not, all stays as it was. An `Err`, want of memory, leaves all as it was too.
    pub fn refuse(&mut self, network: &Network, decision: DecisionText) -> Result<bool, AllocError>
        requires { network.now ≡ self.old.network }
        ensures network { self.new.network ≡ self.old.network }
        ensures ok { IfOk result (IsDecided self.old (decision_of decision) (Refused (decision_of decision)) self.new) }
        ensures err { OnErr result (self.new ≡ self.old) }
    {
        let Some(decision) = decision_in_range(network, decision) else {
            return Ok(false);
        };
        self.record(network, Event::Refused(decision))?;
        Ok(true)
    }

    /// Whether a leaf may be closed here at the threshold `k`: the floor reaches it, or a variable has no live value.
    /// It takes constant time.
    pub fn can_close(&self, k: u64) -> bool
        ensures { IsTrue result ↔ CanClose self.now.network self.now.history k }
    {
        k as u128 <= self.floor() || self.is_wiped()
    }

    /// The floor. It may pass 2^64.
    pub fn floor(&self) -> u128
        ensures { result ≡ floor self.now.network self.now.history }
    {
        self.costs.floor()
    }

    /// How long the path is.
    pub fn mark(&self) -> Mark
        ensures { result.events ≡ length self.now.history }
    {
        Mark {
            events: self.trail.len(),
        }
    }

    /// Goes back to a mark on the path: the events behind it are undone, the newest first.
    pub fn undo(&mut self, network: &Network, mark: Mark)
        requires same { network.now ≡ self.old.network }
        requires mark { mark.events ≤ length self.old.history }
        ensures { self.new ≡ without (length self.old.history - mark.events) self.old }
    {
        for _event in mark.events..self.mark().events {
            self.undo_newest(network);
        }
    }

    /// The unary cost of a value. It may be below 0 where the value is not live.
    pub(crate) fn unary(&self, x: u32, value: u32) -> i128
        requires { IsValue self.now.network x value }
        ensures { result ≡ unary self.now.network self.now.history x value }
    {
        self.costs.unary(x, value)
    }

    /// Whether a value is live.
    pub(crate) fn is_live(&self, x: u32, value: u32) -> bool
        requires { IsValue self.now.network x value }
        ensures { result ≡ is_live self.now.history x value }
    {
        self.costs.is_live(x, value)
    }

    /// What was shifted at a slot of a function.
    pub(crate) fn shifted(&self, f: u32, slot: usize) -> i128
        requires function { f < length self.now.network.functions }
        requires slot { slot < slots (dims_at self.now.network f) }
        ensures value { result ≡ shifted self.now.network self.now.history f slot }
        ensures small { IsSlight (shifted self.now.network self.now.history f slot) }
    {
        self.costs.shifted(f, slot)
    }

    /// Nothing: its contract tells a caller that the residual cost of a tuple is its entry less what was shifted along it.
    pub(crate) fn law_differences(&self)
        ensures { (f : ℕ) (tuple : List ℕ) → Fits (dims_at self.now.network f) tuple
            → residual self.now.network self.now.history f tuple ≡ (residual self.now.network [] f tuple
            +ℤ neg_ℤ (along (λ n. shifted self.now.network self.now.history f n) 0 (dims_at self.now.network f) tuple)) }
    {
        let _ = &self.costs;
    }

    /// The residual cost of the tuple of a function with a number. It may be below 0 where the tuple is not live. It
    /// takes time for the function's places.
    pub(crate) fn residual(&self, network: &Network, f: u32, number: u32) -> i128
        requires same { network.now ≡ self.now.network }
        requires number { IsCell network.now f number }
        ensures { (tuple : List ℕ) → Fits (dims_at network.now f) tuple
            → cell (dims_at network.now f) tuple ≡ number
            → result ≡ residual network.now self.now.history f tuple }
    {
        network.law_limits();
        self.law_differences();
        let scope = network.scope(f);
        let mut residual = original(network, f, number);
        let mut slot = slots(network, scope);
        let mut front = number;
        for place in (0..scope.len()).rev() {
            let size = network.size(scope[place]);
            slot -= size as usize;
            residual -= self.shifted(f, slot + (front % size) as usize);
            front /= size;
        }
        residual
    }

    /// Whether the tuple of a function with a number is cut.
    pub(crate) fn is_cut(&self, f: u32, number: u32) -> bool
        requires { IsCell self.now.network f number }
        ensures { result ≡ is_cut self.now.history f number }
    {
        self.costs.is_cut(f, number)
    }

    /// Whether a variable has no live value.
    fn is_wiped(&self) -> bool
        ensures { IsTrue result ↔ IsWiped self.now.network self.now.history }
    {
        self.costs.is_wiped()
    }

    /// Makes an event. An `Err`, want of memory, leaves all as it was.
    pub(crate) fn record(&mut self, network: &Network, event: Event) -> Result<(), AllocError>
        requires same { network.now ≡ self.old.network }
        requires event { IsPossible network.now event }
        ensures ok { OnOk result (self.new ≡ with_event event self.old) }
        ensures err { OnErr result (self.new ≡ self.old) }
    {
        network.law_limits();
        if self.trail.len() >= Ledger::MOST {
            return Err(AllocError);
        }
        let fresh = self.is_fresh(event);
        self.costs.prepare(network, event)?;
        self.trail.push(Entry { event, fresh })?;
        self.costs.apply(network, event);
        Ok(())
    }

    /// Whether an event is no second cut of a tuple.
    fn is_fresh(&self, event: Event) -> bool
        requires { IsPossible self.now.network event }
        ensures { IsMarked event result self.now.history }
    {
        match event {
            Event::Did(Step::CutTuple { function, cell }) => !self.is_cut(function, cell),
            _ => true,
        }
    }

    /// Undoes the newest event.
    fn undo_newest(&mut self, network: &Network)
        requires same { network.now ≡ self.old.network }
        requires some { 0 < length self.old.history }
        ensures { self.new ≡ without 1 self.old }
    {
        network.law_limits();
        if let Some(entry) = self.trail.pop() {
            self.costs.revert(network, entry.event, entry.fresh);
        }
    }
}

/// The residual cost of a tuple before any event: the entry of a function of arity 0 is in the floor.
fn original(network: &Network, f: u32, cell: u32) -> i128
    requires { IsCell network.now f cell }
    ensures { result ≡ when (nat_lt 0 (arity network.now f)) (pos (slice_index (function_at network.now f).entries cell)) }
{
    if network.scope(f).is_empty() {
        0
    } else {
        network.entry(f, cell) as i128
    }
}
