//! The events along a path, and what they make of the network: each is undone as it was made.

ghost use Rattle.std.specs.Prelude.{◌≡◌, ℕ, ◌+◌, ◌<◌, ◌≤◌, ◌^◌, take, reverse, List, [], ◌∷◌, ◌++◌, length, IfOk, OnErr, OnOk, MatchOption, IsTrue};
ghost use Rattle.cfn_model.specs.declared.step.Event.{Event as PathEvent};
ghost use Rattle.cfn_model.specs.declared.step.Event.TheVariants.{Did};
ghost use Rattle.cfn_model.specs.Sums.{is_live, lifted};
ghost use Rattle.cfn_model.specs.Steps.{InRange, IsPlace};
ghost use Rattle.cfn_store.specs.Shelf.{on_shelf};
ghost use Rattle.cfn_scan.specs.Extremes.{NoneBetween, IsExtremeBetween, IsNumbered, IsTold};
ghost use Rattle.cfn_scan.specs.Reading.{MayAsk, Reads, start};
ghost use Rattle.cfn_scan.specs.Lines.{IsSide};
ghost use Rattle.cfn_scan.specs.Scanning.{IsSpot};
ghost use Rattle.cfn_model.specs.Network.{arity, cells, dims_at, scope_at, variable_at};
ghost use Rattle.cfn_scan.specs.Exact.{InPlace, IsExact, IsExactAlong};
ghost use Rattle.cfn_store.specs.Events.{with_first};
ghost use Rattle.cfn_store.specs.State.{Keeps, IsState, HasRoom, history_of};

use crate::cuts::Cuts;
use crate::peaks::{UNKNOWN, forget_changed};
use crate::shelf::Shelf;
use crate::sums::Sums;
use cfn_model::{Event, Step};
use cfn_net::Network;
use cfn_proof::Events;
use cfn_rows::LiveSets;
use cfn_scan::{Extreme, Pin, Scan, Sense, Side, Spot};
use std::alloc::{AllocError, Global};

/// A path of more events has no room in any memory.
const MOST_EVENTS: usize = 1 << 56;

#[derive(Drop)]
pub(crate) struct State {
    pub(crate) sums: Sums,
    pub(crate) live: LiveSets,
    pub(crate) cuts: Cuts,
    /// The greatest unary cost of each variable's live values, or that it is not known.
    pub(crate) peaks: Vec<u64>,
    /// The events, the oldest first.
    pub(crate) trail: Vec<Event>,
}

impl State {
    /// No event yet. An `Err` is want of memory.
    pub(crate) fn at_root(alloc: Global, network: &Network) -> Result<State, AllocError>
        ensures state { IfOk result (IsState network.now) }
        ensures trail { IfOk result (λ state. state.trail.items ≡ []) }
    {
        network.law_limits();
        Ok(State {
            sums: Sums::at_root(alloc, network)?,
            live: LiveSets::make(alloc, network.sizes())?,
            cuts: Cuts::at_root(alloc, network)?,
            peaks: vec![in alloc; UNKNOWN; network.variables() as usize]?,
            trail: Vec::new(alloc),
        })
    }

    /// Makes room for so many events in all. An `Err` is want of memory.
    pub(crate) fn reserve(&mut self, network: &Network, room: usize) -> Result<(), AllocError>
        requires { IsState network.now self.old }
        ensures state { IsState network.now self.new }
        ensures trail { self.new.trail.items ≡ self.old.trail.items }
        ensures ok { OnOk result (HasRoom room self.new) }
        ensures before { (less : ℕ) → HasRoom less self.old → HasRoom less self.new }
    {
        if room > MOST_EVENTS {
            return Err(AllocError);
        }
        self.live.reserve(room)?;
        self.cuts.fresh.reserve(room)?;
        self.trail.reserve(room)
    }

    /// The least, or the greatest, residual cost of the live tuples of `f` with the values that are asked for at two places.
    pub(crate) fn first(
        &self,
        network: &Network,
        shelf: &Shelf<'_>,
        f: u32,
        one: Pin,
        two: Pin,
        sense: Sense,
    ) -> Option<Extreme>
        requires state { IsState network.now self.now }
        requires shelf { on_shelf shelf.now ≡ network.now }
        requires one { IsPlace network.now f one.place one.value }
        requires two { IsPlace network.now f two.place two.value }
        ensures { MatchOption result (NoneBetween network.now (history_of self.now) f one.place one.value two.place two.value)
            (IsExtremeBetween network.now (history_of self.now) f one.place one.value two.place two.value sense) }
    {
        let scan = self.scan(network, shelf, f, one, two, sense);
        let scope = network.scope(f);
        if scope.len() == 3 {
            return scan.first_of_three(scope);
        }
        let start = Spot {
            cell: 0,
            shift: 0,
            offset: 0,
            place: 0,
        };
        scan.first(scope, start)
    }

    /// The tuple of `f` with a number, where it is live.
    pub(crate) fn at(
        &self,
        network: &Network,
        shelf: &Shelf<'_>,
        f: u32,
        number: u32,
    ) -> Option<Extreme>
        requires state { IsState network.now self.now }
        requires shelf { on_shelf shelf.now ≡ network.now }
        requires function { f < length network.now.functions }
        requires number { number < cells (dims_at network.now f) }
        ensures { (tuple : List ℕ) → IsNumbered network.now f number tuple → IsTold network.now (history_of self.now) f tuple result }
    {
        network.law_limits();
        let scope = network.scope(f);
        let pin = Pin {
            place: scope.len(),
            value: 0,
        };
        let scan = self.scan(network, shelf, f, pin, pin, Sense::Least);
        let start = Spot {
            cell: 0,
            shift: 0,
            offset: 0,
            place: 0,
        };
        scan.at(scope, start, scan.table.len() as u32, number)
    }

    /// The scan over these tuples.
    #[inline(always)]
    fn scan<'a>(
        &'a self,
        network: &'a Network,
        shelf: &'a Shelf<'_>,
        f: u32,
        one: Pin,
        two: Pin,
        sense: Sense,
    ) -> Scan<'a>
        requires state { IsState network.now self.now }
        requires shelf { on_shelf shelf.now ≡ network.now }
        requires function { f < length network.now.functions }
        requires one { MayAsk network.now f one }
        requires two { MayAsk network.now f two }
        ensures reads { Reads network.now (history_of self.now) f result }
        ensures one { result.one ≡ one }
        ensures two { result.two ≡ two }
        ensures sense { result.sense ≡ sense }
        ensures spot { IsSpot result (scope_at network.now f) start }
    {
        network.law_limits();
        let _ = network.scope(f);
        Scan {
            sizes: network.sizes(),
            table: shelf.table(network, f),
            shifts: self.sums.shifts.row(f as usize),
            flags: self.cuts.flags.row(f as usize),
            live: &self.live,
            upper: network.ub(),
            one,
            two,
            sense,
        }
    }

    /// A function of two variables, seen from a place.
    #[inline(always)]
    pub(crate) fn side<'a>(
        &'a self,
        network: &'a Network,
        shelf: &'a Shelf<'_>,
        f: u32,
        place: usize,
    ) -> Side<'a>
        requires state { IsState network.now self.now }
        requires shelf { on_shelf shelf.now ≡ network.now }
        requires function { f < length network.now.functions }
        requires two { arity network.now f ≡ 2 }
        requires place { place < 2 }
        ensures { (other : ℕ) → place + other ≡ 1 → IsSide network.now (history_of self.now) f place other result }
    {
        network.law_limits();
        let scope = network.scope(f);
        let pin = Pin { place, value: 0 };
        let scan = self.scan(network, shelf, f, pin, pin, Sense::Least);
        Side::of(&scan, scope[0], scope[1], place)
    }

    /// Goes on by an event.
    #[inline(always)]
    pub(crate) fn enter(&mut self, network: &Network, event: Event)
        requires state { IsState network.now self.old }
        requires exact { IsExact network.now (event ∷ history_of self.old) }
        requires room { (room : ℕ) × HasRoom room self.old × (length self.old.trail.items < room) }
        ensures state { IsState network.now self.new }
        ensures trail { self.new.trail.items ≡ self.old.trail.items ++ event ∷ [] }
        ensures room { (room : ℕ) → HasRoom room self.old → HasRoom room self.new }
    {
        law_lifted(event);
        self.change(network, event);
        forget_changed(&mut self.peaks, network, event);
        self.trail.push_reserved(event);
    }

    /// Goes back by the newest event.
    pub(crate) fn leave(&mut self, network: &Network)
        requires state { IsState network.now self.old }
        requires some { 0 < length self.old.trail.items }
        ensures state { IsState network.now self.new }
        ensures trail { (event : PathEvent) × (self.old.trail.items ≡ self.new.trail.items ++ event ∷ []) }
        ensures room { (room : ℕ) → HasRoom room self.old → HasRoom room self.new }
    {
        if let Some(event) = self.trail.pop() {
            self.change_back(network, event);
            forget_changed(&mut self.peaks, network, event);
        }
    }

    /// Goes back until so many events are left.
    pub(crate) fn go_back(&mut self, network: &Network, events: usize)
        requires state { IsState network.now self.old }
        requires fewer { events ≤ length self.old.trail.items }
        ensures state { IsState network.now self.new }
        ensures trail { self.new.trail.items ≡ take events self.old.trail.items }
        ensures room { (room : ℕ) → HasRoom room self.old → HasRoom room self.new }
    {
        while self.trail.len() > events {
            self.leave(network);
        }
    }

    /// Goes on by events, of which the first stands before the others.
    pub(crate) fn go_on(&mut self, network: &Network, first: Option<Event>, others: Events<'_>)
        requires state { IsState network.now self.old }
        requires exact { IsExactAlong network.now (reverse (self.old.trail.items ++ with_first first others)) }
        requires room { (room : ℕ) × HasRoom room self.old × (length (self.old.trail.items ++ with_first first others) ≤ room) }
        ensures state { IsState network.now self.new }
        ensures trail { self.new.trail.items ≡ self.old.trail.items ++ with_first first others.entry }
        ensures room { (room : ℕ) → HasRoom room self.old → HasRoom room self.new }
    {
        let mut next = first;
        let mut left = others;
        while let Some(event) = next {
            self.enter(network, event);
            next = left.next();
        }
    }

    /// Makes an event's changes.
    fn change(&mut self, network: &Network, event: Event)
        requires state { IsState network.now self.old }
        requires exact { IsExact network.now (event ∷ history_of self.old) }
        requires room { (room : ℕ) × HasRoom room self.old × (length self.old.trail.items < room) }
        ensures keeps { Keeps network.now (event ∷ history_of self.old) self.new }
        ensures trail { self.new.trail ≡ self.old.trail }
        ensures peaks { self.new.peaks ≡ self.old.peaks }
        ensures room { (room : ℕ) → HasRoom room self.old → HasRoom room self.new }
    {
        match event {
            Event::Did(step) => self.make(network, step),
            Event::Took(decision) => self.live.take(decision),
            Event::Refused(decision) => self.live.refuse(decision),
        }
    }

    /// Undoes an event's changes.
    fn change_back(&mut self, network: &Network, event: Event)
        requires place { InPlace network.now event }
        requires keeps { (history : List PathEvent) × Keeps network.now (event ∷ history) self.old }
        ensures keeps { (history : List PathEvent) → Keeps network.now (event ∷ history) self.old → Keeps network.now history self.new }
        ensures trail { self.new.trail ≡ self.old.trail }
        ensures peaks { self.new.peaks ≡ self.old.peaks }
        ensures room { (room : ℕ) → HasRoom room self.old → HasRoom room self.new }
    {
        match event {
            Event::Did(step) => self.unmake(network, step),
            Event::Took(_) | Event::Refused(_) => self.live.undo(),
        }
    }

    /// Makes a step's changes.
    fn make(&mut self, network: &Network, step: Step)
        requires state { IsState network.now self.old }
        requires exact { IsExact network.now (Did step ∷ history_of self.old) }
        requires room { (room : ℕ) × HasRoom room self.old × (length self.old.trail.items < room) }
        ensures keeps { Keeps network.now (Did step ∷ history_of self.old) self.new }
        ensures trail { self.new.trail ≡ self.old.trail }
        ensures peaks { self.new.peaks ≡ self.old.peaks }
        ensures room { (room : ℕ) → HasRoom room self.old → HasRoom room self.new }
    {
        network.law_limits();
        match step {
            Step::Project {
                function,
                place,
                value,
                amount,
            } => self.sums.give(network, function, place, value, amount),
            Step::Extend {
                function,
                place,
                value,
                amount,
            } => self.sums.take(network, function, place, value, amount),
            Step::Lift { variable, amount } => self.sums.lift(variable, amount),
            Step::CutValue { variable, value } => self.live.cut(variable, value),
            Step::CutTuple { function, cell } => self.cuts.cut(function, cell),
        }
    }

    /// Undoes a step's changes.
    fn unmake(&mut self, network: &Network, step: Step)
        requires range { InRange network.now step }
        requires keeps { (history : List PathEvent) × Keeps network.now (Did step ∷ history) self.old }
        ensures keeps { (history : List PathEvent) → Keeps network.now (Did step ∷ history) self.old → Keeps network.now history self.new }
        ensures trail { self.new.trail ≡ self.old.trail }
        ensures peaks { self.new.peaks ≡ self.old.peaks }
        ensures room { (room : ℕ) → HasRoom room self.old → HasRoom room self.new }
    {
        match step {
            Step::Project {
                function,
                place,
                value,
                amount,
            } => self.sums.take(network, function, place, value, amount),
            Step::Extend {
                function,
                place,
                value,
                amount,
            } => self.sums.give(network, function, place, value, amount),
            Step::Lift { variable, amount } => self.sums.sink(variable, amount),
            Step::CutValue { .. } => self.live.undo(),
            Step::CutTuple { function, cell } => self.cuts.undo(function, cell),
        }
    }
}

/// What an event lifts is a number of 64 bits.
fn law_lifted(event: Event)
    ensures { lifted event < 2 ^ 64 }
{
    match event {
        Event::Did(step) => match step {
            Step::Project { .. } | Step::Extend { .. } | Step::Lift { .. } => {}
            Step::CutValue { .. } | Step::CutTuple { .. } => {}
        },
        Event::Took(_) | Event::Refused(_) => {}
    }
}

/// How many events a trail has in common with those of a path, and the path's first event behind them. The path's events
/// are read up to that one.
pub(crate) fn in_common(trail: &[Event], path: &mut Events<'_>) -> (usize, Option<Event>)
    ensures within { result.0 ≤ length trail.now }
    ensures same { path.old ≡ take result.0 trail.now ++ with_first result.1 path.new }
{
    let mut common = 0;
    let mut next = path.next();
    while let Some(event) = next {
        if common == trail.len() || trail[common] != event {
            break;
        }
        common += 1;
        next = path.next();
    }
    (common, next)
}
