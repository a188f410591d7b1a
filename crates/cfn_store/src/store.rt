//! The store: what a path makes of a network, step by step and back.

ghost use Rattle.std.specs.Prelude.{◌≡◌, ℕ, ◌+◌, ◌-◌, ◌^◌, ◌<◌, ◌≤◌, false, List, [], ◌∷◌, length, reverse, slice_index, slice_index_or, pos, IsTrue, IfOk, IfSome, OnOk, OnErr, MatchOption};
ghost use Rattle.cfn_model.specs.declared.step.Step.{Step as PathStep};
ghost use Rattle.cfn_model.specs.declared.step.Step.TheVariants.{Project, Extend, Lift, CutValue, CutTuple};
ghost use Rattle.cfn_model.specs.declared.step.Event.TheVariants.{Did, Took, Refused};
ghost use Rattle.cfn_model.specs.Network.{Fits, arity, cell, variable_at};
ghost use Rattle.cfn_model.specs.Sums.{floor, unary, residual, is_live, is_live_tuple};
ghost use Rattle.cfn_model.specs.Steps.{IsValue, IsCell, IsPlace, IsDecision};
ghost use Rattle.cfn_model.specs.Paths.{RunsAlong, TameAlong};
ghost use Rattle.cfn_model.specs.Text.{IsSpelledStep};
ghost use Rattle.cfn_scan.specs.Exact.{IsExact, IsExactAlong};
ghost use Rattle.cfn_rows.specs.Sets.{AreLive, live_count};
ghost use Rattle.cfn_scan.specs.declared.scan.Sense.TheVariants.{Least, Greatest};
ghost use Rattle.cfn_scan.specs.Extremes.{NonePicked, IsExtreme, NoneBetween, IsLeastBetween, IsFree, IsNumbered};
ghost use Rattle.cfn_scan.specs.Lines.{IsLine, IsSide};
ghost use Rattle.cfn_store.specs.Doubts.{AreFreeBetween, AreFreeFrom, IsDoubt, IsLacking, IsSeen};
ghost use Rattle.cfn_scan.specs.Unaries.{AreUnaries};
ghost use Rattle.cfn_store.specs.Peaks.{HasPeak, AreLow};
ghost use Rattle.cfn_store.specs.Shelf.{on_shelf};
ghost use Rattle.cfn_store.specs.Rooms.{sets_of};
ghost use Rattle.cfn_store.specs.Marking.{IsBehind, back_at};
ghost use Rattle.cfn_store.specs.Standing.{history, at_root, with_step, with_side, FitsProject, FitsExtend, FitsLift};

use crate::block::{block_from, step_from};
use crate::mark::Mark;
use crate::shelf::Shelf;
use crate::state::{State, in_common};
use crate::supports::{Doubt, Supports, keep, row_of};
use cfn_model::{Decision, Event, Step};
use cfn_net::{Network, Tables};
use cfn_proof::{Block, Events, Path};
use cfn_scan::{Extreme, Line, Nearest, Pin, Sense, Side, Unaries};
use std::alloc::{AllocError, Global};
use std::marker::Model;

/// What the events along a path make of a network: the floor, the unary and residual costs, and what is live. Contracts
/// see the network, the events up to the newest decision, the steps since, and for how many more there is room.
///
/// Only `build`, `over`, `reserve`, `replay` and `block` take memory. Costs of what is dead are kept modulo 2^64.
#[derive(Drop)]
pub struct Store<'n> {
    network: &'n Network,
    /// The tables for which the network has none.
    tables: Shelf<'n>,
    state: State,
    /// How many events stand before the steps since the newest decision.
    base: usize,
    /// For how many events there is room in all.
    room: usize,
    /// Where values cost nothing last; there is none while a call has taken them out.
    supports: Option<Box<Supports>>,
}

impl<'n> Model for Store<'n> {
    ghost use Rattle.std.specs.Prelude.{◌≡◌, ◌-◌, length, reverse, take, drop};
    ghost use Rattle.cfn_store.specs.Standing.{Standing};
    ghost use Rattle.cfn_store.specs.Events.{steps_in};
    ghost use Rattle.cfn_store.specs.Kept.{IsStore};
    ghost use Rattle.cfn_store.specs.Shelf.{on_shelf};

    ghost Value = { Standing };

    ghost view = { λ s. record {
      network = s.network.now;
      base = reverse (take s.base s.state.trail.items);
      block = steps_in (drop s.base s.state.trail.items);
      spare = s.room - length s.state.trail.items;
    } };

    ghost invariant = { λ s. IsStore s.network.now s.base s.room s.state × (on_shelf s.tables ≡ s.network.now) };
}

impl<'n> Store<'n> {
    /// The store of a network at its root, with room for no step. An `Err` is want of memory.
    pub fn build(alloc: Global, network: &'n Network) -> Result<Store<'n>, AllocError>
        ensures { IfOk result (λ store. store ≡ at_root network.now) }
    {
        let tables = Shelf::Own(Tables::expand(alloc, network)?);
        Store::on(alloc, network, tables)
    }

    /// The same, over tables of the network that other stores may have too.
    pub fn over(
        alloc: Global,
        network: &'n Network,
        tables: &'n Tables,
    ) -> Result<Store<'n>, AllocError>
        requires { tables.now ≡ network.now }
        ensures { IfOk result (λ store. store ≡ at_root network.now) }
    {
        Store::on(alloc, network, Shelf::Lent(tables))
    }

    fn on(alloc: Global, network: &'n Network, tables: Shelf<'n>) -> Result<Store<'n>, AllocError>
        requires { on_shelf tables ≡ network.now }
        ensures { IfOk result (λ store. store ≡ at_root network.now) }
    {
        Ok(Store {
            network,
            tables,
            state: State::at_root(alloc, network)?,
            base: 0,
            room: 0,
            supports: Some(Box::new(alloc, Supports::make(alloc, network)?)?),
        })
    }

    /// Makes room for `turns` steps and decisions. An `Err` is want of memory. Either way the events are as they were,
    /// and there is no less room.
    pub fn reserve(&mut self, turns: usize) -> Result<(), AllocError>
        ensures network { self.new.network ≡ self.old.network }
        ensures base { self.new.base ≡ self.old.base }
        ensures block { self.new.block ≡ self.old.block }
        ensures ok { OnOk result (turns ≤ self.new.spare) }
        ensures more { self.old.spare ≤ self.new.spare }
    {
        let room = self.state.trail.len().checked_add(turns).ok_or(AllocError)?;
        if self.room < room {
            self.state.reserve(self.network, room)?;
            self.room = room;
        }
        Ok(())
    }

    /// Moves an amount from each tuple of `f` with `value` at `place` to that value's unary cost (Cooper et al. 2010,
    /// project).
    pub fn project(&mut self, f: u32, place: u32, value: u32, amount: u64)
        requires room { 0 < self.old.spare }
        requires fits { FitsProject self.old f place value amount }
        ensures { self.new ≡ with_step self.old (Project f place value amount) }
    {
        self.law_exact();
        self.make(Step::Project {
            function: f,
            place,
            value,
            amount,
        });
    }

    /// Moves an amount from a value's unary cost to each tuple of `f` with it at `place` (extend).
    pub fn extend(&mut self, f: u32, place: u32, value: u32, amount: u64)
        requires room { 0 < self.old.spare }
        requires fits { FitsExtend self.old f place value amount }
        ensures { self.new ≡ with_step self.old (Extend f place value amount) }
    {
        self.law_exact();
        self.make(Step::Extend {
            function: f,
            place,
            value,
            amount,
        });
    }

    /// Moves an amount from the unary cost of each value of `x` to the floor (unary project).
    pub fn lift(&mut self, x: u32, amount: u64)
        requires room { 0 < self.old.spare }
        requires fits { FitsLift self.old x amount }
        ensures { self.new ≡ with_step self.old (Lift x amount) }
    {
        self.law_exact();
        self.make(Step::Lift {
            variable: x,
            amount,
        });
    }

    /// Takes a value from its variable.
    pub fn cut_value(&mut self, x: u32, value: u32)
        requires room { 0 < self.old.spare }
        requires value { IsValue self.old.network x value }
        ensures { self.new ≡ with_step self.old (CutValue x value) }
    {
        self.law_exact();
        self.make(Step::CutValue { variable: x, value });
    }

    /// Takes a tuple from its function.
    pub fn cut_tuple(&mut self, f: u32, cell: u32)
        requires room { 0 < self.old.spare }
        requires cell { IsCell self.old.network f cell }
        ensures { self.new ≡ with_step self.old (CutTuple f cell) }
    {
        self.law_exact();
        self.make(Step::CutTuple { function: f, cell });
    }

    /// Goes to the first side of a split, where the decision holds.
    pub fn take(&mut self, decision: Decision)
        requires room { 0 < self.old.spare }
        requires decision { IsDecision self.old.network decision }
        ensures { self.new ≡ with_side self.old (Took decision) }
    {
        self.law_exact();
        self.turn(Event::Took(decision));
    }

    /// Goes to the second side of a split, where the decision fails.
    pub fn refuse(&mut self, decision: Decision)
        requires room { 0 < self.old.spare }
        requires decision { IsDecision self.old.network decision }
        ensures { self.new ≡ with_side self.old (Refused decision) }
    {
        self.law_exact();
        self.turn(Event::Refused(decision));
    }

    /// The network that the store was built from.
    pub fn network(&self) -> &'n Network
        ensures { result.now ≡ self.now.network }
    {
        self.network
    }

    /// How many steps were made since the newest decision or replay.
    pub fn block_len(&self) -> usize
        ensures { result ≡ length self.now.block }
    {
        self.state.trail.len() - self.base
    }

    /// One of the steps since the newest decision or replay, numbered from 0, the oldest first.
    pub fn step(&self, i: usize) -> Step
        requires { i < length self.now.block }
        ensures { (other : PathStep) → slice_index_or self.now.block i other ≡ result }
    {
        step_from(&self.state.trail, self.base, i)
    }

    /// The steps since the newest decision or replay, as a block. An `Err` is want of memory.
    pub fn block(&self, alloc: Global) -> Result<Block, AllocError>
        ensures { IfOk result (λ block. block ≡ self.now.block) }
    {
        block_from(alloc, &self.state.trail, self.base)
    }

    /// The floor: a lower bound on the cost of every assignment that agrees with the decisions.
    pub fn floor(&self) -> u128
        ensures { result ≡ floor self.now.network (history self.now) }
    {
        self.state.sums.floor
    }

    /// The unary cost of a value; of one that is not live it is modulo 2^64.
    pub fn unary(&self, x: u32, value: u32) -> u64
        requires { IsValue self.now.network x value }
        ensures { IsTrue (is_live (history self.now) x value) → pos result ≡ unary self.now.network (history self.now) x value }
    {
        self.unaries(x).of(value)
    }

    /// The unary costs of a variable's values.
    pub fn unaries(&self, x: u32) -> Unaries<'_>
        requires { x < length self.now.network.sizes }
        ensures { AreUnaries self.now.network (history self.now) x result }
    {
        self.state.sums.unaries(x)
    }

    /// Whether a value is live.
    pub fn is_live(&self, x: u32, value: u32) -> bool
        requires { IsValue self.now.network x value }
        ensures { result ≡ is_live (history self.now) x value }
    {
        self.state.live.is_live(x, value)
    }

    /// The first variable from `from` on of which it is not known that one of its live values costs nothing, and each less than
    /// `bound`; where all others are known to be so, the number of variables, or `from` where that is greater.
    pub fn next_unknown_peak(&self, from: u32, bound: u64) -> u32
        ensures from { from ≤ result }
        ensures known { AreLow self.now.network (history self.now) from result bound }
    {
        self.network.law_limits();
        let peaks = &self.state.peaks;
        let mut x = from;
        while (x as usize) < peaks.len() && peaks[x as usize] < bound {
            x += 1;
        }
        x
    }

    /// Remembers that one of the live values of a variable costs nothing, and none more than `peak`, until an event changes one of its
    /// costs or values. No contract but that of `next_unknown_peak` tells of it.
    pub fn note_peak(&mut self, x: u32, peak: u64)
        requires variable { x < length self.old.network.sizes }
        requires peak { HasPeak self.old.network (history self.old) x peak }
        ensures { self.new ≡ self.old }
    {
        self.state.peaks[x as usize] = peak;
    }

    /// How many values of a variable are live.
    pub fn count(&self, x: u32) -> u32
        requires { x < length self.now.network.sizes }
        ensures { result ≡ live_count (sets_of self.now) x }
    {
        self.state.live.count(x)
    }

    /// The live values of a variable, each once, in any order.
    pub fn live(&self, x: u32) -> &[u32]
        requires { x < length self.now.network.sizes }
        ensures { AreLive (sets_of self.now) x result.now }
    {
        self.state.live.live(x)
    }

    /// The residual cost of the tuple of `f` with the number `cell`, below 2^64; 0 where the tuple is not live, and where `f`
    /// has no variable. The last variable's value runs fastest in a tuple's number. It takes no memory.
    pub fn residual(&self, f: u32, cell: u32) -> u64
        requires { IsCell self.now.network f cell }
        ensures live { (tuple : List ℕ) → IsNumbered self.now.network f cell tuple
            → IsTrue (is_live_tuple self.now.network (history self.now) f tuple)
            → residual self.now.network (history self.now) f tuple ≡ pos result }
        ensures dead { (tuple : List ℕ) → IsNumbered self.now.network f cell tuple
            → is_live_tuple self.now.network (history self.now) f tuple ≡ false → result ≡ 0 }
    {
        self.network.law_limits();
        if self.network.scope(f).is_empty() {
            return 0;
        }
        match self.state.at(self.network, &self.tables, f, cell) {
            Some(found) => found.cost,
            None => 0,
        }
    }

    /// Whether the tuple of `f` with the number `cell` is live: its values are, its entry is below the upper bound, and it is
    /// not cut. It takes no memory.
    pub fn is_live_cell(&self, f: u32, cell: u32) -> bool
        requires { IsCell self.now.network f cell }
        ensures { (tuple : List ℕ) → IsNumbered self.now.network f cell tuple
            → result ≡ is_live_tuple self.now.network (history self.now) f tuple }
    {
        self.state.at(self.network, &self.tables, f, cell).is_some()
    }

    /// The least residual cost of the live tuples of `f` with `value` at `place`, and a tuple that has it. There is none
    /// exactly where no such tuple is live.
    pub fn least_residual(&self, f: u32, place: u32, value: u32) -> Option<Extreme>
        requires { IsPlace self.now.network f place value }
        ensures { MatchOption result (NonePicked self.now.network (history self.now) f place value)
            (IsExtreme self.now.network (history self.now) f place value Least) }
    {
        self.network.law_limits();
        if self.network.scope(f).len() == 2 {
            let other = 1 - place;
            if let Some(line) = self.line(f, place, value, other) {
                return self.least_along(f, place, value, other, &line).0;
            }
        }
        self.least_of_all(f, place, value)
    }

    /// The same, along a line, and the other value of that tuple.
    #[inline]
    fn least_along(
        &self,
        f: u32,
        place: u32,
        value: u32,
        other: u32,
        line: &Line<'_>,
    ) -> (Option<Extreme>, u32)
        requires other { other < arity self.now.network f }
        requires line { IsLine self.now.network (history self.now) f place value other line.now }
        ensures { MatchOption result.0 (NonePicked self.now.network (history self.now) f place value)
            (IsExtreme self.now.network (history self.now) f place value Least) }
    {
        self.network().law_limits();
        let y = self.network().scope(f)[other as usize];
        let mut nearest = Nearest::none();
        for value in self.live(y) {
            nearest = nearest.or(line.least(*value), *value);
            if nearest.costs_nothing() {
                return (nearest.tuple(), nearest.value);
            }
        }
        (nearest.tuple(), nearest.value)
    }

    /// The same, by a scan.
    fn least_of_all(&self, f: u32, place: u32, value: u32) -> Option<Extreme>
        requires { IsPlace self.now.network f place value }
        ensures { MatchOption result (NonePicked self.now.network (history self.now) f place value)
            (IsExtreme self.now.network (history self.now) f place value Least) }
    {
        let pin = Pin {
            place: place as usize,
            value,
        };
        self.state
            .first(self.network, &self.tables, f, pin, pin, Sense::Least)
    }

    /// The first live value at a place of `f`, from `from` on, with which no live tuple costs nothing, and the tuple that costs
    /// least. In a function of two variables a tuple that cost nothing last is looked at first, and where a value costs nothing
    /// now is kept for the next time. It takes no memory.
    pub fn next_lacking(&mut self, f: u32, place: u32, from: u32) -> Option<Doubt>
        requires function { f < length self.old.network.functions }
        requires place { place < arity self.old.network f }
        ensures lacking { MatchOption result (AreFreeFrom self.old.network (history self.old) f place from) (IsLacking self.old.network (history self.old) f place from) }
        ensures same { self.new ≡ self.old }
    {
        let mut supports = self.supports.take();
        let found = match self.side(f, place) {
            Some(side) => self.lacking_along(&side, &mut supports, f, place, from),
            None => self.lacking_apart(f, place, from),
        };
        self.supports = supports;
        found
    }

    /// The same in a function of two variables, with supports that were taken out of the store meanwhile.
    #[inline]
    fn lacking_along(
        &self,
        side: &Side<'_>,
        supports: &mut Option<Box<Supports>>,
        f: u32,
        place: u32,
        from: u32,
    ) -> Option<Doubt>
        requires function { f < length self.now.network.functions }
        requires place { place < arity self.now.network f }
        requires side { IsSeen self.now f place side.now }
        ensures { MatchOption result (AreFreeFrom self.now.network (history self.now) f place from) (IsLacking self.now.network (history self.now) f place from) }
    {
        self.network().law_limits();
        let mut from = from;
        while let Some(doubt) = self.next_in_doubt(
            side,
            row_of(supports, f, place),
            f,
            place,
            from,
        ) {
            match doubt.least {
                Some(extreme) if extreme.cost == 0 => keep(supports, f, place, doubt),
                _ => return Some(doubt),
            }
            from = doubt.value + 1;
        }
        None
    }

    /// The same in any function, by a scan for each value.
    fn lacking_apart(&self, f: u32, place: u32, from: u32) -> Option<Doubt>
        requires function { f < length self.now.network.functions }
        requires place { place < arity self.now.network f }
        ensures { MatchOption result (AreFreeFrom self.now.network (history self.now) f place from) (IsLacking self.now.network (history self.now) f place from) }
    {
        let network = self.network();
        network.law_limits();
        let x = network.scope(f)[place as usize];
        let mut value = from;
        while value < network.size(x) {
            if self.is_live(x, value) {
                match self.least_of_all(f, place, value) {
                    Some(extreme) if extreme.cost == 0 => {}
                    least => {
                        return Some(Doubt {
                            value,
                            least,
                            other: 0,
                        });
                    }
                }
            }
            value += 1;
        }
        None
    }

    /// The first live value there of which it is not known that a tuple with it costs nothing, and the tuple that costs least.
    #[inline]
    fn next_in_doubt(
        &self,
        side: &Side<'_>,
        known: &[u32],
        f: u32,
        place: u32,
        from: u32,
    ) -> Option<Doubt>
        requires function { f < length self.now.network.functions }
        requires place { place < arity self.now.network f }
        requires side { IsSeen self.now f place side.now }
        ensures { MatchOption result (AreFreeFrom self.now.network (history self.now) f place from) (IsDoubt self.now.network (history self.now) f place from) }
    {
        let network = self.network();
        network.law_limits();
        let value = self.next_unknown(side, known, f, place, from);
        if value >= network.size(network.scope(f)[place as usize]) {
            return None;
        }
        let (least, other) = self.least_seen(side, f, place, value);
        Some(Doubt {
            value,
            least,
            other,
        })
    }

    /// The least residual cost of the live tuples with a live value, and the other value of a tuple that has it.
    #[inline]
    fn least_seen(&self, side: &Side<'_>, f: u32, place: u32, value: u32) -> (Option<Extreme>, u32)
        requires place { IsPlace self.now.network f place value }
        requires live { IsTrue (is_live (history self.now) (variable_at self.now.network f place) value) }
        requires side { IsSeen self.now f place side.now }
        ensures { MatchOption result.0 (NonePicked self.now.network (history self.now) f place value)
            (IsExtreme self.now.network (history self.now) f place value Least) }
    {
        self.least_along(f, place, value, 1 - place, &side.line(value))
    }

    /// The first live value there, from `from` on, of which the tuple that cost nothing last does not do so now, or no value.
    #[inline]
    fn next_unknown(&self, side: &Side<'_>, known: &[u32], f: u32, place: u32, from: u32) -> u32
        requires function { f < length self.now.network.functions }
        requires place { place < arity self.now.network f }
        requires side { IsSeen self.now f place side.now }
        ensures from { from ≤ result }
        ensures live { IsPlace self.now.network f place result → IsTrue (is_live (history self.now) (variable_at self.now.network f place) result) }
        ensures passed { AreFreeBetween self.now.network (history self.now) f place from result }
    {
        self.network.law_limits();
        let x = self.network.scope(f)[place as usize];
        let size = self.network.size(x);
        let mut value = from;
        while value < size {
            if self.is_live(x, value) && !self.is_known(side, known, f, place, value) {
                return value;
            }
            value += 1;
        }
        value
    }

    /// Whether a live value costs nothing together with the other value with which it did so last.
    #[inline]
    fn is_known(&self, side: &Side<'_>, known: &[u32], f: u32, place: u32, value: u32) -> bool
        requires place { IsPlace self.now.network f place value }
        requires live { IsTrue (is_live (history self.now) (variable_at self.now.network f place) value) }
        requires side { IsSeen self.now f place side.now }
        ensures { IsTrue result → IsFree self.now.network (history self.now) f place value }
    {
        self.network().law_limits();
        let Some(last) = known.get(value as usize) else {
            return false;
        };
        if !self.is_live_number(side.other(), *last) {
            return false;
        }
        match side.line(value).least(*last) {
            Some(extreme) => extreme.cost == 0,
            None => false,
        }
    }

    /// Whether a number is a live value of a variable.
    #[inline]
    fn is_live_number(&self, x: u32, value: u32) -> bool
        requires { x < length self.now.network.sizes }
        ensures { IsTrue result → IsValue self.now.network x value × IsTrue (is_live (history self.now) x value) }
    {
        self.network.law_limits();
        value < self.network.size(x) && self.is_live(x, value)
    }

    /// For the values at a place of `f`, from value 0 on, numbers of values with which they cost nothing last, where `f` has two
    /// variables. Nothing is promised of them, and there may be none: they tell where to look first.
    pub fn last_supports(&self, f: u32, place: u32) -> &[u32]
        requires function { f < length self.now.network.functions }
        requires place { place < arity self.now.network f }
    {
        row_of(&self.supports, f, place)
    }

    /// The greatest residual cost of these tuples.
    pub fn greatest_residual(&self, f: u32, place: u32, value: u32) -> Option<Extreme>
        requires { IsPlace self.now.network f place value }
        ensures { MatchOption result (NonePicked self.now.network (history self.now) f place value)
            (IsExtreme self.now.network (history self.now) f place value Greatest) }
    {
        let pin = Pin {
            place: place as usize,
            value,
        };
        self.state
            .first(self.network, &self.tables, f, pin, pin, Sense::Greatest)
    }

    /// The least residual cost of the live tuples of `f` with `value` at `place` and `other_value` at `other`, and the
    /// number of one that has it. There is none exactly where no such tuple is live; so too where the places are the same
    /// and the values are not.
    pub fn least_between(
        &self,
        f: u32,
        place: u32,
        value: u32,
        other: u32,
        other_value: u32,
    ) -> Option<Extreme>
        requires one { IsPlace self.now.network f place value }
        requires two { IsPlace self.now.network f other other_value }
        ensures { MatchOption result (NoneBetween self.now.network (history self.now) f place value other other_value)
            (IsLeastBetween self.now.network (history self.now) f place value other other_value) }
    {
        let one = Pin {
            place: place as usize,
            value,
        };
        let two = Pin {
            place: other as usize,
            value: other_value,
        };
        self.state
            .first(self.network, &self.tables, f, one, two, Sense::Least)
    }

    /// A function of two variables, seen from a place; `None` where `f` has another number of variables. No clause says
    /// that it is so only there.
    #[inline(always)]
    pub fn side(&self, f: u32, place: u32) -> Option<Side<'_>>
        requires function { f < length self.now.network.functions }
        requires place { place < arity self.now.network f }
        ensures { IfSome result (λ side. (arity self.now.network f ≡ 2)
            × ((other : ℕ) → other < arity self.now.network f → (place ≡ other → ⊥) → IsSide self.now.network (history self.now) f place other side)) }
    {
        self.network.law_limits();
        if self.network.scope(f).len() != 2 {
            return None;
        }
        Some(
            self.state
                .side(self.network, &self.tables, f, place as usize),
        )
    }

    /// The tuples of `f`, a function of two variables, with a live `value` at `place`, along the other variable's
    /// values. Where `None` is answered is in no clause.
    #[inline]
    pub fn line(&self, f: u32, place: u32, value: u32, other: u32) -> Option<Line<'_>>
        requires place { IsPlace self.now.network f place value }
        requires other { other < arity self.now.network f }
        requires different { place ≡ other → ⊥ }
        ensures { IfSome result (IsLine self.now.network (history self.now) f place value other) }
    {
        self.network.law_limits();
        if !self.is_live(self.network.scope(f)[place as usize], value) {
            return None;
        }
        Some(self.side(f, place)?.line(value))
    }

    /// Goes from wherever the store stands to the end of a path: back to where the two part, and on from there. An `Err`,
    /// want of memory, leaves all as it was but for room.
    pub fn replay(&mut self, path: &Path) -> Result<(), AllocError>
        requires runs { (k : ℕ) × RunsAlong self.old.network path.now k }
        requires tame { TameAlong self.old.network path.now }
        ensures network { self.new.network ≡ self.old.network }
        ensures ok { OnOk result ((self.new.base ≡ path.now) × (self.new.block ≡ [])) }
        ensures err { OnErr result ((self.new.base ≡ self.old.base) × (self.new.block ≡ self.old.block)) }
    {
        self.network().law_limits();
        let Some(len) = path.len() else {
            return Err(AllocError);
        };
        self.reserve(len)?;
        self.go_along(path.events());
        Ok(())
    }

    /// Goes to the end of events, where there is room for all of them.
    fn go_along(&mut self, events: Events<'_>)
        requires exact { IsExactAlong self.old.network (reverse events) }
        requires room { length events ≤ self.old.spare }
        ensures network { self.new.network ≡ self.old.network }
        ensures base { self.new.base ≡ reverse events.entry }
        ensures block { self.new.block ≡ [] }
    {
        let mut left = events;
        let (common, next) = in_common(&self.state.trail, &mut left);
        self.state.go_back(self.network, common);
        self.state.go_on(self.network, next, left);
        self.base = self.state.trail.len();
    }

    /// Where the store stands. It takes no memory.
    pub fn mark(&self) -> Mark<'n>
        ensures { result ≡ self.now }
    {
        Mark::of(self, self.state.trail.len(), self.base)
    }

    /// Goes back to a mark: all is as it was there, what is live included. It takes no memory.
    pub fn undo(&mut self, mark: &Mark<'n>)
        requires { IsBehind mark.now self.old }
        ensures { self.new ≡ back_at mark.now self.old }
    {
        let (events, base) = mark.places();
        self.state.go_back(self.network, events);
        self.base = base;
    }

    /// Costs of what is live are exact along the path.
    pub fn law_exact(&self)
        ensures { IsExactAlong self.now.network (history self.now) }
    {
        let _ = &self.state;
    }

    /// Goes on by a step.
    fn make(&mut self, step: Step)
        requires room { 0 < self.old.spare }
        requires exact { IsExact self.old.network (Did step ∷ history self.old) }
        requires spelled { IsSpelledStep step }
        ensures { self.new ≡ with_step self.old step }
    {
        self.state.enter(self.network, Event::Did(step));
    }

    /// Goes to a side of a split.
    fn turn(&mut self, side: Event)
        requires room { 0 < self.old.spare }
        requires exact { IsExact self.old.network (side ∷ history self.old) }
        ensures { self.new ≡ with_side self.old side }
    {
        self.state.enter(self.network, side);
        self.base = self.state.trail.len();
    }
}
