//! The scan over the live tuples of a function with one value at one place, or one at each of two: the least, or the
//! greatest, residual cost.
//!
//! It goes down the scope: at each variable over its live values, with the number of the tuple and the sum of what was
//! moved away so far. A variable that has one value to stand takes no recursion, and neither does the last that has more:
//! the places behind it are one step, the same for each of its values, so that a row of a table is read in one plain loop.
//! The depth is that of the other open variables, of which there are at most 21. What is dead is never gone into.

ghost use Rattle.std.specs.Prelude.{◌≡◌, ℕ, ◌+◌, ◌<◌, ◌≤◌, true, List, [], ◌∷◌, length, slice_index, drop, Option, None, MatchOption, IfSome, IsSomeAnd};
ghost use Rattle.cfn_model.specs.Network.{Fits, cells, dims};
ghost use Rattle.cfn_scan.specs.declared.scan.Sense.{Sense as ScanSense};
ghost use Rattle.cfn_scan.specs.Scanning.{AsksNone, HasDigits, IsAt, IsSpot, IsInner, AreChoices, NoneMet, IsFound, IsSooner, gone_on, agrees, ended, key, found_in, IsBest, IsTail, IsLane};

use crate::rows::{Row, least_open};
use cfn_rows::LiveSets;
use std::slice;

/// Which residual cost is looked for.
#[derive(Clone, Copy)]
pub enum Sense {
    Least,
    Greatest,
}

/// Where a scan stands in a tuple: the number of what it has so far, the sum of what was moved away from it, modulo 2^64,
/// where the next place's values begin in the function's row, and the next place.
#[derive(Clone, Copy)]
pub struct Spot {
    pub cell: u32,
    pub shift: u64,
    pub offset: usize,
    pub place: usize,
}

/// What stands behind a place where each later place has one choice: how many tuples these places have, and where a scan
/// from their begin ends, with number 0 and nothing moved away before them.
#[derive(Clone, Copy)]
pub(crate) struct Tail {
    pub(crate) tuples: u32,
    pub(crate) end: Spot,
}

/// What was found of a row so far: the least key, and the number of a tuple that has it. Before there is one the key is the
/// greatest number.
#[derive(Clone, Copy)]
pub(crate) struct Best {
    pub(crate) key: u64,
    pub(crate) cell: Option<u32>,
}

impl Best {
    /// Nothing yet.
    #[inline(always)]
    pub(crate) fn none() -> Best
        ensures best { IsBest result }
        ensures some { 0 < result.key }
        ensures none { (sense : ScanSense) → found_in sense result ≡ None }
    {
        Best {
            key: u64::MAX,
            cell: None,
        }
    }
}

/// A residual cost, below 2^64, and the number of a tuple that has it.
#[derive(Clone, Copy)]
pub struct Extreme {
    pub cost: u64,
    pub cell: u32,
}

/// A place, and the value that is asked for there.
#[derive(Clone, Copy)]
pub struct Pin {
    pub place: usize,
    pub value: u32,
}

/// What a scan reads, and the values that are asked for at two places, which may be the same place.
#[derive(Drop)]
pub struct Scan<'a> {
    pub sizes: &'a [u32],
    pub table: &'a [u64],
    pub shifts: &'a [u64],
    pub flags: &'a [bool],
    pub live: &'a LiveSets,
    pub upper: u64,
    pub one: Pin,
    pub two: Pin,
    pub sense: Sense,
}

impl<'a> Scan<'a> {
    /// What stands first, from a place on, among the tuples whose values may stand there.
    pub fn first(&self, scope: &[u32], spot: Spot) -> Option<Extreme>
        requires { IsSpot self.now scope.now spot }
        ensures { MatchOption result (NoneMet self.now scope.now spot) (IsFound self.now scope.now spot) }
    {
        let (passed, spot) = self.forced(scope, spot);
        let behind = from(scope, passed);
        if behind.is_empty() {
            return self.here(spot);
        }
        if let Some(tail) = self.tail(behind, spot) {
            return self.row(behind, spot, tail);
        }
        let x = behind[0];
        let rest = from(behind, 1);
        let mut first = None;
        for value in self.choices(x, spot.place) {
            let found = self.first(rest, self.gone_on(spot, x, *value));
            first = self.sooner(first, found);
            if self.is_foremost(first) {
                return first;
            }
        }
        first
    }

    /// Whether what was found has the key 0, before which none stands.
    fn is_foremost(&self, found: Option<Extreme>) -> bool
        ensures { result ≡ true → IsSomeAnd found (λ extreme. key self.now.sense extreme.cost ≡ 0) }
    {
        match found {
            Some(extreme) => self.key(extreme.cost) == 0,
            None => false,
        }
    }

    /// What stands first of a row: over the values of the scope's first variable, where the places behind it are a tail. No
    /// key is below 0, so the rest of the row need not be read behind it.
    fn row(&self, scope: &[u32], spot: Spot, tail: Tail) -> Option<Extreme>
        requires some { 0 < length scope.now }
        requires spot { IsSpot self.now scope.now spot }
        requires tail { IsTail self.now (drop 1 scope.now) (spot.offset + slice_index self.now.sizes.now (slice_index scope.now 0)) (spot.place + 1) tail }
        ensures { MatchOption result (NoneMet self.now scope.now spot) (IsFound self.now scope.now spot) }
    {
        let x = scope[0];
        if self.is_lane(scope, spot) {
            return self.lane(x, spot);
        }
        let mut best = Best::none();
        for value in self.choices(x, spot.place) {
            let end = self.ended(self.gone_on(spot, x, *value), tail);
            best = self.better(best, end);
            if best.key == 0 {
                return self.found_in(best);
            }
        }
        self.found_in(best)
    }

    /// Whether the values of a scope's one variable are all to be looked at, for the least cost: then they lie together in the
    /// table, and in the function's row.
    pub(crate) fn is_lane(&self, scope: &[u32], spot: Spot) -> bool
        requires some { 0 < length scope.now }
        requires spot { IsSpot self.now scope.now spot }
        ensures { result ≡ true → IsLane self.now scope.now spot }
    {
        let place = spot.place;
        if scope.len() > 1 || place == self.one.place || place == self.two.place {
            return false;
        }
        let x = scope[0];
        match self.sense {
            Sense::Least => self.live.count(x) == self.sizes[x as usize],
            Sense::Greatest => false,
        }
    }

    /// What stands first of them.
    pub(crate) fn lane(&self, x: u32, spot: Spot) -> Option<Extreme>
        requires spot { IsSpot self.now (x ∷ []) spot }
        requires lane { IsLane self.now (x ∷ []) spot }
        ensures { MatchOption result (NoneMet self.now (x ∷ []) spot) (IsFound self.now (x ∷ []) spot) }
    {
        let size = self.sizes[x as usize];
        let first = spot.cell * size;
        let (begin, width) = (first as usize, size as usize);
        let row = Row {
            entries: &self.table[begin..begin + width],
            shifted: &self.shifts[spot.offset..spot.offset + width],
            cut: &self.flags[begin..begin + width],
            own: spot.shift,
            bound: self.upper,
        };
        let found = least_open(&row)?;
        Some(Extreme {
            cost: found.word,
            cell: first + found.place as u32,
        })
    }

    /// What stands first of what was found so far and the tuple that is complete, where that is met.
    #[inline(always)]
    pub(crate) fn better(&self, best: Best, end: Spot) -> Best
        requires spot { IsSpot self.now [] end }
        requires best { IsBest best }
        ensures best { IsBest result }
        ensures sooner { (other : Option Extreme) × MatchOption other (NoneMet self.now [] end) (IsFound self.now [] end)
            × IsSooner self.now.sense (found_in self.now.sense best) other (found_in self.now.sense result) }
    {
        self.better_of(best, self.here(end))
    }

    /// What stands first of what was found so far and another one, which is taken where both stand alike.
    #[inline(always)]
    pub(crate) fn better_of(&self, best: Best, other: Option<Extreme>) -> Best
        requires best { IsBest best }
        ensures best { IsBest result }
        ensures sooner { IsSooner self.now.sense (found_in self.now.sense best) other (found_in self.now.sense result) }
    {
        let Some(found) = other else {
            return best;
        };
        let key = self.key(found.cost);
        if key > best.key {
            return best;
        }
        Best {
            key,
            cell: Some(found.cell),
        }
    }

    /// The number that is least for the cost that stands first; its own number is the cost again.
    fn key(&self, cost: u64) -> u64
        ensures { result ≡ key self.now.sense cost }
    {
        match self.sense {
            Sense::Least => cost,
            Sense::Greatest => u64::MAX - cost,
        }
    }

    /// What was found.
    pub(crate) fn found_in(&self, best: Best) -> Option<Extreme>
        ensures { result ≡ found_in self.now.sense best }
    {
        let cell = best.cell?;
        let cost = self.key(best.key);
        Some(Extreme { cost, cell })
    }

    /// The tail behind the first place of a scope, where each later place has one choice.
    #[inline(always)]
    fn tail(&self, scope: &[u32], spot: Spot) -> Option<Tail>
        requires some { 0 < length scope.now }
        requires spot { IsSpot self.now scope.now spot }
        ensures { IfSome result (IsTail self.now (drop 1 scope.now) (spot.offset + slice_index self.now.sizes.now (slice_index scope.now 0)) (spot.place + 1)) }
    {
        let mut tuples: u32 = 1;
        let mut end = Spot {
            cell: 0,
            shift: 0,
            offset: spot.offset + self.sizes[scope[0] as usize] as usize,
            place: spot.place + 1,
        };
        let rest = from(scope, 1);
        for x in rest {
            let values = self.choices(*x, end.place);
            if values.len() != 1 {
                return None;
            }
            end = self.gone_on(end, *x, values[0]);
            tuples *= self.sizes[*x as usize];
        }
        Some(Tail { tuples, end })
    }

    /// Where the scan stands once it has gone on by a tail.
    fn ended(&self, spot: Spot, tail: Tail) -> Spot
        requires { IsSpot self.now [] (ended spot tail) }
        ensures { result ≡ ended spot tail }
    {
        Spot {
            cell: spot.cell * tail.tuples + tail.end.cell,
            shift: spot.shift.wrapping_add(tail.end.shift),
            offset: tail.end.offset,
            place: tail.end.place,
        }
    }

    /// Passes the places that have one choice, up to the first that has none or more: how many, and where the scan stands
    /// then.
    #[inline(always)]
    fn forced(&self, scope: &[u32], spot: Spot) -> (usize, Spot)
        requires { IsSpot self.now scope.now spot }
        ensures passed { result.0 ≤ length scope.now }
        ensures spot { IsSpot self.now (drop result.0 scope.now) result.1 }
        ensures none { NoneMet self.now (drop result.0 scope.now) result.1 → NoneMet self.now scope.now spot }
        ensures found { (found : Extreme) → IsFound self.now (drop result.0 scope.now) result.1 found → IsFound self.now scope.now spot found }
    {
        let mut passed = 0;
        let mut spot = spot;
        while passed < scope.len() {
            let x = scope[passed];
            let choices = self.choices(x, spot.place);
            if choices.len() != 1 {
                break;
            }
            spot = self.gone_on(spot, x, choices[0]);
            passed += 1;
        }
        (passed, spot)
    }

    /// The values that may stand at a place.
    #[inline(always)]
    pub(crate) fn choices(&self, x: u32, place: usize) -> &[u32]
        requires variable { x < length self.now.live.now.sizes }
        requires sizes { self.now.live.now.sizes ≡ self.now.sizes.now }
        requires one { place ≡ self.now.one.place → self.now.one.value < slice_index self.now.sizes.now x }
        requires two { place ≡ self.now.two.place → self.now.two.value < slice_index self.now.sizes.now x }
        ensures { AreChoices self.now place x result.now }
    {
        if place == self.one.place {
            if self.live.is_live(x, self.one.value) && agrees(self.two, place, self.one.value) {
                return slice::from_ref(&self.one.value);
            }
            &[]
        } else if place == self.two.place {
            if self.live.is_live(x, self.two.value) {
                return slice::from_ref(&self.two.value);
            }
            &[]
        } else {
            self.live.live(x)
        }
    }

    /// Where the scan stands once it has gone on by a value.
    pub(crate) fn gone_on(&self, spot: Spot, x: u32, value: u32) -> Spot
        requires { IsInner self.now x value spot }
        ensures { result ≡ gone_on self.now spot (slice_index self.now.sizes.now x) value }
    {
        let size = self.sizes[x as usize];
        Spot {
            cell: spot.cell * size + value,
            shift: spot
                .shift
                .wrapping_add(self.shifts[spot.offset + value as usize]),
            offset: spot.offset + size as usize,
            place: spot.place + 1,
        }
    }

    /// The tuple that is complete, where its entry is below the upper bound and it is not cut.
    pub(crate) fn here(&self, spot: Spot) -> Option<Extreme>
        requires { IsSpot self.now [] spot }
        ensures { MatchOption result (NoneMet self.now [] spot) (IsFound self.now [] spot) }
    {
        let entry = self.table[spot.cell as usize];
        if entry >= self.upper || self.flags[spot.cell as usize] {
            return None;
        }
        Some(Extreme {
            cost: entry.wrapping_sub(spot.shift),
            cell: spot.cell,
        })
    }

    /// The tuple with a number, of so many tuples in all, where it is met; no value is asked for at a place.
    pub fn at(&self, scope: &[u32], spot: Spot, tuples: u32, number: u32) -> Option<Extreme>
        requires spot { IsSpot self.now scope.now spot }
        requires tuples { tuples ≡ cells (dims self.now.sizes.now scope.now) }
        requires asks { AsksNone self.now scope.now spot }
        ensures { (rest : List ℕ) → Fits (dims self.now.sizes.now scope.now) rest
            → HasDigits (dims self.now.sizes.now scope.now) number rest → IsAt self.now scope.now spot rest result }
    {
        if scope.is_empty() {
            return self.here(spot);
        }
        let x = scope[0];
        let size = self.sizes[x as usize];
        let behind = tuples / size;
        let value = number / behind % size;
        if !self.live.is_live(x, value) {
            return None;
        }
        self.at(from(scope, 1), self.gone_on(spot, x, value), behind, number)
    }

    /// What stands first of two.
    fn sooner(&self, first: Option<Extreme>, other: Option<Extreme>) -> Option<Extreme>
        ensures { IsSooner self.now.sense first other result }
    {
        match (first, other) {
            (Some(a), Some(b)) => {
                let is_later = match self.sense {
                    Sense::Least => b.cost < a.cost,
                    Sense::Greatest => a.cost < b.cost,
                };
                if is_later { other } else { first }
            }
            (Some(_), None) => first,
            (None, _) => other,
        }
    }
}

/// Whether a value at a place is what is asked for there.
fn agrees(pin: Pin, place: usize, value: u32) -> bool
    ensures { result ≡ agrees pin place value }
{
    place != pin.place || value == pin.value
}

/// What a scope has from a place on.
fn from(scope: &[u32], place: usize) -> &[u32]
    requires { place ≤ length scope.now }
    ensures { result.now ≡ drop place scope.now }
{
    &scope[place..]
}
