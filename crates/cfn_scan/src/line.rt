//! Functions of two variables: the tuples that have one value at one place, one for each value of the other variable.
//!
//! What a function's tuples need is looked up once for a place, so that a loop over the values there, and over the
//! other variable's, reads at most a table entry, a flag and a shift for each of them (the "delta costs" of binary cost
//! functions in toulbar2).

ghost use Rattle.std.specs.Prelude.{◌≡◌, ℕ, ◌+◌, ◌<◌, List, [], ◌∷◌, true, MatchOption, IsSomeAnd, None};
ghost use Rattle.cfn_model.specs.declared.step.Event.{Event};
ghost use Rattle.cfn_model.specs.Network.{Network, variable_at};
ghost use Rattle.cfn_scan.specs.Extremes.{NoneBetween, IsLeastBetween};
ghost use Rattle.cfn_scan.specs.Reading.{start};
ghost use Rattle.cfn_scan.specs.declared.scan.Sense.TheVariants.{Least};
ghost use Rattle.cfn_scan.specs.Scanning.{IsSooner, IsSpot};
ghost use Rattle.cfn_model.specs.Steps.{IsPlace};
ghost use Rattle.cfn_scan.specs.Lines.{IsAlong, IsSideOf, IsSide, line_of};
ghost use Rattle.cfn_scan.specs.Nearest.{tuple_of};

use crate::scan::{Extreme, Scan};

/// A function of two variables, seen from one of its places.
#[derive(Drop)]
pub struct Side<'a> {
    table: &'a [u64],
    flags: &'a [bool],
    /// What was moved away from the tuples with each value at this place, and with each value at the other one.
    own: &'a [u64],
    others: &'a [u64],
    upper: u64,
    /// How far the numbers of tuples are apart whose values at this place, or at the other one, are neighbours.
    step: u32,
    stride: u32,
    /// The variable at the other place.
    other: u32,
}

impl<'a> Side<'a> {
    /// What a scan over a function's two variables reads, seen from a place.
    #[inline(always)]
    pub fn of(scan: &Scan<'a>, first: u32, second: u32, place: usize) -> Side<'a>
        requires spot { IsSpot scan.now (first ∷ second ∷ []) start }
        requires place { place < 2 }
        ensures { IsSideOf scan.now first second place result }
    {
        let width = scan.sizes[second as usize];
        let (front, behind) = scan.shifts.split_at(scan.sizes[first as usize] as usize);
        if place == 0 {
            Side {
                table: scan.table,
                flags: scan.flags,
                own: front,
                others: behind,
                upper: scan.upper,
                step: width,
                stride: 1,
                other: second,
            }
        } else {
            Side {
                table: scan.table,
                flags: scan.flags,
                own: behind,
                others: front,
                upper: scan.upper,
                step: 1,
                stride: width,
                other: first,
            }
        }
    }

    /// The variable at the other place.
    pub fn other(&self) -> u32
        ensures { (P : Network) (history : List Event) (f i j : ℕ) → IsSide P history f i j self.now → result ≡ variable_at P f j }
    {
        self.other
    }

    /// The tuples with a live value at this place.
    #[inline]
    pub fn line(&self, value: u32) -> Line<'a>
        requires { (P : Network) × (history : List Event) × (f : ℕ) × (i : ℕ) × (j : ℕ) × IsSide P history f i j self.now × IsPlace P f i value }
        ensures { result ≡ line_of self.now value }
    {
        Line {
            table: self.table,
            flags: self.flags,
            shifts: self.others,
            upper: self.upper,
            own: self.own[value as usize],
            base: value * self.step,
            stride: self.stride,
        }
    }
}

/// The live tuples of a function of two variables with one live value at one place.
#[derive(Drop)]
pub struct Line<'a> {
    table: &'a [u64],
    flags: &'a [bool],
    /// What was moved away from the tuples with each value at the other place.
    shifts: &'a [u64],
    upper: u64,
    /// What was moved away from those with the value at its own place.
    own: u64,
    /// The number of the tuple with the other variable's value 0, and how far the next ones are apart.
    base: u32,
    stride: u32,
}

impl Line<'_> {
    /// The residual cost of the tuple with a live value at the other place, and its number; `None` exactly where it is not
    /// live.
    #[inline]
    pub fn least(&self, value: u32) -> Option<Extreme>
        requires { (P : Network) × (history : List Event) × (f : ℕ) × (i : ℕ) × (a : ℕ) × (j : ℕ) × IsAlong P history f i a j self.now value }
        ensures { (P : Network) (history : List Event) (f i a j : ℕ) → IsAlong P history f i a j self.now value
            → MatchOption result (NoneBetween P history f i a j value) (IsLeastBetween P history f i a j value) }
    {
        let cell = self.base + value * self.stride;
        let entry = self.table[cell as usize];
        if entry >= self.upper || self.flags[cell as usize] {
            return None;
        }
        let moved = self.own.wrapping_add(self.shifts[value as usize]);
        Some(Extreme {
            cost: entry.wrapping_sub(moved),
            cell,
        })
    }
}

/// The tuple that costs least of those along a line that were looked at, where one of them is live.
#[derive(Clone, Copy)]
pub struct Nearest {
    cost: u64,
    cell: u32,
    /// Its value at the other place.
    pub value: u32,
    is_found: bool,
}

impl Nearest {
    /// None was looked at.
    pub fn none() -> Nearest
        ensures { tuple_of result ≡ None }
    {
        Nearest {
            cost: 0,
            cell: 0,
            value: 0,
            is_found: false,
        }
    }

    /// Once the tuple with another value at the other place was looked at.
    #[inline(always)]
    pub fn or(self, found: Option<Extreme>, value: u32) -> Nearest
        ensures { IsSooner Least (tuple_of self) found (tuple_of result) }
    {
        let Some(found) = found else {
            return self;
        };
        if self.is_found && self.cost <= found.cost {
            return self;
        }
        Nearest {
            cost: found.cost,
            cell: found.cell,
            value,
            is_found: true,
        }
    }

    /// Whether it costs nothing.
    #[inline(always)]
    pub fn costs_nothing(self) -> bool
        ensures { result ≡ true → IsSomeAnd (tuple_of self) (λ extreme. extreme.cost ≡ 0) }
    {
        self.is_found && self.cost == 0
    }

    /// Its cost and number.
    #[inline(always)]
    pub fn tuple(self) -> Option<Extreme>
        ensures { result ≡ tuple_of self }
    {
        if self.is_found {
            Some(Extreme {
                cost: self.cost,
                cell: self.cell,
            })
        } else {
            None
        }
    }
}
