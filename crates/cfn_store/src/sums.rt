//! The sums that steps change: the floor, the unary costs, and what was moved away from the tuples of each function.
//!
//! No table is changed: a project or an extend changes the residual costs of all tuples with one value at one place
//! alike, so one number for each place and value tells the change of a whole table (Cooper et al. 2010; the "delta costs"
//! of toulbar2). Costs are kept modulo 2^64. A unary cost is what was given to the value less what was lifted from its
//! variable.

ghost use Rattle.std.specs.Prelude.{◌≡◌, ◌+◌, ◌-◌, ◌^◌, ◌<◌, ◌≤◌, List, [], length, pos, neg_ℤ, IfOk};
ghost use Rattle.cfn_model.specs.Network.{Network as CostNetwork};
ghost use Rattle.cfn_model.specs.Sums.{floor, unary};
ghost use Rattle.cfn_model.specs.declared.step.Event.{Event};
ghost use Rattle.cfn_scan.specs.Exact.{IsExact};
ghost use Rattle.cfn_scan.specs.Unaries.{AreUnaries};
ghost use Rattle.cfn_model.specs.Steps.{IsPlace};
ghost use Rattle.cfn_rows.specs.Jagged.{row_at};
ghost use Rattle.cfn_store.specs.Sums.{IsSums, Moves, Lifts, HasShape, has_more, has_less};

use cfn_net::Network;
use cfn_rows::Rows;
use cfn_scan::{Unaries, slot_of, widths};
use std::alloc::{AllocError, Global};

#[derive(Drop)]
pub(crate) struct Sums {
    pub(crate) floor: u128,
    /// What was lifted from each variable.
    pub(crate) lifted: Vec<u64>,
    /// What each value was given by projects, less what it lost by extends: a row for each variable.
    pub(crate) given: Rows<u64>,
    /// What the tuples with each value at each place lost by projects, less what they were given by extends: a row for
    /// each function, with the values of its places one behind another.
    pub(crate) shifts: Rows<u64>,
}

impl Sums {
    /// The sums before any step. An `Err` is want of memory.
    pub(crate) fn at_root(alloc: Global, network: &Network) -> Result<Sums, AllocError>
        ensures { IfOk result (IsSums network.now []) }
    {
        Ok(Sums {
            floor: network.constants(),
            lifted: vec![in alloc; 0; network.variables() as usize]?,
            given: Rows::filled(alloc, network.sizes(), 0)?,
            shifts: Rows::filled(alloc, &widths(alloc, network)?, 0)?,
        })
    }

    /// Moves an amount from the tuples of `f` with `value` at `place` to that value.
    pub(crate) fn give(&mut self, network: &Network, f: u32, place: u32, value: u32, amount: u64)
        requires shape { HasShape network.now self.old }
        requires place { IsPlace network.now f place value }
        ensures { Moves network.now f place value (pos amount) self.old self.new }
    {
        network.law_limits();
        let x = network.scope(f)[place as usize] as usize;
        let width = self.shifts.row(f as usize).len();
        let at = slot_of(network, f, place, value, width);
        add(&mut self.given, x, value as usize, amount);
        add(&mut self.shifts, f as usize, at, amount);
    }

    /// Moves an amount from a value to the tuples of `f` with it at `place`.
    pub(crate) fn take(&mut self, network: &Network, f: u32, place: u32, value: u32, amount: u64)
        requires shape { HasShape network.now self.old }
        requires place { IsPlace network.now f place value }
        ensures { Moves network.now f place value (neg_ℤ (pos amount)) self.old self.new }
    {
        network.law_limits();
        let x = network.scope(f)[place as usize] as usize;
        let width = self.shifts.row(f as usize).len();
        let at = slot_of(network, f, place, value, width);
        subtract(&mut self.given, x, value as usize, amount);
        subtract(&mut self.shifts, f as usize, at, amount);
    }

    /// The unary costs of a variable's values.
    pub(crate) fn unaries(&self, x: u32) -> Unaries<'_>
        requires { (P : CostNetwork) × HasShape P self.now × (x < length P.sizes) }
        ensures { (P : CostNetwork) (history : List Event) → IsSums P history self.now → IsExact P history → x < length P.sizes
            → AreUnaries P history x result }
    {
        Unaries {
            given: self.given.row(x as usize),
            lifted: self.lifted[x as usize],
        }
    }

    /// Moves an amount from each value of `x` to the floor.
    pub(crate) fn lift(&mut self, x: u32, amount: u64)
        requires shape { (P : CostNetwork) × HasShape P self.old × (x < length P.sizes) }
        requires room { self.old.floor < 2 ^ 127 }
        ensures { (P : CostNetwork) → HasShape P self.old → x < length P.sizes → Lifts P x (pos amount) self.old self.new }
    {
        self.floor += u128::from(amount);
        self.lifted[x as usize] = self.lifted[x as usize].wrapping_add(amount);
    }

    /// Moves an amount from the floor to each value of `x`.
    pub(crate) fn sink(&mut self, x: u32, amount: u64)
        requires shape { (P : CostNetwork) × HasShape P self.old × (x < length P.sizes) }
        requires floor { amount ≤ self.old.floor }
        ensures { (P : CostNetwork) → HasShape P self.old → x < length P.sizes → Lifts P x (neg_ℤ (pos amount)) self.old self.new }
    {
        self.floor -= u128::from(amount);
        self.lifted[x as usize] = self.lifted[x as usize].wrapping_sub(amount);
    }
}

/// Adds to one word of a row, modulo 2^64.
fn add(rows: &mut Rows<u64>, r: usize, i: usize, amount: u64)
    requires row { r < length rows.old }
    requires place { i < length (row_at rows.old r) }
    ensures { rows.new ≡ has_more rows.old r i amount }
{
    let word = rows.row(r)[i].wrapping_add(amount);
    rows.set(r, i, word);
}

/// Subtracts from one word of a row, modulo 2^64.
fn subtract(rows: &mut Rows<u64>, r: usize, i: usize, amount: u64)
    requires row { r < length rows.old }
    requires place { i < length (row_at rows.old r) }
    ensures { rows.new ≡ has_less rows.old r i amount }
{
    let word = rows.row(r)[i].wrapping_sub(amount);
    rows.set(r, i, word);
}
