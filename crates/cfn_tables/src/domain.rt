//! The unary costs of one variable's values, and which of them are live.

ghost use Rattle.std.specs.Prelude.{◌≡◌, ℕ, ◌+◌, ◌<◌, ◌≤◌, ◌^◌, ◌==◌, length, slice_index, slice_index_or, replicate, pos, ◌+ℤ◌, IfOk, IsTrue, if◌then◌else◌};
ghost use Rattle.cfn_model.specs.Sums.{when};
ghost use Rattle.cfn_tables.specs.Tables.{has_none, first_values, IsWide, IsAmount};
ghost use Rattle.cfn_tables.specs.Sides.{is_on};
ghost use Rattle.cfn_tables.specs.Values.{Gains, Takes};

use crate::side::Side;
use std::alloc::{AllocError, Global};
use std::marker::Model;

/// The unary cost of each value, how many events have taken each value, and how many values are live.
#[derive(Drop)]
pub(crate) struct Domain {
    costs: Vec<i128>,
    takers: Vec<u64>,
    live: u32,
}

impl Model for Domain {
    ghost use Rattle.std.specs.Prelude.{◌≡◌};
    ghost use Rattle.cfn_tables.specs.Tables.{Values, live_count};

    ghost Value = { Values };

    ghost view = { λ d. record { costs = d.costs.items; takers = d.takers.items } };

    ghost invariant = { λ d. d.live ≡ live_count d.takers.items };
}

impl Domain {
    /// All values live, without a unary cost. An `Err` is want of memory.
    pub(crate) fn of(alloc: Global, size: u32) -> Result<Domain, AllocError>
        ensures { IfOk result (λ d. d ≡ first_values size) }
    {
        Ok(Domain {
            costs: vec![in alloc; 0; size as usize]?,
            takers: vec![in alloc; 0; size as usize]?,
            live: size,
        })
    }

    pub(crate) fn cost(&self, value: u32) -> i128
        requires { value < length self.now.costs }
        ensures { result ≡ slice_index_or self.now.costs value (pos 0) }
    {
        self.costs[value as usize]
    }

    pub(crate) fn is_live(&self, value: u32) -> bool
        requires { value < length self.now.takers }
        ensures { result ≡ (slice_index self.now.takers value == 0) }
    {
        self.takers[value as usize] == 0
    }

    /// Whether no value is live.
    pub(crate) fn has_none(&self) -> bool
        ensures { result ≡ has_none self.now }
    {
        self.live == 0
    }

    /// Adds an amount to the cost of a value.
    pub(crate) fn add(&mut self, value: u32, amount: i128)
        requires value { value < length self.old.costs }
        requires wide { IsWide (slice_index_or self.old.costs value (pos 0)) }
        requires amount { IsAmount amount }
        ensures costs { Gains (λ b. when (value == b) amount) self.old.costs self.new.costs }
        ensures takers { self.new.takers ≡ self.old.takers }
    {
        self.costs[value as usize] += amount;
    }

    /// Adds an amount to the cost of each value.
    pub(crate) fn add_to_all(&mut self, amount: i128)
        requires wide { (b : ℕ) → b < length self.old.costs → IsWide (slice_index_or self.old.costs b (pos 0)) }
        requires amount { IsAmount amount }
        ensures costs { Gains (λ b. amount) self.old.costs self.new.costs }
        ensures takers { self.new.takers ≡ self.old.takers }
    {
        add_to_each(&mut self.costs, amount);
    }

    /// Takes a value once more.
    pub(crate) fn take(&mut self, value: u32)
        requires value { value < length self.old.takers }
        requires few { slice_index self.old.takers value < 2 ^ 62 }
        ensures costs { self.new.costs ≡ self.old.costs }
        ensures takers { Takes (λ b. if value == b then 1 else 0) self.old.takers self.new.takers }
    {
        let takers = self.takers[value as usize];
        if takers == 0 {
            self.live -= 1;
        }
        self.takers[value as usize] = takers + 1;
    }

    /// Gives a value back once.
    pub(crate) fn give(&mut self, value: u32)
        requires value { value < length self.old.takers }
        requires taken { 0 < slice_index self.old.takers value }
        requires few { length self.old.takers ≤ 4096 }
        ensures costs { self.new.costs ≡ self.old.costs }
        ensures takers { Takes (λ b. if value == b then 1 else 0) self.new.takers self.old.takers }
    {
        let takers = self.takers[value as usize] - 1;
        if takers == 0 {
            self.live += 1;
        }
        self.takers[value as usize] = takers;
    }

    /// Takes each value on a side of a decision once more.
    pub(crate) fn take_side(&mut self, side: Side)
        requires few { (b : ℕ) → b < length self.old.takers → slice_index self.old.takers b < 2 ^ 62 }
        requires size { length self.old.takers ≤ 4096 }
        ensures costs { self.new.costs ≡ self.old.costs }
        ensures takers { Takes (λ b. if is_on side b then 1 else 0) self.old.takers self.new.takers }
    {
        for b in 0..self.takers.len() as u32 {
            if side.has(b) {
                self.take(b);
            }
        }
    }

    /// Gives each value on a side of a decision back once.
    pub(crate) fn give_side(&mut self, side: Side)
        requires taken { (b : ℕ) → b < length self.old.takers → IsTrue (is_on side b) → 0 < slice_index self.old.takers b }
        requires size { length self.old.takers ≤ 4096 }
        ensures costs { self.new.costs ≡ self.old.costs }
        ensures takers { Takes (λ b. if is_on side b then 1 else 0) self.new.takers self.old.takers }
    {
        for b in 0..self.takers.len() as u32 {
            if side.has(b) {
                self.give(b);
            }
        }
    }
}

/// Adds an amount to each cost.
fn add_to_each(costs: &mut [i128], amount: i128)
    requires wide { (b : ℕ) → b < length costs.old → IsWide (slice_index_or costs.old b (pos 0)) }
    requires amount { IsAmount amount }
    ensures { (b : ℕ) → b < length costs.old → slice_index_or costs.new b (pos 0) ≡ (amount +ℤ slice_index_or costs.old b (pos 0)) }
{
    for cost in costs.iter_mut() {
        *cost += amount;
    }
}
