//! What was shifted at one function, and which of its tuples are cut.
//!
//! A project or an extend is the same for every tuple that has the value at the place. So no table is changed: each
//! value of each place has a slot with one number, what was projected to it less what was extended from it, and the
//! residual cost of a tuple is the network's entry less the numbers along the tuple (Cooper et al. 2010).

ghost use Rattle.std.specs.Prelude.{◌≡◌, ℕ, ◌<◌, ◌≤◌, List, length, slice_index, slice_index_or, slice_set, pos, ◌+ℤ◌, false, IfOk, OnOk, OnErr};
ghost use Rattle.cfn_model.specs.Network.{cells, dims, dims_at, scope_at};
ghost use Rattle.cfn_model.specs.Steps.{IsPlace};
ghost use Rattle.cfn_tables.specs.Slots.{slots, slot};
ghost use Rattle.cfn_tables.specs.Tables.{IsWide, IsAmount, first_tuples};

use cfn_net::Network;
use std::alloc::{AllocError, Global};
use std::marker::Model;

/// A number of 16 bytes for each slot, and a flag for each tuple, by its cell, which is made before the first cut.
#[derive(Drop)]
pub(crate) struct Shifts {
    sums: Vec<i128>,
    cut: Vec<bool>,
}

impl Model for Shifts {
    ghost use Rattle.cfn_tables.specs.Tables.{Tuples};

    ghost Value = { Tuples };

    ghost view = { λ s. record { sums = s.sums.items; cut = s.cut.items } };
}

impl Shifts {
    /// Nothing was shifted, and no tuple is cut. An `Err` is want of memory.
    pub(crate) fn of(alloc: Global, network: &Network, f: u32) -> Result<Shifts, AllocError>
        requires { f < length network.now.functions }
        ensures { IfOk result (λ s. s ≡ first_tuples (slots (dims_at network.now f))) }
    {
        network.law_limits();
        Ok(Shifts {
            sums: vec![in alloc; 0; slots(network, network.scope(f))]?,
            cut: Vec::new(alloc),
        })
    }

    /// What was shifted at a slot.
    pub(crate) fn sum(&self, slot: usize) -> i128
        requires { slot < length self.now.sums }
        ensures { result ≡ slice_index_or self.now.sums slot (pos 0) }
    {
        self.sums[slot]
    }

    /// Adds an amount at a slot.
    pub(crate) fn add(&mut self, slot: usize, amount: i128)
        requires slot { slot < length self.old.sums }
        requires wide { IsWide (slice_index_or self.old.sums slot (pos 0)) }
        requires amount { IsAmount amount }
        ensures cut { self.new.cut ≡ self.old.cut }
        ensures sums { self.new.sums ≡ slice_set self.old.sums slot (amount +ℤ slice_index_or self.old.sums slot (pos 0)) }
    {
        self.sums[slot] += amount;
    }

    /// Whether a tuple is cut.
    pub(crate) fn is_cut(&self, cell: u32) -> bool
        ensures { result ≡ slice_index_or self.now.cut cell false }
    {
        match self.cut.get(cell as usize) {
            Some(is) => *is,
            None => false,
        }
    }

    /// Makes the flags, where there are none. An `Err`, want of memory, leaves all as it was.
    pub(crate) fn make_flags(&mut self, cells: u32) -> Result<(), AllocError>
        requires { 0 < length self.old.cut → length self.old.cut ≡ cells }
        ensures sums { self.new.sums ≡ self.old.sums }
        ensures flags { OnOk result (length self.new.cut ≡ cells) }
        ensures same { (c : ℕ) → slice_index_or self.new.cut c false ≡ slice_index_or self.old.cut c false }
        ensures err { OnErr result (self.new ≡ self.old) }
    {
        if self.cut.is_empty() {
            let alloc = *self.cut.allocator();
            self.cut = vec![in alloc; false; cells as usize]?;
        }
        Ok(())
    }

    /// Says of a tuple whether it is cut.
    pub(crate) fn set_cut(&mut self, cell: u32, is: bool)
        requires { cell < length self.old.cut }
        ensures { self.new ≡ record self.old { cut = slice_set self.old.cut cell is } }
    {
        self.cut[cell as usize] = is;
    }
}

/// How many slots a part of a scope has.
pub fn slots(network: &Network, scope: &[u32]) -> usize
    requires scope { (place : ℕ) → place < length scope.now → slice_index scope.now place < length network.now.sizes }
    requires few { length scope.now ≤ 1048576 }
    ensures { result ≡ slots (dims network.now.sizes scope.now) }
{
    network.law_limits();
    let mut slots = 0;
    for x in scope {
        slots += network.size(*x) as usize;
    }
    slots
}

/// The slot of a value at a place of a function.
pub(crate) fn slot(network: &Network, f: u32, place: u32, value: u32) -> usize
    requires { IsPlace network.now f place value }
    ensures value { result ≡ slot (dims_at network.now f) place value }
    ensures below { result < slots (dims_at network.now f) }
{
    network.law_limits();
    slots(network, &network.scope(f)[..place as usize]) + value as usize
}
