//! A list of numbers below a size, each at most once, in any order. A flag for each number says whether it is listed.

ghost use Rattle.std.specs.Prelude.{◌≡◌, ℕ, ◌<◌, [], length, IfOk};
ghost use Rattle.cfn_queue.specs.Waiting.{new_queue, with_item, AreBelow, IsQueue};
ghost use Rattle.cfn_derivation.specs.Watched.{IsFilled};

use std::alloc::{AllocError, Global};
use std::marker::Model;

/// Numbers in a list. Contracts see the size and the list. Only `make` takes memory.
#[derive(Drop)]
pub(crate) struct Listed {
    items: Vec<u32>,
    listed: Vec<bool>,
}

impl Model for Listed {
    ghost use Rattle.std.specs.Prelude.{length, vec_capacity};
    ghost use Rattle.cfn_queue.specs.Waiting.{Waiting, IsQueue};

    ghost Value = { Waiting };

    ghost view = { λ s. record { size = length s.listed.items; items = s.items.items } };

    ghost invariant = { λ s. IsQueue (vec_capacity s.items) s.listed.items s.items.items };
}

impl Listed {
    /// None of the numbers below `size`. An `Err` is want of memory.
    pub(crate) fn make(alloc: Global, size: u32) -> Result<Listed, AllocError>
        ensures { IfOk result (λ listed. listed ≡ new_queue size) }
    {
        Ok(Listed {
            items: Vec::with_capacity(alloc, size as usize)?,
            listed: vec![in alloc; false; size as usize]?,
        })
    }

    /// The numbers.
    pub(crate) fn items(&self) -> &[u32]
        ensures items { result.now ≡ self.now.items }
        ensures below { AreBelow self.now.size result.now }
    {
        let _ = &self.listed;
        self.items.as_slice()
    }

    /// Lists a number, unless it is listed already.
    pub(crate) fn put(&mut self, number: u32)
        requires { number < self.old.size }
        ensures { self.new ≡ with_item self.old number }
    {
        if self.listed[number as usize] {
            return;
        }
        self.listed[number as usize] = true;
        self.items.push_reserved(number);
    }

    /// Lists none any more.
    pub(crate) fn clear(&mut self)
        ensures { self.new ≡ new_queue self.old.size }
    {
        lower(&mut self.listed, &self.items);
        self.items.clear();
    }

    /// Lists all numbers below the size.
    pub(crate) fn fill(&mut self, size: u32)
        requires { size ≡ self.old.size }
        ensures { IsFilled size self.new }
    {
        for number in 0..size {
            self.put(number);
        }
    }
}

/// Takes down the flags of the numbers of a list.
fn lower(flags: &mut [bool], items: &[u32])
    requires below { AreBelow (length flags.old) items.now }
    ensures size { length flags.new ≡ length flags.old }
    ensures down { (capacity : ℕ) → IsQueue capacity flags.old items.now → IsQueue capacity flags.new [] }
{
    for number in items {
        flags[*number as usize] = false;
    }
}
