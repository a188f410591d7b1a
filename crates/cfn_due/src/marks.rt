//! Numbers that are marked, whose marks are taken away all at once.
//!
//! A mark is the number of the sweep in which it was made, so that a new sweep begins without marks.

ghost use Rattle.std.specs.Prelude.{◌≡◌, ℕ, ◌+◌, ◌*◌, ◌<◌, true, false, length, IfOk};
ghost use Rattle.cfn_due.specs.Marking.{is_marked, IsElseSame};

use std::alloc::{AllocError, Global};
use std::marker::Model;

/// Numbers below a size, each marked or not. Only `make` takes memory.
#[derive(Drop)]
pub(crate) struct Marks {
    stamps: Vec<u64>,
    /// The number of the sweep: what has another stamp is not marked.
    sweep: u64,
}

impl Model for Marks {
    ghost use Rattle.std.specs.Prelude.{◌<◌};
    ghost use Rattle.cfn_due.specs.Marking.{Marked, AreUpTo};

    ghost Value = { Marked };

    ghost view = { λ s. record { stamps = s.stamps.items; sweep = s.sweep } };

    ghost invariant = { λ s. (0 < s.sweep) × AreUpTo s.stamps.items s.sweep };
}

impl Marks {
    /// No number below a size is marked. An `Err` is want of memory.
    pub(crate) fn make(alloc: Global, size: usize) -> Result<Marks, AllocError>
        ensures size { IfOk result (λ marks. length marks.stamps ≡ size) }
        ensures none { IfOk result (λ marks. (k : ℕ) → is_marked marks k ≡ false) }
    {
        Ok(Marks {
            stamps: vec![in alloc; 0; size]?,
            sweep: 1,
        })
    }

    /// Whether a number is marked.
    pub(crate) fn has(&self, k: usize) -> bool
        ensures { result ≡ is_marked self.now k }
    {
        match self.stamps.get(k) {
            Some(stamp) => *stamp == self.sweep,
            None => false,
        }
    }

    /// Marks a number, where it is below the size.
    pub(crate) fn mark(&mut self, k: usize)
        ensures size { length self.new.stamps ≡ length self.old.stamps }
        ensures here { k < length self.old.stamps → is_marked self.new k ≡ true }
        ensures others { IsElseSame self.old self.new k }
    {
        if k < self.stamps.len() {
            self.stamps[k] = self.sweep;
        }
    }

    /// Takes the mark of a number away.
    pub(crate) fn unmark(&mut self, k: usize)
        ensures size { length self.new.stamps ≡ length self.old.stamps }
        ensures here { is_marked self.new k ≡ false }
        ensures others { IsElseSame self.old self.new k }
    {
        if k < self.stamps.len() {
            self.stamps[k] = 0;
        }
    }

    /// Takes all marks away, at once.
    pub(crate) fn clear(&mut self)
        ensures size { length self.new.stamps ≡ length self.old.stamps }
        ensures none { (k : ℕ) → is_marked self.new k ≡ false }
    {
        match self.sweep.checked_add(1) {
            Some(next) => self.sweep = next,
            None => {
                self.stamps.fill(0);
                self.sweep = 1;
            }
        }
    }

    /// Marks each number.
    pub(crate) fn fill(&mut self)
        ensures size { length self.new.stamps ≡ length self.old.stamps }
        ensures all { (k : ℕ) → k < length self.old.stamps → is_marked self.new k ≡ true }
    {
        self.stamps.fill(self.sweep);
    }
}

/// The number of one of the two places of a function.
pub(crate) fn number_of(f: u32, place: u32) -> usize
    ensures { result ≡ 2 * f + place }
{
    2 * f as usize + place as usize
}
