//! Numbers that wait.

ghost use Rattle.std.specs.Prelude.{◌≡◌, ◌<◌, [], ◌∷◌, IfOk, IfSome, MatchOption};
ghost use Rattle.cfn_queue.specs.Waiting.{new_queue, with_item, is_in, IsFirst, NoRepeats, AreBelow};

use std::alloc::{AllocError, Global};
use std::collections::VecDeque;
use std::marker::Model;

/// Numbers below a size that wait, each at most once. Contracts see the size and the list of them, the first one first.
#[derive(Drop)]
pub struct Queue {
    items: VecDeque<u32>,
    waits: Vec<bool>,
}

impl Model for Queue {
    ghost use Rattle.std.specs.Prelude.{length};
    ghost use Rattle.std.specs.VecDeque.{deque_capacity};
    ghost use Rattle.cfn_queue.specs.Waiting.{Waiting, IsQueue};

    ghost Value = { Waiting };

    ghost view = { λ q. record { size = length q.waits.items; items = q.items.items } };

    ghost invariant = { λ q. IsQueue (deque_capacity q.items) q.waits.items q.items.items };
}

impl Queue {
    /// Nothing waits of the numbers below `size`. An `Err` is want of memory; no other call takes memory.
    pub fn make(alloc: Global, size: u32) -> Result<Queue, AllocError>
        ensures { IfOk result (λ queue. queue ≡ new_queue size) }
    {
        Ok(Queue {
            items: VecDeque::with_capacity(alloc, size as usize)?,
            waits: vec![in alloc; false; size as usize]?,
        })
    }

    /// Each number that waits is below the size, and waits once.
    pub fn law_kept(&self)
        ensures below { AreBelow self.now.size self.now.items }
        ensures once { NoRepeats self.now.items }
    {
        let _ = &self.waits;
    }

    /// The number that has waited longest. There is none exactly where nothing waits.
    pub fn first(&self) -> Option<u32>
        ensures first { MatchOption result (self.now.items ≡ []) (IsFirst self.now.items) }
        ensures below { IfSome result (λ number. number < self.now.size) }
    {
        self.law_kept();
        self.items.front().copied()
    }

    /// Whether a number waits.
    pub fn has(&self, number: u32) -> bool
        requires { number < self.now.size }
        ensures { result ≡ is_in number self.now.items }
    {
        self.waits[number as usize]
    }

    /// Puts a number behind those that wait. Where it waits already all stays as it was.
    pub fn put(&mut self, number: u32)
        requires { number < self.old.size }
        ensures { self.new ≡ with_item self.old number }
    {
        if self.waits[number as usize] {
            return;
        }
        self.waits[number as usize] = true;
        self.items.push_back_reserved(number);
    }

    /// Takes the number that has waited longest. There is none exactly where nothing waits.
    pub fn take(&mut self) -> Option<u32>
        ensures { MatchOption result ((self.old.items ≡ []) × (self.new ≡ self.old))
            (λ number. (self.old.items ≡ number ∷ self.new.items) × (self.new.size ≡ self.old.size)) }
    {
        let number = self.items.pop_front()?;
        self.waits[number as usize] = false;
        Some(number)
    }
}
