//! The end of a lane that its worker has: it alone pushes there.

ghost use Rattle.std.specs.Prelude.{◌≡◌, ◌+◌, ◌-◌, ◌<◌, ◌≤◌, [], ◌∷◌, ◌++◌, List, length, IfOk, IfErr, OnErr, MatchOption};
ghost use Rattle.std.specs.List.{AllByRecursion};
ghost use Rattle.cfn_rota.specs.Balances.{AreWhole, AreWithin};
ghost use Rattle.cfn_rota.specs.Values.{IsNew};

use crate::rule::{Balance, Counting, Kind, Parting, Pushing, Taking, Tally};
use crate::thief::Thief;
use crossbeam_deque::Worker;
use std::alloc::{AllocError, Global};
use std::marker::Model;

/// The end of a lane that its worker has. Tasks come out in the order in which they were pushed.
#[derive(Drop)]
pub struct Lane<T, K: Kind<T>> {
    owner: Worker<T, Global, Tally<T>, Balance<K>>,
    room: u32,
}

impl<T, K: Kind<T>> Model for Lane<T, K> {
    ghost use Rattle.std.specs.Prelude.{◌≡◌, ◌≤◌, length};
    ghost use Rattle.crossbeam_deque.specs.Handles.{worker_deque, worker_flavor, worker_view, worker_capacity, worker_index};
    ghost use Rattle.cfn_rota.specs.Values.{Owned};

    ghost Value = { Owned T };

    ghost view = { λ l. record {
      lane = (worker_deque l.owner).0;
      room = l.room;
      parts = (worker_view l.owner).parts;
      pushed = (worker_view l.owner).pushed;
      taken = (worker_view l.owner).taken;
    } };

    ghost invariant = { λ l. (worker_flavor l.owner ≡ 0) × (1 ≤ (worker_view l.owner).parts) × (l.room ≤ worker_capacity l.owner) × (worker_index l.owner ≤ length (worker_view l.owner).pushed) };
}

impl<T: Drop, K: Kind<T>> Lane<T, K> {
    /// A lane with no task, all of whose 128 parts this end has, with memory for `room` pushes.
    pub fn make(alloc: Global, room: u32) -> Result<Lane<T, K>, AllocError>
        ensures new { IfOk result (IsNew room) }
        ensures whole { IfOk result (λ made. made.parts ≡ 128) }
    {
        let owner = Worker::fifo_as(alloc, room as usize)?;
        Ok(Lane { owner, room })
    }

    /// An end that steals, with one part of the lane. An `Err`, want of memory, leaves the lane as it was.
    pub fn thief(&mut self) -> Result<Thief<T, K>, AllocError>
        requires parts { 2 ≤ self.old.parts }
        ensures new { IfOk result (λ new. new ≡ record { lane = self.old.lane; taken = [] }) }
        ensures left { IfOk result (λ new. self.new ≡ record self.old { parts = self.old.parts - 1 }) }
        ensures same { OnErr result (self.new ≡ self.old) }
    {
        let stealer = self.owner.stealer()?;
        let pass = self.owner.another::<Parting>();
        Ok(Thief::of(stealer, pass))
    }

    /// Pushes a task. An `Err` gives it back, with the lane as it was, and comes only after `room` pushes, where memory is
    /// refused. It takes no memory before.
    pub fn push(&mut self, task: T) -> Result<(), T>
        requires fits { K.fits task }
        ensures pushed { IfOk result (λ none. self.new ≡ record self.old { pushed = self.old.pushed ++ task ∷ [] }) }
        ensures back { IfErr result (λ given. (given ≡ task) × (self.new ≡ self.old)) }
        ensures room { IfErr result (λ given. self.old.room ≤ length self.old.pushed) }
    {
        self.owner.push_as::<Pushing>(task)
    }

    /// Takes the task that was pushed first of those that are left. `None` comes only where the lane was empty at one moment:
    /// where this end has all parts, it has taken all that was pushed. Where it has all parts and takes a task, it has taken no
    /// more than was pushed. It takes no memory.
    pub fn pop(&mut self) -> Option<T>
        ensures { MatchOption result
            ((self.new ≡ self.old) × (self.old.parts ≡ 128 → AreWhole self.old.pushed self.old.taken []))
            (λ task. (self.new ≡ record self.old { taken = self.old.taken ++ task ∷ [] }) × K.fits task × (self.old.parts ≡ 128 → AreWithin self.new.taken self.old.pushed)) }
    {
        self.owner.pop_as::<Taking<K>>()
    }

    /// Puts an end that steals back to its lane, and answers how many tasks are left there at one moment. Where this end has
    /// all parts then, what was pushed is what was taken and these, each task as often. It takes no memory.
    pub fn absorb(&mut self, thief: Thief<T, K>) -> usize
        requires own { thief.lane ≡ self.old.lane }
        ensures joined { self.new ≡ record self.old { parts = self.old.parts + 1; taken = self.old.taken ++ thief.taken } }
        ensures whole { (left : List T) × (length left ≡ result) × AllByRecursion K.fits left × (self.new.parts ≡ 128 → AreWhole self.new.pushed self.new.taken left) }
    {
        let pass = thief.into_pass();
        self.owner.absorb::<Parting>(pass);
        self.owner.len_as::<Counting<K>>()
    }
}
