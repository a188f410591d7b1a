//! The deletions of a derivation so far, and the variables that lost values since their functions were looked at.

ghost use Rattle.std.specs.Prelude.{◌≡◌, ℕ, ◌<◌, ◌≤◌, true, false, List, [], ◌∷◌, ◌++◌, length, IfOk, IsTrue, IsFalse, MatchOption};
ghost use Rattle.cfn_model.specs.declared.step.Step.TheVariants.{CutValue};
ghost use Rattle.cfn_model.specs.Sums.{is_live};
ghost use Rattle.cfn_model.specs.Steps.{IsValue};
ghost use Rattle.cfn_queue.specs.Waiting.{new_queue, is_in};
ghost use Rattle.cfn_consistency.specs.Virtual.{Bans, IsDeletion};
ghost use Rattle.cfn_store.specs.Standing.{history, with_step};
ghost use Rattle.cfn_derivation.specs.Derived.{value_count, AllAlive, EmptiesLast};
ghost use Rattle.cfn_derivation.specs.Working.{with_deletion, HasRoom, Goes};

use cfn_consistency::Deletion;
use cfn_net::Network;
use cfn_queue::Queue;
use cfn_store::Store;
use std::alloc::{AllocError, Global};
use std::marker::Model;

/// Deletions, and variables that wait. Contracts see the two, and for how many deletions there is room. Only `make` takes
/// memory.
#[derive(Drop)]
pub(crate) struct Work {
    deletions: Vec<Deletion>,
    waiting: Queue,
}

impl Model for Work {
    ghost use Rattle.std.specs.Prelude.{vec_capacity};
    ghost use Rattle.cfn_derivation.specs.Working.{Work as Working};

    ghost Value = { Working };

    ghost view = { λ w. record { deletions = w.deletions.items; waiting = w.waiting; room = vec_capacity w.deletions } };
}

impl Work {
    /// None yet, with room for a deletion for each value. An `Err` is want of memory.
    pub(crate) fn make(alloc: Global, network: &Network) -> Result<Work, AllocError>
        ensures deletions { IfOk result (λ work. work.deletions ≡ []) }
        ensures waiting { IfOk result (λ work. work.waiting ≡ new_queue (length network.now.sizes)) }
        ensures room { IfOk result (λ work. value_count network.now ≤ work.room) }
    {
        Ok(Work {
            deletions: Vec::with_capacity(alloc, count_values(network))?,
            waiting: Queue::make(alloc, network.variables())?,
        })
    }

    /// None any more.
    pub(crate) fn clear(&mut self)
        ensures deletions { self.new.deletions ≡ [] }
        ensures waiting { self.new.waiting ≡ new_queue self.old.waiting.size }
        ensures room { self.new.room ≡ self.old.room }
    {
        self.deletions.clear();
        empty(&mut self.waiting);
    }

    /// The deletions, the first of them first.
    pub(crate) fn deletions(&self) -> &[Deletion]
        ensures { result.now ≡ self.now.deletions }
    {
        self.deletions.as_slice()
    }

    /// Takes the variable that has waited longest.
    pub(crate) fn take(&mut self) -> Option<u32>
        ensures taken { MatchOption result ((self.old.waiting.items ≡ []) × (self.new ≡ self.old))
            (λ x. (self.old.waiting.items ≡ x ∷ self.new.waiting.items) × (x < self.old.waiting.size)) }
        ensures size { self.new.waiting.size ≡ self.old.waiting.size }
        ensures deletions { self.new.deletions ≡ self.old.deletions }
        ensures room { self.new.room ≡ self.old.room }
    {
        self.waiting.law_kept();
        self.waiting.take()
    }

    /// Whether a variable waits.
    pub(crate) fn waits(&self, x: u32) -> bool
        requires { x < self.now.waiting.size }
        ensures { result ≡ is_in x self.now.waiting.items }
    {
        self.waiting.has(x)
    }

    /// Deletes a live value.
    fn delete(&mut self, store: &mut Store<'_>, deletion: Deletion)
        requires room { HasRoom store.old self.old }
        requires value { IsValue store.old.network deletion.variable deletion.value }
        requires live { IsTrue (is_live (history store.old) deletion.variable deletion.value) }
        ensures store { store.new ≡ with_step store.old (CutValue deletion.variable deletion.value) }
        ensures work { self.new ≡ with_deletion self.old deletion }
    {
        store.cut_value(deletion.variable, deletion.value);
        self.deletions.push_reserved(deletion);
        self.waiting.put(deletion.variable);
    }

    /// Deletes a value for a reason that it has. Tells whether its variable was emptied.
    pub(crate) fn strike(&mut self, store: &mut Store<'_>, deletion: Deletion) -> bool
        requires room { HasRoom store.old self.old }
        requires alive { AllAlive store.old.network (history store.old) }
        requires reason { (q : ℕ) × (bans : Bans) × IsDeletion store.old.network (history store.old) q bans deletion }
        ensures goes { (q : ℕ) (bans : Bans) → IsDeletion store.old.network (history store.old) q bans deletion → Goes q bans store.old store.new self.old self.new }
        ensures network { store.new.network ≡ store.old.network }
        ensures waits { IsTrue (is_in deletion.variable self.new.waiting.items) }
        ensures dead { IsFalse (is_live (history store.new) deletion.variable deletion.value) }
        ensures emptied { result ≡ true → EmptiesLast store.new.network (history store.new) deletion.variable }
        ensures alive { result ≡ false → AllAlive store.new.network (history store.new) }
    {
        self.delete(store, deletion);
        store.count(deletion.variable) == 0
    }
}

/// Takes each number away.
fn empty(queue: &mut Queue)
    ensures { queue.new ≡ new_queue queue.old.size }
{
    while let Some(_) = queue.take() {}
}

/// How many values the variables have.
pub(crate) fn count_values(network: &Network) -> usize
    ensures { result ≡ value_count network.now }
{
    network.law_limits();
    let mut count = 0;
    for x in 0..network.variables() {
        count += network.size(x) as usize;
    }
    count
}
