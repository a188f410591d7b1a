//! All that was done to the pool in a search.

ghost use Rattle.std.specs.Prelude.{◌≡◌, ◌+◌, ◌<◌, ◌≤◌, [], ◌∷◌, ◌++◌, OnOk};
ghost use Rattle.std.specs.List.{AllByRecursion};
ghost use Rattle.cfn_model.specs.declared.limits.TheConstants.{GREATEST};
ghost use Rattle.cfn_record.specs.Lines.{AreSpelled};
ghost use Rattle.cfn_record.specs.Histories.{IsSpelledEntry, entries_of, entry_of, numbers_of};

use crate::happened::Happened;
use std::alloc::{AllocError, Global};
use std::marker::Model;

/// What was done to the pool in a search, in order, and how many nodes the search might make. Contracts see the entries of its record
/// (`entries_of`), and for how many more there is room. Each number is at most 9,223,372,036,854,775,807.
#[derive(Drop)]
pub struct History {
    budget: u64,
    happened: Vec<Happened>,
}

impl Model for History {
    ghost use Rattle.std.specs.Prelude.{◌-◌, vec_len, vec_capacity};
    ghost use Rattle.cfn_record.specs.Histories.{HistoryValue, IsKept};

    ghost Value = { HistoryValue };

    ghost view = { λ h. record { budget = h.budget; happened = h.happened.items; room = vec_capacity h.happened - vec_len h.happened } };

    ghost invariant = { λ h. IsKept h.budget h.happened.items };
}

impl History {
    /// The history of a search that may make `budget` nodes, at most 9,223,372,036,854,775,807, before anything is done. It takes no
    /// memory.
    pub fn new(alloc: Global, budget: u64) -> History
        requires { budget ≤ GREATEST }
        ensures { result ≡ record { budget = budget; happened = []; room = 0 } }
    {
        History {
            budget,
            happened: Vec::new(alloc),
        }
    }

    /// How many nodes the search might make. It takes no memory.
    pub fn budget(&self) -> u64
        ensures { result ≡ self.now.budget }
    {
        self.budget
    }

    /// What was done, the first first. It takes no memory.
    pub fn happened(&self) -> &[Happened]
        ensures { result.now ≡ self.now.happened }
    {
        &self.happened
    }

    /// Where its memory comes from.
    pub fn allocator(&self) -> Global {
        *self.happened.allocator()
    }

    /// Nothing: its contract tells a caller that each number of a history has a spelling.
    pub fn law_spelled(&self)
        ensures budget { self.now.budget ≤ GREATEST }
        ensures entries { AllByRecursion IsSpelledEntry (entries_of self.now) }
    {
        let _ = &self.happened;
    }

    /// Makes room for `more` entries. An `Err`, want of memory, leaves the history as it was. It never has less room than before.
    pub fn reserve(&mut self, more: usize) -> Result<(), AllocError>
        ensures entries { entries_of self.new ≡ entries_of self.old }
        ensures happened { self.new.happened ≡ self.old.happened }
        ensures budget { self.new.budget ≡ self.old.budget }
        ensures ok { OnOk result (more ≤ self.new.room) }
        ensures room { self.old.room ≤ self.new.room }
    {
        self.happened.reserve(more)
    }

    /// Records what was done last, where there is room for one entry. It takes no memory.
    pub fn push_reserved(&mut self, happened: Happened)
        requires spelled { AreSpelled (numbers_of happened) }
        requires room { 0 < self.old.room }
        ensures entries { entries_of self.new ≡ entries_of self.old ++ entry_of happened ∷ [] }
        ensures budget { self.new.budget ≡ self.old.budget }
        ensures room { self.new.room + 1 ≡ self.old.room }
    {
        happened.law_spelled();
        self.happened.push_reserved(happened);
    }
}
