//! Leaves that are out are free again.

ghost use Rattle.std.specs.Prelude.{◌≡◌, ℕ, ◌↔◌, ◌+◌, ◌<◌, ◌≤◌, ◌^◌, List, ◌∷◌, length, slice_set, Some, MatchOption, IsPermutation, IsTrue, IsFalse};
ghost use Rattle.cfn_model.specs.declared.step.Event.{Event};
ghost use Rattle.cfn_machine.specs.Pool.{View};
ghost use Rattle.cfn_machine.specs.Steps.{IsNotOut, PoolRecalls, PoolReturns};
ghost use Rattle.cfn_leaves.specs.declared.entry.Mark.TheVariants.{Free, Out};
ghost use Rattle.cfn_leaves.specs.Listed.{outs};
ghost use Rattle.cfn_leaves.specs.Out.{IsOutEntry, IsOutTo, task_at};
ghost use Rattle.cfn_leaves.specs.Returned.{AllFreed};
ghost use Rattle.cfn_leaves.specs.Value.{pool_of};

use crate::entry::{Entry, Mark};
use crate::leaves::Leaves;
use crate::taking::{held, mark};
use cfn_explore::Task;
use cfn_proof::laws::law_same_before;
use cfn_queue::{OpenLeaf, OpenList};

impl Leaves {
    /// Frees a task's leaf, where it is out to the task's worker with the task's grant, and answers whether it was. If it
    /// was not, nothing changes. It takes no memory.
    pub fn back(&mut self, task: &Task) -> bool
        ensures network { self.new.network ≡ self.old.network }
        ensures back { IsTrue result → (view : View) → PoolReturns (pool_of self.old view) task.now.task (pool_of self.new view) }
        ensures none { IsFalse result → (view : View) → IsNotOut (pool_of self.old view) task.now.task }
        ensures same { IsFalse result → self.new ≡ self.old }
    {
        self.put_back(task.leaf(), u64::from(task.worker()), task.grant())
    }

    /// Frees a leaf that is out to a worker with a grant, and answers whether it was. If it was not, nothing changes. It
    /// takes no memory.
    pub fn put_back(&mut self, leaf: u64, worker: u64, grant: u64) -> bool
        ensures network { self.new.network ≡ self.old.network }
        ensures back { IsTrue result → (view : View) (floor : ℕ) (path : List Event) → PoolReturns (pool_of self.old view) (task_at leaf worker grant floor path) (pool_of self.new view) }
        ensures none { IsFalse result → IsOutTo self.old leaf worker grant → ⊥ }
        ensures same { IsFalse result → self.new ≡ self.old }
    {
        law_same_before();
        let Some(entry) = self.out_entry(leaf, worker, grant) else {
            return false;
        };
        free(&mut self.table, &mut self.list, leaf as usize, entry);
        self.granted -= grant;
        true
    }

    /// Whether a leaf is out to a worker with a grant. It takes no memory.
    pub fn is_out(&self, leaf: u64, worker: u64, grant: u64) -> bool
        ensures { IsTrue result ↔ IsOutTo self.now leaf worker grant }
    {
        self.out_entry(leaf, worker, grant).is_some()
    }

    /// What the table has of a leaf, where it is out to a worker with a grant. It takes no memory.
    pub(crate) fn out_entry(&self, leaf: u64, worker: u64, grant: u64) -> Option<Entry>
        ensures { MatchOption result (IsOutTo self.now leaf worker grant → ⊥) (IsOutEntry self.now leaf worker grant) }
    {
        law_same_before();
        let entry = held(&self.table, leaf as usize)?;
        if is_out_to(entry.mark, worker, grant) {
            return Some(entry);
        }
        None
    }

    /// Frees every leaf that is out. It takes no memory.
    pub fn recall(&mut self)
        ensures network { self.new.network ≡ self.old.network }
        ensures recalls { (view : View) → PoolRecalls (pool_of self.old view) (pool_of self.new view) }
    {
        law_same_before();
        free_all(&mut self.table, &mut self.list);
        self.granted = 0;
    }
}

/// Whether a leaf is out to a worker with a grant.
fn is_out_to(mark: Mark, to: u64, of: u64) -> bool
    ensures { IsTrue result ↔ (mark ≡ Out to of) }
{
    match mark {
        Mark::Out { worker, grant } => worker == to && grant == of,
        Mark::Free => false,
    }
}

/// Whether a leaf is free.
fn is_free(mark: Mark) -> bool
    ensures { IsTrue result ↔ (mark ≡ Free) }
{
    matches!(mark, Mark::Free)
}

/// Frees a leaf of the table, and puts it into the list, where there is room for it.
fn free(table: &mut Vec<Option<Entry>>, list: &mut OpenList, number: usize, entry: Entry)
    requires there { number < length table.old.items }
    requires small { number < 2 ^ 32 }
    requires room { 0 < list.old.spare }
    ensures table { table.new.items ≡ slice_set table.old.items number (Some (record entry { mark = Free })) }
    ensures leaves { IsPermutation (record { floor = entry.floor; leaf = number } ∷ list.old.leaves) list.new.leaves }
    ensures room { list.old.spare ≤ list.new.spare + 1 }
{
    list.insert(OpenLeaf {
        floor: entry.floor,
        leaf: number as u32,
    });
    mark(table, number, entry, Mark::Free);
}

/// Frees each leaf of the table that is out, and puts it into the list, where there is room for all of them.
fn free_all(table: &mut Vec<Option<Entry>>, list: &mut OpenList)
    requires few { length table.old.items ≤ 2 ^ 32 }
    requires room { outs table.old.items ≤ list.old.spare }
    ensures { AllFreed table.old.items list.old table.new.items list.new }
{
    law_same_before();
    for number in 0..table.len() {
        if let Some(entry) = held(table, number) {
            if !is_free(entry.mark) {
                free(table, list, number, entry);
            }
        }
    }
}
