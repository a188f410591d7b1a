//! The pool's steps.

ghost use Rattle.std.specs.Prelude.{◌≡◌, ◌+◌, ◌≤◌, length, IfSome, IsTrue, IsFalse};
ghost use Rattle.cfn_machine.specs.Steps.{PoolRecalls, PoolReturns, PoolMeets, PoolNotes, IsNotOut};
ghost use Rattle.cfn_machine.specs.Word.{all_shares};
ghost use Rattle.cfn_record.specs.Entries.{CalledBack, Freed, Swept};
ghost use Rattle.cfn_model.specs.declared.limits.TheConstants.{GREATEST};
ghost use Rattle.cfn_pool.specs.Recorded.{Adds, AddsTaken, HasSpare, IsExactRecordOf};
ghost use Rattle.cfn_pool.specs.Views.{pool, view_of};
ghost use Rattle.cfn_pool.specs.Answers.{AddsGiven, Takes, Gives, Sweeps, NotesOrWaits};

use crate::pool::Pool;
use cfn_explore::{Piece, Task};
use cfn_leaves as leaves;
use cfn_leaves::Taken;
use cfn_low::{Holder, Incumbent, Low, Note};
use cfn_net::Network;

/// How many rows of bounds are noted as they come.
const CLOSE_ROWS: usize = 128;

/// The answer to a piece that is given.
#[derive(Drop)]
pub enum Handed<M: Incumbent> {
    /// It has taken the place of its leaf, and the note was heeded.
    Done,
    /// Its leaf is not out to its task's worker with the task's grant, or has another path.
    Gone { piece: Piece, note: Note<M> },
    /// There is no memory for it, or for its record where one is kept, or no number for a node, a leaf or a floor.
    Memory { piece: Piece, note: Note<M> },
}

impl<M: Incumbent> Pool<M> {
    /// Hands out a free leaf of least floor, the one of least number among those, to a worker that wants to make at most
    /// `want` nodes below it, at least 1. The grant is that, or less where the budget has less left. Where it hands out nothing,
    /// nothing changes. Where a record is kept, `want` is at most 9,223,372,036,854,775,807, and want of memory may be for the record.
    pub fn take(&mut self, network: &Network, worker: u32, want: u64) -> Taken
        requires own { network.now ≡ M.network }
        requires wants { 1 ≤ want }
        requires most { IfSome self.old.recorded (λ r. want ≤ GREATEST) }
        ensures takes { Takes M.network self.old worker want result self.new }
        ensures adds { AddsTaken self.old.recorded worker want result self.new.recorded }
    {
        self.holder.law_kept();
        self.leaves.law_numbered();
        if self.recording.make_room().is_err() {
            return Taken::Memory;
        }
        let taken = self.leaves.take(network, worker, want);
        self.recording.took(worker, want, &taken);
        taken
    }

    /// Heeds a note of what a piece's worker has seen, and puts the piece in the place of its task's leaf: its open leaves
    /// are free, with the next numbers in the order of the piece's text, and its nodes are counted. Where it can't, piece and
    /// note are given back, and nothing changes.
    pub fn give(&mut self, low: &Low<M>, piece: Piece, note: Note<M>) -> Handed<M>
        requires own { piece.network ≡ M.network }
        requires seen { note ≤ piece.threshold }
        ensures gives { Gives M.network self.old piece note result self.new }
        ensures adds { AddsGiven self.old.recorded piece (pool self.new).view.seen result self.new.recorded }
    {
        piece.law_kept();
        self.holder.law_kept();
        self.holder.best().law_priced();
        self.leaves.law_numbered();
        let Ok(copy) = self.recording.copy(&piece) else {
            return Handed::Memory { piece, note };
        };
        match self.leaves.give(piece) {
            leaves::Handed::Done => {
                let seen = low.heed(&mut self.holder, note);
                self.recording.gave(copy, seen);
                Handed::Done
            }
            leaves::Handed::Gone { piece } => {
                drop(copy);
                Handed::Gone { piece, note }
            }
            leaves::Handed::Memory { piece } => {
                drop(copy);
                Handed::Memory { piece, note }
            }
        }
    }

    /// Frees a task's leaf, where it is out to the task's worker with the task's grant, and answers whether it was. If it
    /// was not, nothing changes. It takes no memory.
    pub fn back(&mut self, task: &Task) -> bool
        ensures back { IsTrue result → PoolReturns (pool self.old) task.now.task (pool self.new) }
        ensures none { IsFalse result → IsNotOut (pool self.old) task.now.task }
        ensures same { IsFalse result → self.new ≡ self.old }
        ensures adds { IsTrue result → Adds self.old.recorded (Freed task.now.task.worker task.now.task.leaf task.now.task.grant) self.new.recorded }
    {
        self.holder.law_kept();
        self.leaves.law_numbered();
        if self.leaves.back(task) {
            self.recording.freed(task);
            true
        } else {
            false
        }
    }

    /// Frees every leaf that is out. It takes no memory: where a record is kept, there has to be room for an entry.
    pub fn recall(&mut self)
        requires spare { HasSpare 1 self.old.recorded }
        ensures recalls { PoolRecalls (pool self.old) (pool self.new) }
        ensures adds { Adds self.old.recorded CalledBack self.new.recorded }
    {
        self.holder.law_kept();
        self.leaves.recall();
        self.recording.called_back();
    }

    /// Reads the word, and closes each free leaf whose floor is at least that. What is recorded makes a pool then that has seen the
    /// same. It takes no memory: where a record is kept, there has to be room for an entry.
    pub fn sweep(&mut self, low: &Low<M>)
        requires spare { HasSpare 1 self.old.recorded }
        ensures sweeps { Sweeps M.network (pool self.old) (pool self.new) }
        ensures adds { Adds self.old.recorded (Swept (pool self.new).view.seen) self.new.recorded }
        ensures recorded { IfSome self.new.recorded (λ r. IsExactRecordOf M.network (pool self.new) r.told) }
    {
        self.holder.law_kept();
        self.holder.best().law_priced();
        let word = low.look(&mut self.holder);
        self.leaves.sweep(word);
        self.recording.swept(word);
    }

    /// Joins a part of the word into the pool's. It takes no memory.
    pub fn meet(&mut self, low: &Low<M>, other: Holder<M>)
        requires shares { (pool self.old).view.shares + other.shares ≤ all_shares }
        ensures meets { PoolMeets M.network (pool self.old) (view_of other) (pool self.new) }
        ensures recorded { self.new.recorded ≡ self.old.recorded }
    {
        self.holder.law_kept();
        self.holder.best().law_priced();
        other.best().law_priced();
        low.meet(&mut self.holder, other);
    }

    /// Notes a row of the bounds that hold now, where it differs from the last one and there are fewer than 256. Once there are
    /// 128, it looks for one only where the nodes have grown by an eighth since the last look, so that rows are left for a long
    /// search. It takes no memory.
    pub fn note(&mut self, network: &Network)
        requires own { network.now ≡ M.network }
        ensures notes { NotesOrWaits M.network (pool self.old) (pool self.new) }
        ensures recorded { self.new.recorded ≡ self.old.recorded }
    {
        if self.is_due() {
            self.note_now(network);
        }
    }

    /// Whether it is looked for a row of bounds.
    fn is_due(&self) -> bool
        ensures { IsFalse result → 128 ≤ length (pool self.now).rows }
    {
        self.leaves.rows().len() < CLOSE_ROWS || self.leaves.nodes() >= self.due
    }

    /// Notes a row of the bounds that hold now, where it differs from the last one and there are fewer than 256.
    fn note_now(&mut self, network: &Network)
        requires own { network.now ≡ M.network }
        ensures notes { PoolNotes M.network (pool self.old) (pool self.new) }
        ensures recorded { self.new.recorded ≡ self.old.recorded }
    {
        network.law_limits();
        self.holder.law_kept();
        self.leaves.note(network, self.holder.seen());
        let nodes = self.leaves.nodes();
        self.due = nodes.saturating_add(nodes / 8);
    }
}
