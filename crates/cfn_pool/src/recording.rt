//! The record of what is done to a pool, where one is kept.
//!
//! There is always room for what can't be refused: two entries for each leaf that is out, and some more. So a record that was begun is
//! there at the end.

ghost use Rattle.std.specs.Prelude.{◌≡◌, ◌<◌, ◌≤◌, ◌^◌, ◌∷◌, ◌+◌, [], IfOk, IfSome, OnOk};
ghost use Rattle.cfn_record.specs.Entries.{CalledBack, Freed, Swept};
ghost use Rattle.cfn_record.specs.Lines.{AreSpelled};
ghost use Rattle.cfn_record.specs.Histories.{entry_of, numbers_of};
ghost use Rattle.cfn_explore.specs.Values.{PieceValue};
ghost use Rattle.cfn_pool.specs.Recorded.{Adds, AddsTaken, HasRoom, HasRoomFor, HasSpare, IsCopied, IsSpelledTaken, gave, out_after, promised, record_of, spare_after, told_in, value_of};

use cfn_explore::{Piece, Task};
use cfn_leaves::Taken;
use cfn_proof::Tree;
use cfn_record::{Happened, History};
use std::alloc::AllocError;

/// For how many entries there is room at the opening: a sweep, and at the end a call for all leaves and a sweep. It is the most that
/// is kept besides two for each leaf that is out.
pub(crate) const SPARE: usize = 3;

/// The record of what is done to a pool.
#[derive(Drop)]
pub enum Recording {
    /// None is kept.
    Off,
    /// This was done, and so many leaves are out. There is room for two entries more for each of them, and for so many besides.
    On {
        history: History,
        out: usize,
        spare: usize,
    },
}

/// What is recorded of a piece.
#[derive(Drop)]
pub struct PieceCopy {
    pub worker: u32,
    pub leaf: u64,
    pub grant: u64,
    pub threshold: u64,
    pub tree: Tree,
}

impl Recording {
    /// Makes room for the taking of a leaf, and for what may be recorded of it until it is no longer out. An `Err`, want of memory,
    /// changes nothing.
    pub(crate) fn make_room(&mut self) -> Result<(), AllocError>
        requires { HasRoom 0 self.old }
        ensures same { value_of self.new ≡ value_of self.old }
        ensures room { HasRoom 0 self.new }
        ensures ok { OnOk result (HasRoom 3 self.new) }
    {
        match self {
            Recording::Off => Ok(()),
            Recording::On {
                history,
                out,
                spare,
            } => {
                let more = promised(*out, *spare).ok_or(AllocError)?;
                history.reserve(more)
            }
        }
    }

    /// Records that a leaf was taken, where one was. It takes no memory.
    pub(crate) fn took(&mut self, worker: u32, want: u64, taken: &Taken)
        requires spelled { IfSome (value_of self.old) (λ r. IsSpelledTaken want taken.now) }
        requires room { HasRoom 3 self.old }
        ensures adds { AddsTaken (value_of self.old) worker want taken.now (value_of self.new) }
        ensures room { HasRoom 0 self.new }
    {
        if let Taken::Given { task } = taken {
            self.add(Happened::Took {
                worker,
                want,
                leaf: task.leaf(),
                grant: task.grant(),
            });
        }
    }

    /// A copy of what is recorded of a piece, where a record is kept. An `Err` is want of memory.
    pub(crate) fn copy(&self, piece: &Piece) -> Result<Option<PieceCopy>, AllocError>
        ensures { IfOk result (IsCopied (value_of self.now) piece.now) }
    {
        let Recording::On { history, .. } = self else {
            return Ok(None);
        };
        let task = piece.task();
        Ok(Some(PieceCopy {
            worker: task.worker(),
            leaf: task.leaf(),
            grant: task.grant(),
            threshold: piece.threshold(),
            tree: piece.tree().copy(history.allocator())?,
        }))
    }
    /// Records that a piece was given, where there is a copy of it. The pool has seen `seen` afterwards. It takes no memory.
    pub(crate) fn gave(&mut self, copy: Option<PieceCopy>, seen: u64)
        requires out { IfSome (value_of self.old) (λ r. 1 ≤ r.out) }
        requires spelled { IfSome copy (λ c. AreSpelled (c.leaf ∷ c.grant ∷ c.threshold ∷ seen ∷ [])) }
        requires room { HasRoom 0 self.old }
        ensures adds { (piece : PieceValue) → IsCopied (value_of self.old) piece copy → Adds (value_of self.old) (gave piece seen) (value_of self.new) }
        ensures room { HasRoom 0 self.new }
    {
        if let Some(
            PieceCopy {
                worker,
                leaf,
                grant,
                threshold,
                tree,
            },
        ) = copy
        {
            self.add(Happened::Gave {
                worker,
                leaf,
                grant,
                threshold,
                seen,
                tree,
            });
        }
    }

    /// Records that a task's leaf was given back. It takes no memory.
    pub(crate) fn freed(&mut self, task: &Task)
        requires out { IfSome (value_of self.old) (λ r. 1 ≤ r.out) }
        requires spelled { IfSome (value_of self.old) (λ r. AreSpelled (task.now.task.leaf ∷ task.now.task.grant ∷ [])) }
        requires room { HasRoom 0 self.old }
        ensures adds { Adds (value_of self.old) (Freed task.now.task.worker task.now.task.leaf task.now.task.grant) (value_of self.new) }
        ensures room { HasRoom 0 self.new }
    {
        self.add(Happened::Freed {
            worker: task.worker(),
            leaf: task.leaf(),
            grant: task.grant(),
        });
    }

    /// Records that every leaf that was out was called back. It takes no memory.
    pub(crate) fn called_back(&mut self)
        requires spare { HasSpare 1 (value_of self.old) }
        requires room { HasRoom 0 self.old }
        ensures adds { Adds (value_of self.old) CalledBack (value_of self.new) }
        ensures room { HasRoom 0 self.new }
    {
        self.add(Happened::CalledBack);
    }

    /// Records a sweep, at a threshold that the pool has seen. It takes no memory.
    pub(crate) fn swept(&mut self, seen: u64)
        requires spare { HasSpare 1 (value_of self.old) }
        requires spelled { IfSome (value_of self.old) (λ r. AreSpelled (seen ∷ [])) }
        requires room { HasRoom 0 self.old }
        ensures adds { Adds (value_of self.old) (Swept seen) (value_of self.new) }
        ensures room { HasRoom 0 self.new }
    {
        self.add(Happened::Swept { seen });
    }

    /// What was done, where a record is kept.
    pub(crate) fn finish(self) -> Option<History>
        ensures { record_of result ≡ told_in (value_of self) }
    {
        match self {
            Recording::On { history, .. } => Some(history),
            Recording::Off => None,
        }
    }

    /// Records what was done last, where a record is kept. It takes no memory.
    fn add(&mut self, happened: Happened)
        requires spelled { IfSome (value_of self.old) (λ r. AreSpelled (numbers_of happened)) }
        requires room { HasRoomFor (entry_of happened) self.old }
        ensures adds { Adds (value_of self.old) (entry_of happened) (value_of self.new) }
        ensures room { HasRoom 0 self.new }
    {
        if let Recording::On {
            history,
            out,
            spare,
        } = self
        {
            *spare = spare_after(&happened, *spare);
            *out = out_after(&happened, *out);
            history.push_reserved(happened);
        }
    }
}

/// For how many entries there has to be room before a leaf is taken: the entry of its taking, two for it, two for each of `out` others,
/// and `spare`. `None` where there is no number for it.
fn promised(out: usize, spare: usize) -> Option<usize>
    ensures { IfSome result (λ more. more ≡ 3 + promised out spare) }
{
    let others = out.checked_add(out)?;
    spare.checked_add(others)?.checked_add(3)
}

/// How many leaves are out after something was done.
fn out_after(happened: &Happened, out: usize) -> usize
    requires { out_after (entry_of happened.now) out < 2 ^ 64 }
    ensures { result ≡ out_after (entry_of happened.now) out }
{
    match happened {
        Happened::Took { .. } => out + 1,
        Happened::Gave { .. } | Happened::Freed { .. } => out.saturating_sub(1),
        Happened::CalledBack => 0,
        Happened::Swept { .. } => out,
    }
}

/// For how many entries there is room then besides those that are promised to leaves.
fn spare_after(happened: &Happened, spare: usize) -> usize
    ensures { result ≡ spare_after (entry_of happened.now) spare }
{
    match happened {
        Happened::Took { .. } => spare,
        Happened::Gave { .. } | Happened::Freed { .. } => spare.saturating_add(1).min(SPARE),
        Happened::CalledBack | Happened::Swept { .. } => spare.saturating_sub(1),
    }
}
