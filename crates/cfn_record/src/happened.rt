//! What can be done to the pool.

ghost use Rattle.cfn_record.specs.Lines.{AreSpelled};
ghost use Rattle.cfn_record.specs.Histories.{IsSpelledEntry, entry_of, numbers_of};

use cfn_proof::Tree;

/// One thing that was done to the pool of open leaves. `worker` and `leaf` are their numbers, `want` and `grant` are numbers of nodes, and
/// `threshold` and `seen` are costs.
#[derive(Drop)]
pub enum Happened {
    /// A worker that wanted to make at most `want` nodes took a leaf, and may make `grant` nodes below it.
    Took {
        worker: u32,
        want: u64,
        leaf: u64,
        grant: u64,
    },
    /// A worker gave a piece for its leaf: a tree that it made at a threshold. The pool has seen the cost `seen` afterwards.
    Gave {
        worker: u32,
        leaf: u64,
        grant: u64,
        threshold: u64,
        seen: u64,
        tree: Tree,
    },
    /// A worker gave its leaf back as it was.
    Freed {
        worker: u32,
        leaf: u64,
        grant: u64,
    },
    /// Every leaf that was out was called back.
    CalledBack,
    /// Each free leaf whose floor is at least `seen`, which the pool has seen, was closed.
    Swept {
        seen: u64,
    },
}

impl Happened {
    /// Nothing: its contract says that the number of a worker and a tree always have a spelling.
    pub(crate) fn law_spelled(&self)
        requires { AreSpelled (numbers_of self.now) }
        ensures { IsSpelledEntry (entry_of self.now) }
    {
        match self {
            Happened::Took { worker, .. } | Happened::Freed { worker, .. } => {
                let _worker = *worker;
            }
            Happened::Gave { worker, tree, .. } => {
                let _worker = *worker;
                tree.law_linked();
            }
            Happened::CalledBack | Happened::Swept { .. } => {}
        }
    }
}
