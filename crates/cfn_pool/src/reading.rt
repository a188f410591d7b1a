//! What is read of the pool.

ghost use Rattle.std.specs.Prelude.{◌≡◌, ◌+◌, ◌≤◌, ◌^◌, [], IsTrue, IsFalse};
ghost use Rattle.cfn_model.specs.Tree.{bound, open_leaves};
ghost use Rattle.cfn_machine.specs.Pool as machine;
ghost use Rattle.cfn_machine.specs.Parts.{HasActiveBelow, NoneActiveBelow};
ghost use Rattle.cfn_machine.specs.Pool.{granted, price};
ghost use Rattle.cfn_machine.specs.Laws.{IsPool};
ghost use Rattle.cfn_pool.specs.Views.{pool, AreReached};

use crate::pool::Pool;
use cfn_low::Incumbent;
use cfn_proof::Row;

impl<M: Incumbent> Pool<M> {
    /// Nothing: its contract tells a caller what a pool keeps. It is sound, its leaves have numbers of their own, what it
    /// keeps fits; and each upper number of a row is the cost of an assignment.
    pub fn law_kept(&self)
        ensures pool { IsPool M.network (pool self.now) }
        ensures rows { AreReached M.network (pool self.now).rows }
    {
        let _ = &self.leaves;
    }

    /// The threshold that the pool's part of the word has seen last.
    pub fn seen(&self) -> u64
        ensures { result ≡ (pool self.now).view.seen }
    {
        self.holder.seen()
    }

    /// How many nodes were made since the opening: splits and closed leaves of pieces.
    pub fn nodes(&self) -> u64
        ensures { result ≡ (pool self.now).nodes }
    {
        self.leaves.nodes()
    }

    /// How many leaves are open, free or out, at most 2^32.
    pub fn open_leaves(&self) -> u64
        ensures is { result ≡ open_leaves (machine.tree_of (pool self.now).tree) }
        ensures few { result ≤ 2 ^ 32 }
    {
        self.leaves.open_leaves()
    }

    /// Whether a leaf is open that is not set aside, and has a floor below the price of what the pool keeps. It takes no memory, and
    /// goes over all leaves that have a number.
    pub fn has_own(&self) -> bool
        ensures some { IsTrue result → HasActiveBelow M.network (pool self.now).tree (price M.network (pool self.now).view.best) }
        ensures none { IsFalse result → NoneActiveBelow M.network (pool self.now).tree (price M.network (pool self.now).view.best) }
    {
        let best = self.holder.best();
        best.law_priced();
        self.leaves.has_active_below(best.price())
    }

    /// How many nodes may be made.
    pub fn budget(&self) -> u64
        ensures { result ≡ (pool self.now).budget }
    {
        self.leaves.budget()
    }

    /// How many nodes the budget has left beside those that were made and those that may still be made below leaves that
    /// are out.
    pub fn left(&self) -> u64
        ensures { result + ((pool self.now).nodes + granted (pool self.now).tree) ≡ (pool self.now).budget }
    {
        self.leaves.left()
    }

    /// The rows of bounds that were noted, the first of them first.
    pub fn rows(&self) -> &[Row]
        ensures { result.now ≡ (pool self.now).rows }
    {
        self.leaves.rows()
    }

    /// The least of the threshold that was seen and the floors of all open leaves, free or out. It takes no memory, and goes
    /// over all leaves that have a number.
    pub fn bound(&self) -> u64
        ensures { result ≡ bound M.network [] (machine.tree_of (pool self.now).tree) (pool self.now).view.seen }
    {
        self.leaves.bound(self.holder.seen())
    }
}
