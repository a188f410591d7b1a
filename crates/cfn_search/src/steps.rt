//! Leaves are taken from the pool, pieces are handed in, bounds are noted and told, and what need not be searched is closed.

ghost use Rattle.std.specs.Prelude.{◌≡◌, ◌≤◌, IfSome, IfOk, IfErr, OnOk};
ghost use Rattle.cfn_model.specs.declared.limits.TheConstants.{GREATEST};
ghost use Rattle.cfn_explore.specs.Telling.{AreBounds};
ghost use Rattle.cfn_pool.specs.Answers.{NotesOrWaits, Sweeps};
ghost use Rattle.cfn_pool.specs.Recorded.{HasSpare};
ghost use Rattle.cfn_pool.specs.Telling.{IsNews};
ghost use Rattle.cfn_pool.specs.Views.{pool};
ghost use Rattle.cfn_search.specs.Searching.{IsSearch, GoesOn, HasMore, Asks, HandsIn, IsUnplaced, StaysReady, SweepsBelow};
ghost use Rattle.cfn_search.specs.Granting.{IsLimit};

use crate::account::Account;
use crate::grants::limit_after;
use crate::hand::{InHand, Made, Unplaced};
use cfn_explore::{Gate, News};
use cfn_low::{Incumbent, Low};
use cfn_net::Network;
use cfn_pool::{Pool, Taken};

/// The pool's answer to a worker that asks for a leaf.
pub enum Asked {
    /// A task.
    Task { task: InHand },
    /// None now: no leaf is free, or all that the budget has left is granted.
    Later,
    /// None any more: no leaf is open.
    Done,
    /// None any more: the budget is spent.
    Spent,
    /// There is no memory for a leaf's path, or for the record.
    Memory,
}

/// Asks for a leaf.
pub fn take<M: Incumbent>(network: &Network, held: &mut Pool<M>, worker: u32, want: u64) -> Asked
    requires own { network.now ≡ M.network }
    requires wants { 1 ≤ want }
    requires most { want ≤ GREATEST }
    requires search { IsSearch M.start (pool held.old) }
    requires spare { HasSpare 2 held.old.recorded }
    ensures goes { GoesOn M.start (pool held.old) (pool held.new) }
    ensures ready { StaysReady held.old held.new }
    ensures nodes { (pool held.new).nodes ≡ (pool held.old).nodes }
    ensures asks { Asks M.network held.old worker want result held.new }
{
    held.law_kept();
    match held.take(network, worker, want) {
        Taken::Given { task } => Asked::Task {
            task: InHand::of(task),
        },
        Taken::Again => Asked::Later,
        Taken::Empty => Asked::Done,
        Taken::Spent => Asked::Spent,
        Taken::Memory => Asked::Memory,
    }
}

/// Gives a dive's piece to the pool, with an account whose least threshold is at most the piece's, notes the bounds, and closes
/// what need not be searched any more. It answers how many backtracks the next dive may make. Where the piece is in its leaf's
/// place, the pool has seen no more than the threshold at which it was made; an `Err` tells why it is not there.
pub fn hand_in<M: Incumbent>(
    network: &Network,
    low: &Low<M>,
    held: &mut Pool<M>,
    account: &mut Account<M>,
    made: Made,
    limit: u64,
) -> Result<u64, Unplaced>
    requires network { network.now ≡ M.network }
    requires own { made.network ≡ M.network }
    requires least { account.old.least ≤ made.threshold }
    requires search { IsSearch M.start (pool held.old) }
    requires spare { HasSpare 2 held.old.recorded }
    requires limit { IsLimit limit }
    ensures goes { GoesOn M.start (pool held.old) (pool held.new) }
    ensures ready { StaysReady held.old held.new }
    ensures account { account.new ≡ account.old }
    ensures next { IfOk result IsLimit }
    ensures steps { OnOk result (HandsIn M.network (pool held.old) made account.old.part.seen (pool held.new)) }
    ensures more { OnOk result (HasMore (pool held.old) (pool held.new)) }
    ensures seen { OnOk result ((pool held.new).view.seen ≤ made.threshold) }
    ensures unplaced { IfErr result (λ why. IsUnplaced held.old made.task why held.new) }
{
    let before = held.seen();
    let leaves = held.open_leaves();
    match made.give(low, held, account) {
        Ok(()) => {
            note(network, held);
            sweep_below(low, held, before);
            held.law_kept();
            Ok(limit_after(limit, held.open_leaves() >= leaves))
        }
        Err(why) => Err(why),
    }
}

/// Notes a row of bounds.
fn note<M: Incumbent>(network: &Network, held: &mut Pool<M>)
    requires own { network.now ≡ M.network }
    requires search { IsSearch M.start (pool held.old) }
    ensures notes { NotesOrWaits M.network (pool held.old) (pool held.new) }
    ensures recorded { held.new.recorded ≡ held.old.recorded }
    ensures goes { GoesOn M.start (pool held.old) (pool held.new) }
    ensures nodes { (pool held.new).nodes ≡ (pool held.old).nodes }
{
    held.note(network);
}

/// Closes what need not be searched, where the pool has seen less than `before`.
fn sweep_below<M: Incumbent>(low: &Low<M>, held: &mut Pool<M>, before: u64)
    requires search { IsSearch M.start (pool held.old) }
    requires spare { HasSpare 3 held.old.recorded }
    ensures ready { StaysReady held.old held.new }
    ensures sweeps { SweepsBelow M.network before (pool held.old) (pool held.new) }
    ensures goes { GoesOn M.start (pool held.old) (pool held.new) }
    ensures nodes { (pool held.new).nodes ≡ (pool held.old).nodes }
{
    let fallen = held.seen() < before;
    if fallen {
        sweep(low, held);
    }
}

/// Closes what need not be searched. Where a record is kept, there has to be room for one entry more than afterwards.
pub fn sweep<M: Incumbent>(low: &Low<M>, held: &mut Pool<M>)
    requires search { IsSearch M.start (pool held.old) }
    requires spare { HasSpare 3 held.old.recorded }
    ensures ready { StaysReady held.old held.new }
    ensures sweeps { Sweeps M.network (pool held.old) (pool held.new) }
    ensures goes { GoesOn M.start (pool held.old) (pool held.new) }
    ensures nodes { (pool held.new).nodes ≡ (pool held.old).nodes }
{
    held.law_kept();
    held.sweep(low);
}

/// How far the search is, where a gate asks for it; before the last piece was handed in, the pool had seen `before`.
pub fn news<M: Incumbent, G: Gate>(
    network: &Network,
    held: &Pool<M>,
    gate: &G,
    before: u64,
) -> Option<News>
    requires own { network.now ≡ M.network }
    ensures is { IfSome result (IsNews M.network (pool held.now)) }
    ensures hold { IfSome result (λ news. AreBounds M.network news.bounds) }
{
    if gate.asks(held.seen() < before) {
        Some(held.news(network))
    } else {
        None
    }
}
