//! What a live value asks: its unary cost and, for each neighbour, what the least live tuple with it costs together with the unary
//! cost of its other value. All of this is added up to at most 2^64 - 1, which is also what a neighbour without a live tuple
//! counts.

ghost use Rattle.std.specs.Prelude.{ℕ, ◌<◌, ◌≤◌, length, IsTrue};
ghost use Rattle.cfn_model.specs.Sums.{unary, is_live};
ghost use Rattle.cfn_model.specs.Steps.{IsValue};
ghost use Rattle.cfn_store.specs.Standing.{history};
ghost use Rattle.cfn_edac.specs.Neighbours.{AreNeighbours};
ghost use Rattle.cfn_edac.specs.Asking.{Asks};
ghost use Rattle.cfn_edac.specs.Owing.{ComesTo};

use cfn_dac::{Pair, least_total};
use cfn_store::Store;

/// What a live value asks of the neighbours of its variable, where that is at most `most`; else a number above `most`, but no more
/// than it asks. It adds no further than to that.
pub(crate) fn asked(pairs: &[Pair], store: &Store<'_>, x: u32, value: u32, most: u64) -> u64
    requires value { IsValue store.now.network x value }
    requires live { IsTrue (is_live (history store.now) x value) }
    requires neighbours { AreNeighbours store.now.network (history store.now) x pairs.now }
    ensures low { ComesTo store.now.network (history store.now) pairs.now value (length pairs.now) (unary store.now.network (history store.now) x value) result }
    ensures is { result ≤ most → Asks store.now.network (history store.now) x pairs.now value (length pairs.now) result }
    ensures above { most < result → (amount : ℕ) → Asks store.now.network (history store.now) x pairs.now value (length pairs.now) amount → most < amount }
{
    store.network().law_limits();
    store.law_exact();
    let mut sum = store.unary(x, value);
    for pair in pairs {
        if sum > most {
            return sum;
        }
        sum = sum.saturating_add(least_total(store, *pair, value));
    }
    sum
}
