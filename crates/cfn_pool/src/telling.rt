//! What is told of the pool while a search runs.

ghost use Rattle.std.specs.Prelude.{◌≡◌, Some, None, nat_lt, if◌then◌else◌};
ghost use Rattle.cfn_explore.specs.Telling.{AreBounds};
ghost use Rattle.cfn_pool.specs.Telling.{IsNews};
ghost use Rattle.cfn_pool.specs.Views.{pool};

use crate::pool::Pool;
use cfn_explore::News;
use cfn_low::Incumbent;
use cfn_net::Network;
use cfn_proof::Row;

impl<M: Incumbent> Pool<M> {
    /// How far the search is now. Its bounds hold. It takes no memory, and goes over all leaves that have a number.
    pub fn news(&self, network: &Network) -> News
        requires own { network.now ≡ M.network }
        ensures is { IsNews M.network (pool self.now) result }
        ensures hold { AreBounds M.network result.bounds }
    {
        network.law_limits();
        self.holder.law_kept();
        let seen = self.holder.seen();
        News {
            bounds: Row {
                lower: self.leaves.bound(seen),
                upper: below(seen, network.ub()),
            },
            nodes: self.leaves.nodes(),
            leaves: self.leaves.open_leaves(),
        }
    }
}

/// A threshold where it is below the upper bound.
fn below(seen: u64, upper: u64) -> Option<u64>
    ensures { result ≡ (if nat_lt seen upper then Some seen else None) }
{
    if seen < upper { Some(seen) } else { None }
}
