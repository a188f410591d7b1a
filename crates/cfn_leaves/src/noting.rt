//! Rows of bounds are noted.

ghost use Rattle.std.specs.Prelude.{◌≡◌, ◌<◌, if◌then◌else◌, nat_lt, Some, None};
ghost use Rattle.cfn_machine.specs.Pool.{View};
ghost use Rattle.cfn_machine.specs.Steps.{PoolNotes, is_last, is_same_upper};
ghost use Rattle.cfn_leaves.specs.Value.{pool_of};

use crate::leaves::{Leaves, ROWS};
use cfn_net::Network;
use cfn_proof::Row;

impl Leaves {
    /// Notes the bounds that hold at a threshold: that of the leaves, and the threshold where it is below the upper bound.
    /// There are at most 256 rows, and none that is the same as the one before it. It takes no memory.
    pub fn note(&mut self, network: &Network, seen: u64)
        requires own { network.now ≡ self.old.network }
        ensures network { self.new.network ≡ self.old.network }
        ensures tree { self.new ≡ record self.old { rows = self.new.rows } }
        ensures notes { (view : View) → view.seen ≡ seen → PoolNotes self.old.network (pool_of self.old view) (pool_of self.new view) }
    {
        let row = Row {
            lower: self.bound(seen),
            upper: below(seen, network.ub()),
        };
        if self.rows.len() < ROWS && !is_last(&self.rows, row) {
            self.rows.push_reserved(row);
        }
    }
}

/// A threshold where it is below the upper bound.
fn below(seen: u64, upper: u64) -> Option<u64>
    ensures { result ≡ (if nat_lt seen upper then Some seen else None) }
{
    if seen < upper { Some(seen) } else { None }
}

/// Whether a row is the same as the last one.
fn is_last(rows: &[Row], row: Row) -> bool
    ensures { result ≡ is_last row rows.now }
{
    match rows.last() {
        Some(last) => row.lower == last.lower && is_same_upper(row.upper, last.upper),
        None => false,
    }
}

/// Whether two upper numbers are the same.
fn is_same_upper(upper: Option<u64>, other: Option<u64>) -> bool
    ensures { result ≡ is_same_upper upper other }
{
    match (upper, other) {
        (Some(upper), Some(other)) => upper == other,
        (None, None) => true,
        _ => false,
    }
}
