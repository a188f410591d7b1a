//! Full supports for the values of one variable of a function, with regard to another (Cooper et al., Soft arc consistency
//! revisited, 2010).
//!
//! What all live tuples with a value have, each together with the unary cost of its other value, can be moved to the value:
//! extends give the tuples what they lack of it, and then a project takes it. The amounts of all values are worked out first
//! (`plan.rt`); a value of the other variable then gives the most that one of its tuples lacks, in one extend (`spread.rt`),
//! which is no more than it has. Tuples that cost as much as the floor lacks of the threshold are cut before (`trim.rt`), so
//! that no cost comes to 2^64. Last each value gets its amount (`collect.rt`).

ghost use Rattle.std.specs.Prelude.{◌≡◌, ◌+◌, ◌≤◌, length, slice_index, Err, OnOk, OnErr};
ghost use Rattle.cfn_model.specs.Sums.{floor};
ghost use Rattle.cfn_store.specs.Standing.{history};
ghost use Rattle.cfn_gain.specs.Calls.{GoesOn, Does, Shows};
ghost use Rattle.cfn_dac.specs.Full.{IsPair, AreFullBelow, first_of};
ghost use Rattle.cfn_dac.specs.Shifts.{Shifts, LeadsThrough, IsDirected, Closed, SomeLacks};

use crate::collect::collect;
use crate::plan::plan;
use crate::spread::spread;
use cfn_gain::{Halt, Limits};
use cfn_store::Store;

/// Two places of a function: of the variable whose values get full supports, and of the other one.
#[derive(Clone, Copy)]
pub struct Pair {
    pub function: u32,
    pub place: u32,
    pub other: u32,
}

/// Moves to each live value of the first variable with a unary cost below `alpha` what all live tuples with it have, each
/// with its other value, but no more than makes its unary cost `alpha`: then each value of a lower cost has a full support.
/// Where a step was refused some value has none. `moves` is room for an amount for each value, and is left with any. An `Err` leaves the steps that were
/// made.
pub fn full_supports(
    store: &mut Store<'_>,
    limits: Limits,
    pair: Pair,
    alpha: u64,
    moves: &mut [u64],
) -> Result<(), Halt>
    requires goes { GoesOn store.old limits }
    requires pair { IsPair store.old.network pair }
    requires alpha { floor store.old.network (history store.old) + alpha ≤ limits.threshold }
    requires room { slice_index store.old.network.sizes (first_of store.old.network pair) ≤ length moves.old }
    ensures does { Does store.old store.new limits result }
    ensures shifts { Shifts store.old.network pair limits.threshold (history store.old) (history store.new) }
    ensures through { LeadsThrough store.old store.new pair }
    ensures closed { OnOk result (IsDirected store.old.network (history store.old) pair → Closed store.old store.new pair alpha) }
    ensures supported { OnOk result (AreFullBelow store.old.network (history store.new) pair alpha) }
    ensures lacks { OnErr result (SomeLacks store.old.network (history store.new) pair) }
    ensures spent { result ≡ Err Halt.Dead → ⊥ }
    ensures full { Shows store.old store.new result (AreFullBelow store.old.network (history store.old) pair alpha) }
    ensures same { length moves.new ≡ length moves.old }
{
    if !plan(store, pair, alpha, moves) {
        return Ok(());
    }
    spread(store, limits, pair, moves)?;
    collect(store, limits, pair, moves)
}
