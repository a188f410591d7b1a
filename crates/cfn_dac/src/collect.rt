//! Each value that is to get an amount gets it, in one project.

ghost use Rattle.std.specs.Prelude.{◌≡◌, ◌+◌, ◌<◌, ◌≤◌, length, slice_index, Err, OnOk, OnErr};
ghost use Rattle.cfn_store.specs.Standing.{history};
ghost use Rattle.cfn_gain.specs.Calls.{GoesOn, Does, Grows};
ghost use Rattle.cfn_dac.specs.Full.{IsPair, first_of};
ghost use Rattle.cfn_dac.specs.Moves.{AreWithin, AreLent, SomeFrom};
ghost use Rattle.cfn_dac.specs.Shifts.{AreHeld};
ghost use Rattle.cfn_dac.specs.Going.{Gathers, Stalls};

use crate::pair::Pair;
use cfn_gain::{Halt, Limits, project};
use cfn_store::Store;

/// Projects to the values of the first variable their amounts, which all live tuples have.
pub(crate) fn collect(
    store: &mut Store<'_>,
    limits: Limits,
    pair: Pair,
    moves: &[u64],
) -> Result<(), Halt>
    requires goes { GoesOn store.old limits }
    requires pair { IsPair store.old.network pair }
    requires room { slice_index store.old.network.sizes (first_of store.old.network pair) ≤ length moves.now }
    requires lent { AreLent store.old.network (history store.old) pair moves.now 0 }
    requires held { AreHeld store.old.network (history store.old) pair moves.now 0 }
    requires within { AreWithin store.old.network (history store.old) pair limits.threshold moves.now 0 }
    requires some { SomeFrom store.old.network pair moves.now 0 }
    ensures does { Does store.old store.new limits result }
    ensures gathers { OnOk result (Gathers store.old store.new limits.threshold pair moves.now (slice_index store.old.network.sizes (first_of store.old.network pair))) }
    ensures stalls { OnErr result (Stalls store.old store.new limits.threshold pair moves.now) }
    ensures spent { result ≡ Err Halt.Dead → ⊥ }
    ensures grows { OnOk result (Grows store.old store.new) }
{
    store.network().law_limits();
    let x = store.network().scope(pair.function)[pair.place as usize];
    for value in 0..store.network().size(x) {
        let amount = moves[value as usize];
        if amount > 0 {
            project(store, limits, pair.function, pair.place, value, amount)?;
        }
    }
    Ok(())
}
