//! Tuples whose residual cost reaches what the floor lacks of the threshold are cut, so that what is left has room for more.

ghost use Rattle.std.specs.Prelude.{◌≡◌, ◌+◌, ◌<◌, ◌≤◌, ◌-◌, ◌⊎◌, length, Err, OnOk, MatchOption};
ghost use Rattle.cfn_model.specs.Steps.{IsPlace};
ghost use Rattle.cfn_store.specs.Standing.{Standing, history};
ghost use Rattle.cfn_gain.specs.Calls.{GoesOn, Does};
ghost use Rattle.cfn_gain.specs.Gains.{Gained, IsOpen};
ghost use Rattle.cfn_dac.specs.Moves.{Trims, KeepsCheap, CostBelow, IsCostly};

use cfn_gain::{Halt, Limits, cut_tuple, lacking};
use cfn_store::Store;

/// Cuts the live tuples of `f` with a value at a place whose residual cost reaches what the floor lacks. Each cut closes a
/// group.
pub(crate) fn trim(
    store: &mut Store<'_>,
    limits: Limits,
    f: u32,
    place: u32,
    value: u32,
) -> Result<(), Halt>
    requires goes { GoesOn store.old limits }
    requires place { IsPlace store.old.network f place value }
    ensures does { Does store.old store.new limits result }
    ensures trims { Trims store.old.network (history store.old) (history store.new) }
    ensures keeps { KeepsCheap store.old.network (history store.old) (history store.new) limits.threshold f }
    ensures gains { (start : Standing) → IsOpen start store.old → Gained start store.new ⊎ (store.new ≡ store.old) }
    ensures spent { result ≡ Err Halt.Dead → ⊥ }
    ensures below { OnOk result (CostBelow store.old.network (history store.new) f place value limits.threshold) }
{
    let lacks = lacking(store, limits);
    while let Some(cell) = costly(store, f, place, value, lacks) {
        cut_tuple(store, limits, f, cell)?;
    }
    Ok(())
}

/// The number of a tuple whose residual cost is at least an amount.
fn costly(store: &Store<'_>, f: u32, place: u32, value: u32, least: u64) -> Option<u32>
    requires { IsPlace store.now.network f place value }
    ensures { MatchOption result (CostBelow store.now.network (history store.now) f place value least)
        (IsCostly store.now.network (history store.now) f place value least) }
{
    let extreme = store.greatest_residual(f, place, value)?;
    if extreme.cost >= least {
        Some(extreme.cell)
    } else {
        None
    }
}
