//! Arc consistency (Larrosa and Schiex 2004): what the live tuples with a value have in common goes to its unary cost.

ghost use Rattle.std.specs.Prelude.{◌≡◌, ℕ, ◌-◌, ◌<◌, ◌^◌, length, IsTrue, OnOk};
ghost use Rattle.cfn_model.specs.Network.{arity, variable_at};
ghost use Rattle.cfn_model.specs.Sums.{is_live};
ghost use Rattle.cfn_model.specs.Steps.{IsPlace, CanProject};
ghost use Rattle.cfn_consistency.specs.Openness.{TakesPart};
ghost use Rattle.cfn_consistency.specs.Consistency.{HasSupport, IsArcConsistent};
ghost use Rattle.cfn_store.specs.Doubts.{IsLacking};
ghost use Rattle.cfn_store.specs.Standing.{history};
ghost use Rattle.cfn_gain.specs.Calls.{GoesOn, Does, Shows, Grows};
ghost use Rattle.cfn_gain.specs.Gains.{Gains, HasCost};
ghost use Rattle.cfn_gain.specs.Supports.{AreSupported};

use crate::limits::{Halt, Limits};
use crate::moves::{cut_value, lacking, project};
use cfn_store::{Doubt, Store};

/// Projects to a live value what all live tuples with it have, at least `least`, but no more than makes its unary cost what
/// the floor lacks: then it is cut. With no such tuple `least` may be any amount, as the greatest. In a function that takes
/// part the steps are a group, where one of the tuples has no more than `least`.
pub fn gain(
    store: &mut Store<'_>,
    limits: Limits,
    f: u32,
    place: u32,
    value: u32,
    least: u64,
) -> Result<(), Halt>
    requires goes { GoesOn store.old limits }
    requires place { IsPlace store.old.network f place value }
    requires live { IsTrue (is_live (history store.old) (variable_at store.old.network f place) value) }
    requires some { 0 < least }
    requires least { CanProject store.old.network (history store.old) f place value least }
    ensures does { Does store.old store.new limits result }
    ensures grows { OnOk result (Grows store.old store.new) }
    ensures gains { TakesPart store.old.network (history store.old) f → (least < 2 ^ 64 - 1 → HasCost store.old.network (history store.old) f place value least) → Gains store.old store.new limits result }
{
    store.network().law_limits();
    let x = store.network().scope(f)[place as usize];
    let lacks = lacking(store, limits);
    let has = store.unary(x, value);
    if has >= lacks {
        return cut_value(store, limits, x, value);
    }
    let short = lacks - has;
    project(store, limits, f, place, value, least.min(short))?;
    if least < short {
        return Ok(());
    }
    cut_value(store, limits, x, value)
}

/// Makes the live values at a place of `f` arc consistent.
pub fn support_at(store: &mut Store<'_>, limits: Limits, f: u32, place: u32) -> Result<(), Halt>
    requires goes { GoesOn store.old limits }
    requires function { f < length store.old.network.functions }
    requires place { place < arity store.old.network f }
    ensures does { Does store.old store.new limits result }
    ensures gains { TakesPart store.old.network (history store.old) f → Gains store.old store.new limits result }
    ensures supports { Shows store.old store.new result (AreSupported store.old.network (history store.old) f place) }
{
    store.network().law_limits();
    let mut from = 0;
    while let Some(doubt) = store.next_lacking(f, place, from) {
        gain_support(store, limits, f, place, doubt)?;
        from = doubt.value + 1;
    }
    Ok(())
}

/// Projects to a live value that has no support what all live tuples with it have.
fn gain_support(
    store: &mut Store<'_>,
    limits: Limits,
    f: u32,
    place: u32,
    doubt: Doubt,
) -> Result<(), Halt>
    requires goes { GoesOn store.old limits }
    requires lacking { (from : ℕ) × IsLacking store.old.network (history store.old) f place from doubt }
    ensures does { Does store.old store.new limits result }
    ensures gains { TakesPart store.old.network (history store.old) f → Gains store.old store.new limits result }
    ensures support { Shows store.old store.new result (HasSupport store.old.network (history store.old) f place doubt.value) }
{
    let least = match doubt.least {
        Some(extreme) => extreme.cost,
        None => u64::MAX,
    };
    gain(store, limits, f, place, doubt.value, least)
}

/// Makes the live values of each variable of `f` arc consistent in it.
pub fn support_all(store: &mut Store<'_>, limits: Limits, f: u32) -> Result<(), Halt>
    requires goes { GoesOn store.old limits }
    requires function { f < length store.old.network.functions }
    ensures does { Does store.old store.new limits result }
    ensures gains { TakesPart store.old.network (history store.old) f → Gains store.old store.new limits result }
    ensures supports { Shows store.old store.new result (IsArcConsistent store.old.network (history store.old) f) }
{
    store.network().law_limits();
    for place in 0..store.network().scope(f).len() as u32 {
        support_at(store, limits, f, place)?;
    }
    Ok(())
}
