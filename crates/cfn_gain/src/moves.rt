//! One step, where the block has room for it.

ghost use Rattle.std.specs.Prelude.{◌≡◌, ◌+◌, ◌-◌, ◌<◌, ◌≤◌, length, Err, OnOk, OnErr, IsTrue};
ghost use Rattle.cfn_model.specs.declared.step.Step.TheVariants.{Project, Extend, Lift, CutValue, CutTuple};
ghost use Rattle.cfn_model.specs.Sums.{floor, is_live};
ghost use Rattle.cfn_model.specs.Steps.{IsValue, IsCell, CanCutValue, CanCutTuple};
ghost use Rattle.cfn_gain.specs.Passes.{IsLeast};
ghost use Rattle.cfn_store.specs.Standing.{history, with_step, FitsProject, FitsExtend};
ghost use Rattle.cfn_gain.specs.Calls.{GoesOn, Does, Grows};
ghost use Rattle.cfn_gain.specs.Gains.{GainsBehind};

use crate::limits::{Halt, Limits};
use cfn_store::Store;

/// What the floor lacks of the threshold, at least 1.
pub fn lacking(store: &Store<'_>, limits: Limits) -> u64
    requires goes { GoesOn store.now limits }
    ensures { floor store.now.network (history store.now) + result ≡ limits.threshold }
{
    limits.threshold - store.floor() as u64
}

/// `Err`, spent, where the block has as many steps as it may have.
fn room(store: &Store<'_>, limits: Limits) -> Result<(), Halt>
    ensures ok { OnOk result (length store.now.block < limits.steps) }
    ensures err { result ≡ Err Halt.Dead → ⊥ }
    ensures spent { result ≡ Err Halt.Spent → limits.steps ≤ length store.now.block }
{
    if store.block_len() < limits.steps {
        Ok(())
    } else {
        Err(Halt::Spent)
    }
}

/// Projects an amount to a value. An `Err` leaves the store as it was, as with `extend` and `cut_tuple`.
pub fn project(
    store: &mut Store<'_>,
    limits: Limits,
    f: u32,
    place: u32,
    value: u32,
    amount: u64,
) -> Result<(), Halt>
    requires goes { GoesOn store.old limits }
    requires fits { FitsProject store.old f place value amount }
    ensures does { Does store.old store.new limits result }
    ensures made { OnOk result (store.new ≡ with_step store.old (Project f place value amount)) }
    ensures stopped { OnErr result (store.new ≡ store.old) }
    ensures spent { result ≡ Err Halt.Dead → ⊥ }
{
    room(store, limits)?;
    store.project(f, place, value, amount);
    Ok(())
}

/// Extends an amount from a value.
pub fn extend(
    store: &mut Store<'_>,
    limits: Limits,
    f: u32,
    place: u32,
    value: u32,
    amount: u64,
) -> Result<(), Halt>
    requires goes { GoesOn store.old limits }
    requires fits { FitsExtend store.old f place value amount }
    ensures does { Does store.old store.new limits result }
    ensures made { OnOk result (store.new ≡ with_step store.old (Extend f place value amount)) }
    ensures stopped { OnErr result (store.new ≡ store.old) }
    ensures spent { result ≡ Err Halt.Dead → ⊥ }
{
    room(store, limits)?;
    store.extend(f, place, value, amount);
    Ok(())
}

/// Lifts from a variable what its live values have in common, but no more than the floor lacks of the threshold: then the
/// store is dead.
pub fn lift(store: &mut Store<'_>, limits: Limits, x: u32, least: u64) -> Result<(), Halt>
    requires goes { GoesOn store.old limits }
    requires variable { x < length store.old.network.sizes }
    requires some { 0 < least }
    requires least { IsLeast store.old.network (history store.old) x least }
    ensures does { Does store.old store.new limits result }
    ensures made { OnOk result (store.new ≡ with_step store.old (Lift x least)) }
    ensures dead { result ≡ Err Halt.Dead → store.new ≡ with_step store.old (Lift x (limits.threshold - floor store.old.network (history store.old))) }
    ensures short { result ≡ Err Halt.Dead → limits.threshold ≤ floor store.old.network (history store.old) + least }
    ensures spent { result ≡ Err Halt.Spent → store.new ≡ store.old }
    ensures gains { GainsBehind store.old store.new limits result }
    ensures grows { OnOk result (Grows store.old store.new) }
{
    room(store, limits)?;
    store.network().law_limits();
    let lacks = lacking(store, limits);
    store.lift(x, least.min(lacks));
    if least < lacks {
        Ok(())
    } else {
        Err(Halt::Dead)
    }
}

/// Cuts a value whose unary cost reaches what the floor lacks. An `Err` leaves the store as it was.
pub fn cut_value(store: &mut Store<'_>, limits: Limits, x: u32, value: u32) -> Result<(), Halt>
    requires goes { GoesOn store.old limits }
    requires value { IsValue store.old.network x value }
    requires reaches { CanCutValue store.old.network (history store.old) limits.threshold x value }
    ensures does { Does store.old store.new limits result }
    ensures made { OnOk result (store.new ≡ with_step store.old (CutValue x value)) }
    ensures stopped { OnErr result (store.new ≡ store.old) }
    ensures spent { result ≡ Err Halt.Dead → ⊥ }
    ensures gains { IsTrue (is_live (history store.old) x value) → GainsBehind store.old store.new limits result }
{
    room(store, limits)?;
    store.cut_value(x, value);
    Ok(())
}

/// Cuts a tuple whose residual cost reaches what the floor lacks.
pub fn cut_tuple(store: &mut Store<'_>, limits: Limits, f: u32, cell: u32) -> Result<(), Halt>
    requires goes { GoesOn store.old limits }
    requires cell { IsCell store.old.network f cell }
    requires reaches { CanCutTuple store.old.network (history store.old) limits.threshold f cell }
    ensures does { Does store.old store.new limits result }
    ensures made { OnOk result (store.new ≡ with_step store.old (CutTuple f cell)) }
    ensures stopped { OnErr result (store.new ≡ store.old) }
    ensures spent { result ≡ Err Halt.Dead → ⊥ }
{
    room(store, limits)?;
    store.cut_tuple(f, cell);
    Ok(())
}
