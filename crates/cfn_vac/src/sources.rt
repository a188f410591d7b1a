//! Sources: from which values a function gathers an amount for one of its own.
//!
//! In the store as it was, a live tuple with the value may cost less than was the case where it was deleted: then it has a value
//! that was deleted before. Of such values the first is a source and is cut, until all tuples cost enough; then the cuts
//! are undone (Cooper et al. 2010).
//!
//! Invariant: the cuts are those of the sources so far, and each source's extend stands before the plan.

ghost use Rattle.std.specs.Prelude.{◌≡◌, ℕ, ◌<◌, ◌≤◌, List, ◌∷◌, length, reverse, OnOk, OnErr, MatchOption, IsTrue};
ghost use Rattle.cfn_model.specs.declared.limits.TheConstants.{GREATEST};
ghost use Rattle.cfn_model.specs.Network.{Fits, cell, cells, dims_at, variable_at};
ghost use Rattle.cfn_model.specs.declared.step.Step.TheVariants.{Extend, CutValue};
ghost use Rattle.cfn_model.specs.Sums.{is_live};
ghost use Rattle.cfn_model.specs.Steps.{IsPlace, CanProject};
ghost use Rattle.cfn_consistency.specs.Virtual.{without};
ghost use Rattle.cfn_store.specs.Standing.{history, with_step};
ghost use Rattle.cfn_vac.specs.Running.{HasGrown};
ghost use Rattle.cfn_vac.specs.Tables.{HasShape, AreBefore};
ghost use Rattle.cfn_vac.specs.Plans.{IsCheap, NoneBefore, IsBefore, IsGathered, Gathers};

use crate::plan::Plan;
use cfn_consistency::{Deletion, Source};
use cfn_net::Network;
use cfn_rows::Rows;
use cfn_store::Store;
use std::alloc::AllocError;

/// A value at a place of a function, for which this gathers an amount.
#[derive(Clone, Copy)]
pub(crate) struct Target {
    pub(crate) function: u32,
    pub(crate) place: u32,
    pub(crate) value: u32,
    pub(crate) amount: u64,
}

/// Puts an extend for each source before the plan, where the target can have `q` without the earlier deletions. An `Err` is
/// want of memory. The store is as it was.
pub(crate) fn gather(
    plan: &mut Plan<'_>,
    store: &mut Store<'_>,
    positions: &Rows<u64>,
    q: u64,
    earlier: &[Deletion],
    target: Target,
) -> Result<(), AllocError>
    requires network { store.old.network ≡ plan.old.network }
    requires place { IsPlace plan.old.network target.function target.place target.value }
    requires amount { (0 < target.amount) × (target.amount ≤ GREATEST) }
    requires positions { AreBefore plan.old.network earlier.now positions.now }
    requires live { IsTrue (is_live (without earlier.now (history store.old)) (variable_at plan.old.network target.function target.place) target.value) }
    requires enough { CanProject plan.old.network (without earlier.now (history store.old)) target.function target.place target.value q }
    requires room { length earlier.now ≤ store.old.spare }
    ensures network { plan.new.network ≡ plan.old.network }
    ensures gathers { OnOk result (Gathers plan.old.network (history store.old) q target.function target.place target.value target.amount (reverse earlier.now) plan.old.steps plan.new.steps) }
    ensures same { store.new ≡ store.old }
{
    let mark = store.mark();
    let result = gather_all(plan, store, positions, q, earlier, target);
    store.undo(&mark);
    result
}

/// The same, with the sources cut in the store.
fn gather_all(
    plan: &mut Plan<'_>,
    store: &mut Store<'_>,
    positions: &Rows<u64>,
    q: u64,
    earlier: &[Deletion],
    target: Target,
) -> Result<(), AllocError>
    requires network { store.old.network ≡ plan.old.network }
    requires place { IsPlace plan.old.network target.function target.place target.value }
    requires amount { (0 < target.amount) × (target.amount ≤ GREATEST) }
    requires positions { AreBefore plan.old.network earlier.now positions.now }
    requires live { IsTrue (is_live (without earlier.now (history store.old)) (variable_at plan.old.network target.function target.place) target.value) }
    requires enough { CanProject plan.old.network (without earlier.now (history store.old)) target.function target.place target.value q }
    requires room { length earlier.now ≤ store.old.spare }
    ensures network { plan.new.network ≡ plan.old.network }
    ensures gathered { OnOk result (IsGathered plan.old.network store.old store.new q target.function target.place target.value target.amount (reverse earlier.now) plan.old.steps plan.new.steps) }
    ensures enough { OnOk result (CanProject plan.old.network (history store.new) target.function target.place target.value q) }
    ensures grown { HasGrown store.old store.new }
{
    store.network().law_limits();
    while let Some(number) = cheap(store, target, q) {
        let end = earlier.len() as u64;
        match earliest(store.network(), positions, target, number, end) {
            Some(source) => cut(plan, store, target, source)?,
            None => unreachable!(),
        }
    }
    Ok(())
}

/// Puts a source's extend before the plan, and cuts the source.
fn cut(
    plan: &mut Plan<'_>,
    store: &mut Store<'_>,
    target: Target,
    source: Source,
) -> Result<(), AllocError>
    requires network { store.old.network ≡ plan.old.network }
    requires place { IsPlace plan.old.network target.function source.place source.value }
    requires amount { (0 < target.amount) × (target.amount ≤ GREATEST) }
    requires room { 0 < store.old.spare }
    ensures network { plan.new.network ≡ plan.old.network }
    ensures put { OnOk result (plan.new.steps ≡ Extend target.function source.place source.value target.amount ∷ plan.old.steps) }
    ensures cut { OnOk result (store.new ≡ with_step store.old (CutValue (variable_at plan.old.network target.function source.place) source.value)) }
    ensures same { OnErr result (store.new ≡ store.old) }
{
    store.network().law_limits();
    plan.extend(target.function, source.place, source.value, target.amount)?;
    let x = store.network().scope(target.function)[source.place as usize];
    store.cut_value(x, source.value);
    Ok(())
}

/// The number of a live tuple with the target's value whose residual cost is below `q`.
fn cheap(store: &Store<'_>, target: Target, q: u64) -> Option<u32>
    requires { IsPlace store.now.network target.function target.place target.value }
    ensures { MatchOption result (CanProject store.now.network (history store.now) target.function target.place target.value q)
        (IsCheap store.now.network (history store.now) target.function target.place target.value q) }
{
    let extreme = store.least_residual(target.function, target.place, target.value)?;
    if extreme.cost < q {
        Some(extreme.cell)
    } else {
        None
    }
}

/// Of the values of a tuple at other places than the target's the one with the least number below an end.
fn earliest(
    network: &Network,
    positions: &Rows<u64>,
    target: Target,
    number: u32,
    end: u64,
) -> Option<Source>
    requires function { target.function < length network.now.functions }
    requires number { number < cells (dims_at network.now target.function) }
    requires shape { HasShape network.now positions.now }
    ensures { (tuple : List ℕ) → Fits (dims_at network.now target.function) tuple → cell (dims_at network.now target.function) tuple ≡ number
        → MatchOption result (NoneBefore network.now positions.now target.function target.place end tuple)
        (IsBefore network.now positions.now target.function target.place end tuple) }
{
    network.law_limits();
    let mut first = end;
    let mut found = None;
    let scope = network.scope(target.function);
    for place in 0..scope.len() as u32 {
        let value = network.value_at(target.function, number, place);
        let position = positions.get(scope[place as usize] as usize, value as usize);
        if place != target.place && position < first {
            first = position;
            found = Some(Source { place, value });
        }
    }
    found
}
