//! Makes the steps of a plan, each amount times a factor, or none of them.

ghost use Rattle.std.specs.Prelude.{◌≡◌, ◌*◌, ◌<◌, ◌≤◌, length, map, reverse, IfErr, OnOk, OnErr, MatchOption};
ghost use Rattle.cfn_consistency.specs.Virtual.{scaled};
ghost use Rattle.cfn_store.specs.Standing.{with_step};
ghost use Rattle.cfn_vac.specs.Running.{amount_of, IsShift, AreShifts, CanMake, CanMakeAll, IsRoom, with_steps, HasGrown, IsRefusal};

use cfn_model::Step;
use cfn_store::Store;

/// A step that cannot be made, its number in the plan, from 0 on, and the greatest amount with which it could be.
#[derive(Clone, Copy)]
pub(crate) struct Refusal {
    pub number: usize,
    pub step: Step,
    pub capacity: u64,
}

/// Makes the steps of a plan, the last of which stands first, with a factor at least 1. An `Err` is the first step that cannot
/// be made, and leaves all as it was.
pub(crate) fn run(store: &mut Store<'_>, steps: &[Step], factor: u64) -> Result<(), Refusal>
    requires shifts { AreShifts store.old.network steps.now }
    requires room { length steps.now ≤ store.old.spare }
    requires some { 0 < factor }
    ensures made { OnOk result (CanMakeAll store.old (map (scaled factor) (reverse steps.now))) }
    ensures now { OnOk result (store.new ≡ with_steps store.old (map (scaled factor) (reverse steps.now))) }
    ensures refused { IfErr result (IsRefusal store.old factor (reverse steps.now)) }
    ensures unchanged { OnErr result (store.new ≡ store.old) }
{
    let mark = store.mark();
    let result = make_all(store, steps, factor);
    if result.is_err() {
        store.undo(&mark);
    }
    result
}

/// Makes steps, the last one first, up to the first that cannot be made.
fn make_all(store: &mut Store<'_>, steps: &[Step], factor: u64) -> Result<(), Refusal>
    requires shifts { AreShifts store.old.network steps.now }
    requires room { length steps.now ≤ store.old.spare }
    requires some { 0 < factor }
    ensures made { OnOk result (CanMakeAll store.old (map (scaled factor) (reverse steps.now))) }
    ensures now { OnOk result (store.new ≡ with_steps store.old (map (scaled factor) (reverse steps.now))) }
    ensures refused { IfErr result (IsRefusal store.old factor (reverse steps.now)) }
    ensures grown { HasGrown store.old store.new }
{
    let mut left = steps;
    while let Some((step, rest)) = left.split_last() {
        make(store, steps.len() - left.len(), *step, factor)?;
        left = rest;
    }
    Ok(())
}

/// Makes a step, where it can be made; `number` is its number.
fn make(store: &mut Store<'_>, number: usize, step: Step, factor: u64) -> Result<(), Refusal>
    requires shift { IsShift store.old.network step }
    requires room { 0 < store.old.spare }
    requires some { 0 < factor }
    ensures made { OnOk result (CanMake store.old (scaled factor step)) }
    ensures now { OnOk result (store.new ≡ with_step store.old (scaled factor step)) }
    ensures number { IfErr result (λ refusal. refusal.number ≡ number) }
    ensures step { IfErr result (λ refusal. refusal.step ≡ step) }
    ensures room { IfErr result (λ refusal. IsRoom store.old step refusal.capacity) }
    ensures short { IfErr result (λ refusal. refusal.capacity < factor * amount_of step) }
    ensures unchanged { OnErr result (store.new ≡ store.old) }
{
    let capacity = room(store, step);
    match amount_within(amount(step), factor, capacity) {
        Some(amount) => {
            shift(store, step, factor, amount);
            Ok(())
        }
        None => Err(Refusal {
            number,
            step,
            capacity,
        }),
    }
}

/// Makes a step with its amount times a factor.
fn shift(store: &mut Store<'_>, step: Step, factor: u64, amount: u64)
    requires can { CanMake store.old (scaled factor step) }
    requires room { 0 < store.old.spare }
    requires amount { amount ≡ factor * amount_of step }
    ensures { store.new ≡ with_step store.old (scaled factor step) }
{
    match step {
        Step::Project {
            function,
            place,
            value,
            ..
        } => store.project(function, place, value, amount),
        Step::Extend {
            function,
            place,
            value,
            ..
        } => store.extend(function, place, value, amount),
        Step::Lift { variable, .. } => store.lift(variable, amount),
        Step::CutValue { .. } | Step::CutTuple { .. } => unreachable!(),
    }
}

/// The amount of a step.
pub(crate) fn amount(step: Step) -> u64
    ensures { result ≡ amount_of step }
{
    match step {
        Step::Project { amount, .. } | Step::Extend { amount, .. } | Step::Lift { amount, .. } =>
            amount,
        Step::CutValue { .. } | Step::CutTuple { .. } => 0,
    }
}

/// An amount times a factor, where that is within a capacity.
fn amount_within(amount: u64, factor: u64, capacity: u64) -> Option<u64>
    ensures { MatchOption result (capacity < factor * amount) (λ product. (product ≡ factor * amount) × (product ≤ capacity)) }
{
    let product = factor.checked_mul(amount)?;
    if product <= capacity {
        Some(product)
    } else {
        None
    }
}

/// The greatest amount with which a step can be made.
fn room(store: &Store<'_>, step: Step) -> u64
    requires { IsShift store.now.network step }
    ensures { IsRoom store.now step result }
{
    match step {
        Step::Project {
            function,
            place,
            value,
            ..
        } => store.project_room(function, place, value),
        Step::Extend {
            function,
            place,
            value,
            ..
        } => store.extend_room(function, place, value),
        Step::Lift { variable, .. } => store.lift_room(variable),
        Step::CutValue { .. } | Step::CutTuple { .. } => unreachable!(),
    }
}
