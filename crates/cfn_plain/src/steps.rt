//! Which steps are allowed after a history, and whether a list of steps runs.

ghost use Rattle.std.specs.Prelude.{◌≡◌, ◌↔◌, ◌<◌, ◌∷◌, length, IsTrue, IfOk};
ghost use Rattle.cfn_model.specs.Steps.{IsValue, IsDecision, IsPlace, InRange, CanExtend, CanLift, Allowed, Run, after};

use crate::decisions::{value_of, variable_of};
use crate::functions::variable;
use crate::live::is_live;
use crate::sums::{floor, unary};
use crate::tuples::{all_tuples_allow, reaches};
use cfn_model::{Decision, Event, Step};
use cfn_net::Network;
use cfn_proof::Block;
use std::alloc::{AllocError, Global};

/// Whether a step is allowed after a history, the newest event first, at the threshold `k` (Cooper et al. 2010). An
/// `Err` is want of memory.
pub fn allowed(
    alloc: Global,
    network: &Network,
    history: &[Event],
    step: Step,
    k: u64,
) -> Result<bool, AllocError>
    ensures { IfOk result (λ answer. IsTrue answer ↔ Allowed network.now history.now k step) }
{
    if !is_in_range(network, step) {
        return Ok(false);
    }
    match step {
        Step::Project { amount, .. } => {
            Ok(amount > 0 && all_tuples_allow(alloc, network, history, step, k)?)
        }
        Step::Extend {
            function,
            place,
            value,
            amount,
        } => {
            let x = variable(network, function, place as usize);
            Ok(amount > 0 && can_extend(network, history, x, value, amount))
        }
        Step::Lift { variable, amount } => {
            Ok(amount > 0 && can_lift(network, history, variable, amount))
        }
        Step::CutValue { variable, value } => {
            let cost = unary(network, history, variable, value);
            Ok(reaches(k, floor(network, history), cost))
        }
        Step::CutTuple { .. } => all_tuples_allow(alloc, network, history, step, k),
    }
}

/// Whether each step is allowed after the history, the newest event first, and the steps before it, at the threshold
/// `k`. An `Err` is want of memory.
pub fn runs(
    alloc: Global,
    network: &Network,
    history: &[Event],
    steps: &[Step],
    k: u64,
) -> Result<bool, AllocError>
    ensures { IfOk result (λ answer. IsTrue answer ↔ Run network.now history.now steps.now k) }
{
    let mut events = Vec::from_slice(alloc, history)?;
    for step in steps {
        if !allowed(alloc, network, events.as_slice(), *step, k)? {
            return Ok(false);
        }
        events.insert(0, Event::Did(*step))?;
    }
    Ok(true)
}

/// Whether the steps of a block run after the history, the newest event first, at the threshold `k`. An `Err` is want
/// of memory.
pub(crate) fn block_runs(
    alloc: Global,
    network: &Network,
    history: &[Event],
    block: &Block,
    k: u64,
) -> Result<bool, AllocError>
    ensures { IfOk result (λ answer. IsTrue answer ↔ Run network.now history.now block.now k) }
{
    let mut steps = Vec::new(alloc);
    for step in block.cursor() {
        steps.push(step)?;
    }
    runs(alloc, network, history, steps.as_slice(), k)
}

/// The history after the steps of a block: the newest event is first. An `Err` is want of memory.
pub(crate) fn after(
    alloc: Global,
    block: &Block,
    history: &[Event],
) -> Result<Vec<Event>, AllocError>
    ensures { IfOk result (λ events. events.items ≡ after block.now history.now) }
{
    let mut events = Vec::from_slice(alloc, history)?;
    for step in block.cursor() {
        events.insert(0, Event::Did(step))?;
    }
    Ok(events)
}

/// The history with one more event, which is the newest.
pub(crate) fn extended(
    alloc: Global,
    event: Event,
    history: &[Event],
) -> Result<Vec<Event>, AllocError>
    ensures { IfOk result (λ events. events.items ≡ event ∷ history.now) }
{
    let mut events = Vec::from_slice(alloc, history)?;
    events.insert(0, event)?;
    Ok(events)
}

/// Whether `x` is a variable, and `value` one of its values.
fn is_value(network: &Network, x: u32, value: u32) -> bool
    ensures { IsTrue result ↔ IsValue network.now x value }
{
    x < network.variables() && value < network.size(x)
}

/// Whether a decision's variable is one, and the value that it names is one of its values.
pub(crate) fn is_decision(network: &Network, decision: Decision) -> bool
    ensures { IsTrue result ↔ IsDecision network.now decision }
{
    is_value(network, variable_of(decision), value_of(decision))
}

/// Whether a step's numbers are in range.
fn is_in_range(network: &Network, step: Step) -> bool
    ensures { IsTrue result ↔ InRange network.now step }
{
    match step {
        Step::Project {
            function,
            place,
            value,
            ..
        } => is_place(network, function, place, value),
        Step::Extend {
            function,
            place,
            value,
            ..
        } => is_place(network, function, place, value),
        Step::Lift { variable, .. } => variable < network.variables(),
        Step::CutValue { variable, value } => is_value(network, variable, value),
        Step::CutTuple { function, cell } => {
            function < network.functions() && cell < network.cells(function)
        }
    }
}

/// Whether `f` is a function, `place` one of its places, and `value` one of the values there.
fn is_place(network: &Network, f: u32, place: u32, value: u32) -> bool
    ensures { IsTrue result ↔ IsPlace network.now f place value }
{
    if f >= network.functions() {
        return false;
    }
    network.law_limits();
    match network.scope(f).get(place as usize) {
        Some(x) => value < network.size(*x),
        None => false,
    }
}

/// Whether a value of `x` is not live, or has a unary cost of at least `amount`.
fn can_extend(network: &Network, history: &[Event], x: u32, value: u32, amount: u64) -> bool
    ensures { IsTrue result ↔ CanExtend network.now history.now x value amount }
{
    !is_live(history, x, value) || amount as i128 <= unary(network, history, x, value)
}

/// Whether each live value of `x` has a unary cost of at least `amount`.
fn can_lift(network: &Network, history: &[Event], x: u32, amount: u64) -> bool
    requires { x < length network.now.sizes }
    ensures { IsTrue result ↔ CanLift network.now history.now x amount }
{
    for value in 0..network.size(x) {
        if !can_extend(network, history, x, value, amount) {
            return false;
        }
    }
    true
}
