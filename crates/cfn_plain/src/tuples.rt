//! What a step asks of every tuple of its function.

ghost use Rattle.std.specs.Prelude.{◌≡◌, ◌↔◌, ℕ, ◌<◌, ◌≤◌, List, length, take, pos, ◌+ℤ◌, ◌≤ℤ◌, IsTrue, IfOk};
ghost use Rattle.cfn_model.specs.Network.{Fits, dims_at, arity};
ghost use Rattle.cfn_plain.specs.Tuples.{function_in, TupleAllows};

use crate::functions::{number, scope};
use crate::live::is_live_tuple;
use crate::sums::{at, floor, residual};
use cfn_model::{Event, Step};
use cfn_net::Network;
use std::alloc::{AllocError, Global};

/// Whether each tuple of a step's function allows the step after a history, the newest event first.
pub(crate) fn all_tuples_allow(
    alloc: Global,
    network: &Network,
    history: &[Event],
    step: Step,
    k: u64,
) -> Result<bool, AllocError>
    requires { function_in step < length network.now.functions }
    ensures { IfOk result (λ answer. IsTrue answer ↔ ((tuple : List ℕ) → Fits (dims_at network.now (function_in step)) tuple
        → TupleAllows network.now history.now k step tuple)) }
{
    let places = scope(network, function_in(step)).len();
    let mut tuple = vec![in alloc; 0; places]?;
    network.law_limits();
    Ok(tuples_allow(network, history, step, k, tuple.as_mut_slice(), 0))
}

/// Whether each tuple that has the values before `place` allows the step. The values from `place` on may change.
fn tuples_allow(
    network: &Network,
    history: &[Event],
    step: Step,
    k: u64,
    tuple: &mut [u32],
    place: usize,
) -> bool
    requires function { function_in step < length network.now.functions }
    requires place { place ≤ arity network.now (function_in step) }
    requires fits { Fits (dims_at network.now (function_in step)) tuple.old }
    ensures fits { Fits (dims_at network.now (function_in step)) tuple.new }
    ensures before { take place tuple.new ≡ take place tuple.old }
    ensures answer { IsTrue result ↔ ((other : List ℕ) → Fits (dims_at network.now (function_in step)) other
        → take place other ≡ take place tuple.old → TupleAllows network.now history.now k step other) }
{
    let variables = scope(network, function_in(step));
    if place == variables.len() {
        return tuple_allows(network, history, step, k, tuple);
    }
    network.law_limits();
    for value in 0..network.size(variables[place]) {
        tuple[place] = value;
        if !tuples_allow(network, history, step, k, tuple, place + 1) {
            return false;
        }
    }
    true
}

/// Whether a tuple allows the step.
fn tuple_allows(network: &Network, history: &[Event], step: Step, k: u64, tuple: &[u32]) -> bool
    requires { Fits (dims_at network.now (function_in step)) tuple.now }
    ensures { IsTrue result ↔ TupleAllows network.now history.now k step tuple.now }
{
    match step {
        Step::Project {
            function: f,
            place,
            value,
            amount,
        } => {
            at(tuple, place as usize) != value
                || !is_live_tuple(network, history, f, tuple)
                || amount as i128 <= residual(network, history, f, tuple)
        }
        Step::CutTuple { function: f, cell } => {
            number(network, f, tuple) != cell
                || reaches(
                    k,
                    floor(network, history),
                    residual(network, history, f, tuple),
                )
        }
        _ => true,
    }
}

/// The function whose tuples a step speaks of, or 0 where it speaks of none.
fn function_in(step: Step) -> u32
    ensures { result ≡ function_in step }
{
    match step {
        Step::Project { function, .. } => function,
        Step::CutTuple { function, .. } => function,
        _ => 0,
    }
}

/// Whether a floor and a cost reach the threshold `k`.
pub(crate) fn reaches(k: u64, floor: u128, cost: i128) -> bool
    ensures { IsTrue result ↔ (pos k ≤ℤ (pos floor +ℤ cost)) }
{
    let k = k as u128;
    if cost >= 0 {
        k.saturating_sub(floor) <= cost as u128
    } else {
        k + cost.unsigned_abs() <= floor
    }
}
