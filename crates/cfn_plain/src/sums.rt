//! The floor, unary costs and residual costs after a history, each added up from the whole history.

ghost use Rattle.std.specs.Prelude.{◌≡◌, ◌<◌, ◌^◌, ◌==◌, ◌&&◌, [], length, slice_index, pos, neg_ℤ, ◌<ℤ◌, ◌≤ℤ◌, MatchBool};
ghost use Rattle.cfn_model.specs.declared.limits.TheConstants.{GREATEST};
ghost use Rattle.cfn_model.specs.Network.{Fits, dims_at, variable_at};
ghost use Rattle.cfn_model.specs.Sums.{when, lifted, floor, unary_by, unary, residual_by, residual};

use crate::functions::{entry, scope, variable};
use cfn_model::{Event, Step};
use cfn_net::Network;

/// The floor after a history, the newest event first: the constants of the functions of arity 0, and what was
/// lifted (Cooper et al. 2010).
pub fn floor(network: &Network, history: &[Event]) -> u128
    ensures { result ≡ floor network.now history.now }
{
    let mut sum = 0;
    for event in history {
        sum += lifted(*event) as u128;
    }
    sum + network.constants()
}

/// The unary cost of a value of `x` after a history, the newest event first: what was projected to it, less what
/// was extended from it or lifted (Cooper et al. 2010).
pub fn unary(network: &Network, history: &[Event], x: u32, value: u32) -> i128
    ensures { result ≡ unary network.now history.now x value }
{
    let mut sum = 0;
    for event in history {
        sum += unary_by(network, *event, x, value);
    }
    sum
}

/// The residual cost of a tuple of `f` after a history, the newest event first: its entry, less what was projected
/// from it, and what was extended to it (Cooper et al. 2010). The entry of a function of arity 0 is in the floor.
pub fn residual(network: &Network, history: &[Event], f: u32, tuple: &[u32]) -> i128
    requires { Fits (dims_at network.now f) tuple.now }
    ensures { result ≡ residual network.now history.now f tuple.now }
{
    let mut sum = 0;
    for event in history {
        sum += residual_by(*event, f, tuple);
    }
    sum + original(network, f, tuple)
}

/// What an event adds to the floor.
fn lifted(event: Event) -> u64
    ensures { result ≡ lifted event }
{
    match event {
        Event::Did(Step::Lift { amount, .. }) => amount,
        _ => 0,
    }
}

/// What an event adds to the unary cost of the value `b` of `x`.
fn unary_by(network: &Network, event: Event, x: u32, b: u32) -> i128
    ensures value { result ≡ unary_by network.now event x b }
    ensures low { neg_ℤ (pos (2 ^ 64)) <ℤ result }
    ensures high { result <ℤ pos (2 ^ 64) }
{
    let Event::Did(step) = event else {
        return 0;
    };
    match step {
        Step::Project {
            function,
            place,
            value,
            amount,
        } => when(is_at(network, function, place, value, x, b), amount as i128),
        Step::Extend {
            function,
            place,
            value,
            amount,
        } => when(
            is_at(network, function, place, value, x, b),
            -(amount as i128),
        ),
        Step::Lift { variable, amount } => when(variable == x, -(amount as i128)),
        _ => 0,
    }
}

/// Whether a value at a place of a function is the value `b` of `x`.
fn is_at(network: &Network, f: u32, place: u32, value: u32, x: u32, b: u32) -> bool
    ensures { result ≡ ((variable_at network.now f place == x) && (value == b)) }
{
    variable(network, f, place as usize) == x && value == b
}

/// What an event adds to the residual cost of a tuple of `f`.
fn residual_by(event: Event, f: u32, tuple: &[u32]) -> i128
    ensures value { result ≡ residual_by event f tuple.now }
    ensures low { neg_ℤ (pos (2 ^ 64)) <ℤ result }
    ensures high { result <ℤ pos (2 ^ 64) }
{
    let Event::Did(step) = event else {
        return 0;
    };
    match step {
        Step::Project {
            function,
            place,
            value,
            amount,
        } => when(
            function == f && at(tuple, place as usize) == value,
            -(amount as i128),
        ),
        Step::Extend {
            function,
            place,
            value,
            amount,
        } => when(
            function == f && at(tuple, place as usize) == value,
            amount as i128,
        ),
        _ => 0,
    }
}

/// The residual cost of a tuple before any event.
fn original(network: &Network, f: u32, tuple: &[u32]) -> i128
    requires { Fits (dims_at network.now f) tuple.now }
    ensures value { result ≡ residual network.now [] f tuple.now }
    ensures low { pos 0 ≤ℤ result }
    ensures high { result ≤ℤ pos GREATEST }
{
    when(
        !scope(network, f).is_empty(),
        entry(network, f, tuple) as i128,
    )
}

/// An amount where a test holds, and else nothing.
fn when(test: bool, amount: i128) -> i128
    ensures value { result ≡ when test amount }
    ensures cases { MatchBool test (result ≡ amount) (result ≡ pos 0) }
{
    if test { amount } else { 0 }
}

/// The value at a place of a tuple, or 0 where there is none.
pub(crate) fn at(tuple: &[u32], place: usize) -> u32
    ensures { result ≡ slice_index tuple.now place }
{
    match tuple.get(place) {
        Some(value) => *value,
        None => 0,
    }
}
