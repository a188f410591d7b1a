//! Which values and tuples are live after a history: no event took or cut them.

ghost use Rattle.std.specs.Prelude.{◌≡◌, ◌<◌, length};
ghost use Rattle.cfn_model.specs.Network.{Fits, dims_at};
ghost use Rattle.cfn_model.specs.Sums.{removes, is_live, cuts, is_cut, all_live, is_live_tuple};

use crate::decisions::{keeps, variable_of};
use crate::functions::{entry, number, scope};
use cfn_model::{Event, Step};
use cfn_net::Network;

/// Whether a value of `x` is live after a history, the newest event first: no event took it.
pub fn is_live(history: &[Event], x: u32, value: u32) -> bool
    ensures { result ≡ is_live history.now x value }
{
    for event in history {
        if removes(*event, x, value) {
            return false;
        }
    }
    true
}

/// Whether a tuple of `f` is live after a history, the newest event first: its values are live, its entry is below
/// the upper bound, and it is not cut.
pub fn is_live_tuple(network: &Network, history: &[Event], f: u32, tuple: &[u32]) -> bool
    requires { Fits (dims_at network.now f) tuple.now }
    ensures { result ≡ is_live_tuple network.now history.now f tuple.now }
{
    all_live(history, scope(network, f), tuple)
        && entry(network, f, tuple) < network.ub()
        && !is_cut(history, f, number(network, f, tuple))
}

/// Whether each of these variables' values is live.
fn all_live(history: &[Event], variables: &[u32], tuple: &[u32]) -> bool
    ensures { result ≡ all_live history.now variables.now tuple.now }
{
    let [x, variables @ ..] = variables else {
        return true;
    };
    let [value, tuple @ ..] = tuple else {
        return true;
    };
    is_live(history, *x, *value) && all_live(history, variables, tuple)
}

/// Whether an event cuts the tuple of `f` with a number.
fn is_cut(history: &[Event], f: u32, number: u32) -> bool
    ensures { result ≡ is_cut history.now f number }
{
    for event in history {
        if cuts(*event, f, number) {
            return true;
        }
    }
    false
}

/// Whether an event takes a value from `x`.
fn removes(event: Event, x: u32, value: u32) -> bool
    ensures { result ≡ removes event x value }
{
    match event {
        Event::Did(Step::CutValue { variable, value: b }) => variable == x && b == value,
        Event::Took(decision) => variable_of(decision) == x && !keeps(decision, value),
        Event::Refused(decision) => variable_of(decision) == x && keeps(decision, value),
        _ => false,
    }
}

/// Whether an event cuts the tuple of `f` with a number.
fn cuts(event: Event, f: u32, number: u32) -> bool
    ensures { result ≡ cuts event f number }
{
    match event {
        Event::Did(Step::CutTuple { function, cell }) => function == f && cell == number,
        _ => false,
    }
}
