//! Which variables are open, and which functions take part in making a network consistent.

ghost use Rattle.std.specs.Prelude.{◌≡◌, ◌↔◌, ◌<◌, length, IsTrue};
ghost use Rattle.cfn_plain.specs.Supports.{IsOpenAt};
ghost use Rattle.cfn_consistency.specs.Openness.{live_count, is_open, open_count, IsActive, TakesPart, HasOpenPair};

use crate::live::is_live;
use cfn_model::Event;
use cfn_net::Network;

/// How many tuples a function with three or more open variables may have, so that it takes part all the same.
const MOST_TUPLES_OF_WIDE: u32 = 4_096;

/// How many values of `x` are live after a history, the newest event first.
pub fn live_count(network: &Network, history: &[Event], x: u32) -> u32
    requires { x < length network.now.sizes }
    ensures { result ≡ live_count network.now history.now x }
{
    let mut count = 0;
    for value in 0..network.size(x) {
        if is_live(history, x, value) {
            count += 1;
        }
    }
    count
}

/// Whether `x` is open: it has two live values or more.
pub fn is_open(network: &Network, history: &[Event], x: u32) -> bool
    requires { x < length network.now.sizes }
    ensures { result ≡ is_open network.now history.now x }
{
    live_count(network, history, x) >= 2
}

/// How many variables of `f` are open.
pub fn open_count(network: &Network, history: &[Event], f: u32) -> usize
    requires { f < length network.now.functions }
    ensures { result ≡ open_count network.now history.now f }
{
    network.law_limits();
    let mut count = 0;
    for x in network.scope(f) {
        if is_open(network, history, *x) {
            count += 1;
        }
    }
    count
}

/// Whether `f` has a variable, and at most two that are open.
fn is_active(network: &Network, history: &[Event], f: u32) -> bool
    requires { f < length network.now.functions }
    ensures { IsTrue result ↔ IsActive network.now history.now f }
{
    !network.scope(f).is_empty() && open_count(network, history, f) <= 2
}

/// Whether `f` takes part in arc consistency: it has a variable, and at most two that are open or at most 4,096 tuples.
pub fn takes_part(network: &Network, history: &[Event], f: u32) -> bool
    requires { f < length network.now.functions }
    ensures { IsTrue result ↔ TakesPart network.now history.now f }
{
    if network.scope(f).is_empty() {
        return false;
    }
    network.cells(f) <= MOST_TUPLES_OF_WIDE || is_active(network, history, f)
}

/// Whether `f` has two open variables, and they stand at the places `i` and `j`.
pub fn has_open_pair(network: &Network, history: &[Event], f: u32, i: usize, j: usize) -> bool
    requires { f < length network.now.functions }
    ensures { IsTrue result ↔ HasOpenPair network.now history.now f i j }
{
    i != j
        && is_active(network, history, f)
        && is_open_at(network, history, f, i)
        && is_open_at(network, history, f, j)
}

/// Whether `i` is a place of `f` with an open variable.
fn is_open_at(network: &Network, history: &[Event], f: u32, i: usize) -> bool
    requires { f < length network.now.functions }
    ensures { IsTrue result ↔ IsOpenAt network.now history.now f i }
{
    network.law_limits();
    match network.scope(f).get(i) {
        Some(x) => is_open(network, history, *x),
        None => false,
    }
}
