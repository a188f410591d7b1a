//! Supports of values, looked for among all tuples (Larrosa and Schiex 2004; Cooper et al. 2010), tuples of costs that do not
//! fit 64 bits, and tuples by their numbers.

ghost use Rattle.std.specs.Prelude.{◌≡◌, ◌↔◌, ℕ, ◌≤◌, false, List, take, IsTrue, IfOk};
ghost use Rattle.cfn_model.specs.Network.{Fits, dims_at, arity};
ghost use Rattle.cfn_consistency.specs.Consistency.{HasSupport, HasFullSupport};
ghost use Rattle.cfn_consistency.specs.Groups.{IsLiveCell};
ghost use Rattle.cfn_plain.specs.Supports.{IsSought, HasTuple, Meets};

use crate::functions::{number, scope, variable};
use crate::live::is_live_tuple;
use crate::sums::{at, residual, unary};
use cfn_model::Event;
use cfn_net::Network;
use std::alloc::{AllocError, Global};

/// What a tuple is to be: a support of a value at a place; a full one, with regard to the variable at another place; of a cost
/// below 0 or at least 2^64; or the one with a number.
#[derive(Clone, Copy)]
pub enum Ask {
    Support {
        place: usize,
        value: u32,
    },
    FullSupport {
        place: usize,
        other: usize,
        value: u32,
    },
    Outside,
    Number(u32),
}

/// What is looked for: a live tuple of a function that is what is asked.
#[derive(Clone, Copy)]
pub struct Sought {
    pub function: u32,
    pub ask: Ask,
}

/// Whether a value at a place of `f` has a support after a history, the newest event first. An `Err` is want of memory.
pub fn has_support(
    alloc: Global,
    network: &Network,
    history: &[Event],
    f: u32,
    place: usize,
    value: u32,
) -> Result<bool, AllocError>
    ensures { IfOk result (λ answer. IsTrue answer ↔ HasSupport network.now history.now f place value) }
{
    let ask = Ask::Support { place, value };
    has_tuple(alloc, network, history, Sought { function: f, ask })
}

/// Whether it has a full support with regard to the variable at another place. An `Err` is want of memory.
pub fn has_full_support(
    alloc: Global,
    network: &Network,
    history: &[Event],
    f: u32,
    place: usize,
    other: usize,
    value: u32,
) -> Result<bool, AllocError>
    ensures { IfOk result (λ answer. IsTrue answer ↔ HasFullSupport network.now history.now f place other value) }
{
    let ask = Ask::FullSupport {
        place,
        other,
        value,
    };
    has_tuple(alloc, network, history, Sought { function: f, ask })
}

/// Whether the tuple of `f` with a number is live. An `Err` is want of memory.
pub(crate) fn is_live_cell(
    alloc: Global,
    network: &Network,
    history: &[Event],
    f: u32,
    number: u32,
) -> Result<bool, AllocError>
    ensures { IfOk result (λ answer. IsTrue answer ↔ IsLiveCell network.now history.now f number) }
{
    let ask = Ask::Number(number);
    has_tuple(alloc, network, history, Sought { function: f, ask })
}

/// Whether there is such a tuple. An `Err` is want of memory.
pub fn has_tuple(
    alloc: Global,
    network: &Network,
    history: &[Event],
    sought: Sought,
) -> Result<bool, AllocError>
    ensures { IfOk result (λ answer. IsTrue answer ↔ HasTuple network.now history.now sought) }
{
    let places = scope(network, sought.function).len();
    let mut tuple = vec![in alloc; 0; places]?;
    network.law_limits();
    Ok(has_tuple_from(network, history, sought, tuple.as_mut_slice(), 0))
}

/// Whether a tuple that has the values before `place` is one. The values from `place` on may change.
fn has_tuple_from(
    network: &Network,
    history: &[Event],
    sought: Sought,
    tuple: &mut [u32],
    place: usize,
) -> bool
    requires place { place ≤ arity network.now sought.function }
    requires fits { Fits (dims_at network.now sought.function) tuple.old }
    ensures fits { Fits (dims_at network.now sought.function) tuple.new }
    ensures before { take place tuple.new ≡ take place tuple.old }
    ensures yes { IsTrue result → HasTuple network.now history.now sought }
    ensures no { result ≡ false → (other : List ℕ) → Fits (dims_at network.now sought.function) other
        → take place other ≡ take place tuple.old → IsSought network.now history.now sought other → ⊥ }
{
    let variables = scope(network, sought.function);
    if place == variables.len() {
        return is_sought(network, history, sought, tuple);
    }
    network.law_limits();
    for value in 0..network.size(variables[place]) {
        tuple[place] = value;
        if has_tuple_from(network, history, sought, tuple, place + 1) {
            return true;
        }
    }
    false
}

/// Whether a tuple is one.
fn is_sought(network: &Network, history: &[Event], sought: Sought, tuple: &[u32]) -> bool
    requires { Fits (dims_at network.now sought.function) tuple.now }
    ensures { IsTrue result ↔ IsSought network.now history.now sought tuple.now }
{
    let f = sought.function;
    meets(network, history, f, sought.ask, tuple) && is_live_tuple(network, history, f, tuple)
}

/// Whether a tuple of `f` is what is asked, be it live or not.
fn meets(network: &Network, history: &[Event], f: u32, ask: Ask, tuple: &[u32]) -> bool
    requires { Fits (dims_at network.now f) tuple.now }
    ensures { IsTrue result ↔ Meets network.now history.now f ask tuple.now }
{
    match ask {
        Ask::Support { place, value } => {
            at(tuple, place) == value && residual(network, history, f, tuple) == 0
        }
        Ask::FullSupport {
            place,
            other,
            value,
        } => {
            if at(tuple, place) != value {
                return false;
            }
            let x = variable(network, f, other);
            let unary = unary(network, history, x, at(tuple, other));
            residual(network, history, f, tuple).checked_add(unary) == Some(0)
        }
        Ask::Outside => {
            let cost = residual(network, history, f, tuple);
            cost < 0 || cost > u64::MAX as i128
        }
        Ask::Number(cell) => number(network, f, tuple) == cell,
    }
}
