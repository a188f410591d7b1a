//! A cost after the events of a path, exact also where it is below 0 or 2^64 and more: as what is dead may be.

ghost use Rattle.std.specs.Prelude.{◌≡◌, ℕ, ◌+◌, ◌<◌, List, [], length, reverse, pos, neg_ℤ};
ghost use Rattle.cfn_model.specs.Network.{Fits, cell, dims_at, arity, variable_at};
ghost use Rattle.cfn_model.specs.Sums.{when, unary, unary_by, residual, residual_by};
ghost use Rattle.cfn_model.specs.Steps.{IsValue, IsCell};
ghost use Rattle.cfn_scan.specs.Exact.{InPlace, AllInPlace};
ghost use Rattle.cfn_rebase.specs.Balancing.{worth, IsLight};

use cfn_model::{Event, Step};
use cfn_net::Network;

/// A cost: what was added, less what was taken away.
#[derive(Clone, Copy)]
pub(crate) struct Balance {
    pub(crate) more: u128,
    pub(crate) less: u128,
}

impl Balance {
    const NONE: Balance = Balance { more: 0, less: 0 };

    fn added(amount: u64) -> Balance
        ensures is { worth result ≡ pos amount }
        ensures light { IsLight 1 result }
    {
        Balance {
            more: u128::from(amount),
            less: 0,
        }
    }

    fn taken(amount: u64) -> Balance
        ensures is { worth result ≡ neg_ℤ (pos amount) }
        ensures light { IsLight 1 result }
    {
        Balance {
            more: 0,
            less: u128::from(amount),
        }
    }

    /// This where a test holds, and else nothing.
    fn when(self, test: bool) -> Balance
        requires light { IsLight 1 self }
        ensures is { worth result ≡ when test (worth self) }
        ensures light { IsLight 1 result }
    {
        if test { self } else { Balance::NONE }
    }
}

/// The unary cost of a value after events, the oldest first.
pub(crate) fn unary_balance(network: &Network, events: &[Event], x: u32, value: u32) -> Balance
    requires value { IsValue network.now x value }
    requires range { AllInPlace network.now (reverse events.now) }
    ensures is { worth result ≡ unary network.now (reverse events.now) x value }
    ensures light { IsLight (length events.now) result }
{
    let mut sum = Balance::NONE;
    for event in events {
        let change = unary_change(network, *event, x, value);
        sum.more += change.more;
        sum.less += change.less;
    }
    sum
}

/// What an event adds to it.
fn unary_change(network: &Network, event: Event, x: u32, value: u32) -> Balance
    requires range { InPlace network.now event }
    ensures is { worth result ≡ unary_by network.now event x value }
    ensures light { IsLight 1 result }
{
    match event {
        Event::Did(
            Step::Project {
                function,
                place,
                value: moved,
                amount,
            },
        ) => {
            let test = variable_at(network, function, place) == x && moved == value;
            Balance::added(amount).when(test)
        }
        Event::Did(
            Step::Extend {
                function,
                place,
                value: moved,
                amount,
            },
        ) => {
            let test = variable_at(network, function, place) == x && moved == value;
            Balance::taken(amount).when(test)
        }
        Event::Did(Step::Lift { variable, amount }) => Balance::taken(amount).when(variable == x),
        _ => Balance::NONE,
    }
}

/// The variable at a place of a function.
fn variable_at(network: &Network, f: u32, place: u32) -> u32
    requires function { f < length network.now.functions }
    requires place { place < arity network.now f }
    ensures { result ≡ variable_at network.now f place }
{
    network.scope(f)[place as usize]
}

/// The residual cost of the tuple of a function with a number, after events, the oldest first.
pub(crate) fn residual_balance(network: &Network, events: &[Event], f: u32, number: u32) -> Balance
    requires number { IsCell network.now f number }
    requires range { AllInPlace network.now (reverse events.now) }
    ensures is { (tuple : List ℕ) → Fits (dims_at network.now f) tuple → cell (dims_at network.now f) tuple ≡ number
        → worth result ≡ residual network.now (reverse events.now) f tuple }
    ensures light { IsLight (length events.now + 1) result }
{
    let mut sum = original(network, f, number);
    for event in events {
        let change = residual_change(network, *event, f, number);
        sum.more += change.more;
        sum.less += change.less;
    }
    sum
}

/// The residual cost before any event.
fn original(network: &Network, f: u32, number: u32) -> Balance
    requires number { IsCell network.now f number }
    ensures is { (tuple : List ℕ) → Fits (dims_at network.now f) tuple → cell (dims_at network.now f) tuple ≡ number
        → worth result ≡ residual network.now [] f tuple }
    ensures light { IsLight 1 result }
{
    let entry = network.entry(f, number);
    let test = !network.scope(f).is_empty();
    Balance::added(entry).when(test)
}

/// What an event adds to it.
fn residual_change(network: &Network, event: Event, f: u32, number: u32) -> Balance
    requires number { IsCell network.now f number }
    requires range { InPlace network.now event }
    ensures is { (tuple : List ℕ) → Fits (dims_at network.now f) tuple → cell (dims_at network.now f) tuple ≡ number
        → worth result ≡ residual_by event f tuple }
    ensures light { IsLight 1 result }
{
    match event {
        Event::Did(
            Step::Project {
                function,
                place,
                value,
                amount,
            },
        ) => {
            let test = function == f && network.value_at(f, number, place) == value;
            Balance::taken(amount).when(test)
        }
        Event::Did(
            Step::Extend {
                function,
                place,
                value,
                amount,
            },
        ) => {
            let test = function == f && network.value_at(f, number, place) == value;
            Balance::added(amount).when(test)
        }
        _ => Balance::NONE,
    }
}
