//! Whether a step may be made: it is in range, allowed at the threshold, and leaves each cost of what is live below 2^64.
//!
//! A shift may be made exactly where its amount is within the store's room. What is cut is asked for its cost: a live value's is
//! the store's, and so is that of a live tuple of a function of two variables; any other is added up over the events.

ghost use Rattle.std.specs.Prelude.{◌≡◌, ◌+◌, ◌<◌, ◌≤◌, ◌↔◌, length, reverse, pos, ◌+ℤ◌, ◌≤ℤ◌, IsTrue, IsFalse, IfSome};
ghost use Rattle.cfn_model.specs.Steps.{IsValue, IsCell, CanCutValue, CanCutTuple};
ghost use Rattle.cfn_model.specs.Text.{IsSpelledStep};
ghost use Rattle.cfn_store.specs.Standing.{history};
ghost use Rattle.cfn_rebase.specs.Balancing.{worth, IsLight};
ghost use Rattle.cfn_rebase.specs.Making.{CanMake, IsCost, MayFollow};

use crate::balance::{Balance, residual_balance, unary_balance};
use crate::ranges::{is_cell, is_place, is_value};
use cfn_model::{Event, Step};
use cfn_net::Network;
use cfn_store::Store;

/// Whether a step may be made where a store stands, to which these events lead, the oldest first.
pub(crate) fn may_make(
    network: &Network,
    store: &Store<'_>,
    events: &[Event],
    threshold: u64,
    step: Step,
) -> bool
    requires network { network.now ≡ store.now.network }
    requires events { reverse events.now ≡ history store.now }
    requires spelled { IsSpelledStep step }
    ensures can { IsTrue result → CanMake store.now threshold step }
    ensures may { MayFollow store.now threshold step → IsTrue result }
{
    network.law_limits();
    match step {
        Step::Project {
            function,
            place,
            value,
            amount,
        } => is_place(network, function, place, value)
            && amount <= store.project_room(function, place, value),
        Step::Extend {
            function,
            place,
            value,
            amount,
        } => is_place(network, function, place, value)
            && amount <= store.extend_room(function, place, value),
        Step::Lift { variable, amount } => variable < network.variables()
            && amount <= store.lift_room(variable),
        Step::CutValue { variable, value } => is_value(network, variable, value)
            && can_cut_value(network, store, events, threshold, variable, value),
        Step::CutTuple { function, cell } => is_cell(network, function, cell)
            && can_cut_tuple(network, store, events, threshold, function, cell),
    }
}

/// Whether the floor and the unary cost of a value reach the threshold.
fn can_cut_value(
    network: &Network,
    store: &Store<'_>,
    events: &[Event],
    threshold: u64,
    x: u32,
    value: u32,
) -> bool
    requires network { network.now ≡ store.now.network }
    requires events { reverse events.now ≡ history store.now }
    requires value { IsValue store.now.network x value }
    ensures { IsTrue result ↔ CanCutValue store.now.network (history store.now) threshold x value }
{
    store.law_exact();
    if store.is_live(x, value) {
        let cost = u128::from(store.unary(x, value));
        let balance = Balance {
            more: cost,
            less: 0,
        };
        return reaches(threshold, store.floor(), balance);
    }
    reaches(
        threshold,
        store.floor(),
        unary_balance(network, events, x, value),
    )
}

/// Whether the floor and the residual cost of the tuple of `f` with a number reach the threshold.
fn can_cut_tuple(
    network: &Network,
    store: &Store<'_>,
    events: &[Event],
    threshold: u64,
    f: u32,
    number: u32,
) -> bool
    requires network { network.now ≡ store.now.network }
    requires events { reverse events.now ≡ history store.now }
    requires number { IsCell store.now.network f number }
    ensures { IsTrue result ↔ CanCutTuple store.now.network (history store.now) threshold f number }
{
    store.law_exact();
    if let Some(cost) = live_residual(network, store, f, number) {
        let balance = Balance {
            more: u128::from(cost),
            less: 0,
        };
        return reaches(threshold, store.floor(), balance);
    }
    reaches(
        threshold,
        store.floor(),
        residual_balance(network, events, f, number),
    )
}

/// The residual cost of the tuple of `f` with a number, where the store has it: of a live tuple of a function of two variables.
fn live_residual(network: &Network, store: &Store<'_>, f: u32, number: u32) -> Option<u64>
    requires network { network.now ≡ store.now.network }
    requires number { IsCell store.now.network f number }
    ensures { IfSome result (IsCost store.now f number) }
{
    network.law_limits();
    if network.scope(f).len() != 2 {
        return None;
    }
    let one = network.value_at(f, number, 0);
    let other = network.value_at(f, number, 1);
    let found = store.least_between(f, 0, one, 1, other)?;
    Some(found.cost)
}

/// Whether a floor and a cost reach the threshold together.
fn reaches(threshold: u64, floor: u128, cost: Balance) -> bool
    requires { cost.less ≤ 170141183460469231731687303715884105728 }
    ensures { IsTrue result ↔ (pos threshold ≤ℤ (pos floor +ℤ worth cost)) }
{
    (u128::from(threshold) + cost.less).saturating_sub(cost.more) <= floor
}
