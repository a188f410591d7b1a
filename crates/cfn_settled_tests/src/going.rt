//! Events that are drawn, each of them allowed where a store stands.

ghost use Rattle.std.specs.Prelude.{◌≡◌, ◌<◌, ◌≤◌, IfSome};
ghost use Rattle.cfn_model.specs.Steps.{IsDecision, IsValue, IsPlace};
ghost use Rattle.cfn_store.specs.Marking.{IsBehind};

use crate::telling::Place;
use cfn_model::{Decision, Event, Step};
use cfn_net::Network;
use cfn_store::Store;
use cfn_testing::drawing::Dice;

/// Goes on by a drawn event, where it can be made.
pub(crate) fn go_on(store: &mut Store<'_>, network: &Network, dice: &mut Dice) -> Option<Event>
    requires network { store.old.network ≡ network.now }
    requires room { 0 < store.old.spare }
    ensures { IsBehind store.old store.new }
{
    match dice.below(16) {
        0 => cut_value(store, network, dice),
        1 | 2 => cut_tuple(store, network, dice),
        3 => decide(store, network, dice),
        4 | 5 => lift(store, network, dice),
        6 | 7 | 8 | 9 => extend(store, network, dice),
        _ => project(store, network, dice),
    }
}

/// Projects an amount within the room.
fn project(store: &mut Store<'_>, network: &Network, dice: &mut Dice) -> Option<Event>
    requires network { store.old.network ≡ network.now }
    requires room { 0 < store.old.spare }
    ensures { IsBehind store.old store.new }
{
    let Place {
        function,
        place,
        value,
    } = draw_place(network, dice)?;
    let room = store.project_room(function, place, value);
    let amount = amount_within(dice, room)?;
    store.project(function, place, value, amount);
    Some(Event::Did(Step::Project {
        function,
        place,
        value,
        amount,
    }))
}

/// Extends an amount within the room.
fn extend(store: &mut Store<'_>, network: &Network, dice: &mut Dice) -> Option<Event>
    requires network { store.old.network ≡ network.now }
    requires room { 0 < store.old.spare }
    ensures { IsBehind store.old store.new }
{
    let Place {
        function,
        place,
        value,
    } = draw_place(network, dice)?;
    let room = store.extend_room(function, place, value);
    let amount = amount_within(dice, room)?;
    store.extend(function, place, value, amount);
    Some(Event::Did(Step::Extend {
        function,
        place,
        value,
        amount,
    }))
}

/// Lifts an amount within the room.
fn lift(store: &mut Store<'_>, network: &Network, dice: &mut Dice) -> Option<Event>
    requires network { store.old.network ≡ network.now }
    requires room { 0 < store.old.spare }
    ensures { IsBehind store.old store.new }
{
    let variable = below(dice, network.variables())?;
    let room = store.lift_room(variable);
    let amount = amount_within(dice, room)?;
    store.lift(variable, amount);
    Some(Event::Did(Step::Lift { variable, amount }))
}

/// Cuts a live value.
fn cut_value(store: &mut Store<'_>, network: &Network, dice: &mut Dice) -> Option<Event>
    requires network { store.old.network ≡ network.now }
    requires room { 0 < store.old.spare }
    ensures { IsBehind store.old store.new }
{
    let (variable, value) = draw_value(network, dice)?;
    if !store.is_live(variable, value) {
        return None;
    }
    store.cut_value(variable, value);
    Some(Event::Did(Step::CutValue { variable, value }))
}

/// Cuts a tuple, which may be cut already.
fn cut_tuple(store: &mut Store<'_>, network: &Network, dice: &mut Dice) -> Option<Event>
    requires network { store.old.network ≡ network.now }
    requires room { 0 < store.old.spare }
    ensures { IsBehind store.old store.new }
{
    let function = below(dice, network.functions())?;
    let cell = below(dice, network.cells(function))?;
    store.cut_tuple(function, cell);
    Some(Event::Did(Step::CutTuple { function, cell }))
}

/// Goes to a side of a split at a value of a variable that has two live values or more.
fn decide(store: &mut Store<'_>, network: &Network, dice: &mut Dice) -> Option<Event>
    requires network { store.old.network ≡ network.now }
    requires room { 0 < store.old.spare }
    ensures { IsBehind store.old store.new }
{
    let (variable, value) = draw_value(network, dice)?;
    if store.count(variable) < 2 {
        return None;
    }
    let decision = match dice.below(2) {
        0 => Decision::Is { variable, value },
        _ => Decision::Most { variable, value },
    };
    Some(turn(store, decision, dice))
}

/// Goes to a side of a split.
fn turn(store: &mut Store<'_>, decision: Decision, dice: &mut Dice) -> Event
    requires decision { IsDecision store.old.network decision }
    requires room { 0 < store.old.spare }
    ensures { IsBehind store.old store.new }
{
    if dice.below(2) == 0 {
        store.take(decision);
        Event::Took(decision)
    } else {
        store.refuse(decision);
        Event::Refused(decision)
    }
}

/// A value at a place of a function, where one was drawn.
fn draw_place(network: &Network, dice: &mut Dice) -> Option<Place>
    ensures { IfSome result (λ at. IsPlace network.now at.function at.place at.value) }
{
    let function = below(dice, network.functions())?;
    network.law_limits();
    let scope = network.scope(function);
    let place = below(dice, u32::try_from(scope.len()).ok()?)?;
    let x = scope[place as usize];
    let value = below(dice, network.size(x))?;
    Some(Place {
        function,
        place,
        value,
    })
}

/// A variable and one of its values.
fn draw_value(network: &Network, dice: &mut Dice) -> Option<(u32, u32)>
    ensures { IfSome result (λ at. IsValue network.now at.0 at.1) }
{
    let variable = below(dice, network.variables())?;
    let value = below(dice, network.size(variable))?;
    Some((variable, value))
}

/// A number below a bound, or `None` where that is 0.
fn below(dice: &mut Dice, bound: u32) -> Option<u32>
    ensures { IfSome result (λ number. number < bound) }
{
    let number = dice.below(bound as u64);
    if number < bound as u64 {
        Some(number as u32)
    } else {
        None
    }
}

/// An amount from 1 to the room, often the whole room, or `None` where that is 0.
fn amount_within(dice: &mut Dice, room: u64) -> Option<u64>
    ensures { IfSome result (λ amount. (0 < amount) × (amount ≤ room)) }
{
    let amount = match dice.below(4) {
        0 => dice.up_to(room).min(room),
        1 => room - room / 4,
        2 => room - room / 2,
        _ => room,
    };
    if amount > 0 { Some(amount) } else { None }
}
