//! Whether a step can be made in a store, by the store's own tests.

ghost use Rattle.std.specs.Prelude.{true, ◌≡◌, ◌+◌, ◌<◌, ◌≤◌};
ghost use Rattle.cfn_model.specs.Steps.{IsValue, IsCell, InRange, CanCutValue, CanCutTuple};
ghost use Rattle.cfn_model.specs.Sums.{floor};
ghost use Rattle.cfn_store.specs.Standing.{history};
ghost use Rattle.cfn_trim.specs.Making.{CanMake};

use cfn_model::Step;
use cfn_store::Store;

/// Whether a step can be made. A cut of a tuple is tested where its function has two variables, and else it cannot.
pub(crate) fn can_make(store: &Store<'_>, threshold: u64, step: Step) -> bool
    requires range { InRange store.now.network step }
    ensures { result ≡ true → CanMake store.now threshold step }
{
    match step {
        Step::Project {
            function,
            place,
            value,
            amount,
        } => is_within(amount, store.project_room(function, place, value)),
        Step::Extend {
            function,
            place,
            value,
            amount,
        } => is_within(amount, store.extend_room(function, place, value)),
        Step::Lift { variable, amount } => is_within(amount, store.lift_room(variable)),
        Step::CutValue { variable, value } => can_cut_value(store, threshold, variable, value),
        Step::CutTuple { function, cell } => can_cut_tuple(store, threshold, function, cell),
    }
}

/// Whether an amount is more than none and within a room.
fn is_within(amount: u64, room: u64) -> bool
    ensures { result ≡ true → (0 < amount) × (amount ≤ room) }
{
    amount > 0 && amount <= room
}

/// Whether the floor and the unary cost of a live value reach the threshold.
fn can_cut_value(store: &Store<'_>, threshold: u64, x: u32, value: u32) -> bool
    requires value { IsValue store.now.network x value }
    ensures { result ≡ true → CanCutValue store.now.network (history store.now) threshold x value }
{
    if !store.is_live(x, value) {
        return false;
    }
    reaches(store, threshold, store.unary(x, value))
}

/// Whether the floor and the residual cost of a live tuple reach the threshold.
fn can_cut_tuple(store: &Store<'_>, threshold: u64, f: u32, cell: u32) -> bool
    requires cell { IsCell store.now.network f cell }
    ensures { result ≡ true → CanCutTuple store.now.network (history store.now) threshold f cell }
{
    let network = store.network();
    network.law_limits();
    if network.scope(f).len() != 2 {
        return false;
    }
    let one = network.value_at(f, cell, 0);
    let other = network.value_at(f, cell, 1);
    match store.least_between(f, 0, one, 1, other) {
        Some(found) => found.cell == cell && reaches(store, threshold, found.cost),
        None => false,
    }
}

/// Whether the floor and a cost reach the threshold together.
fn reaches(store: &Store<'_>, threshold: u64, cost: u64) -> bool
    ensures { result ≡ true → threshold ≤ floor store.now.network (history store.now) + cost }
{
    u128::from(threshold).saturating_sub(store.floor()) <= u128::from(cost)
}
