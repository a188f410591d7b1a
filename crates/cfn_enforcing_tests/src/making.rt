//! Steps that are made in a store, each where its numbers are in range and its amount fits.

ghost use Rattle.std.specs.Prelude.{true, false, ◌≡◌, ◌<◌, ◌≤◌, [], length};
ghost use Rattle.cfn_model.specs.Steps.{IsPlace, InRange};
ghost use Rattle.cfn_store.specs.Standing.{with_step};

use cfn_model::Step;
use cfn_net::Network;
use cfn_store::Store;

/// Whether a step's numbers are in range.
fn is_in_range(network: &Network, step: Step) -> bool
    ensures { result ≡ true → InRange network.now step }
{
    match step {
        Step::Project {
            function,
            place,
            value,
            ..
        }
        | Step::Extend {
            function,
            place,
            value,
            ..
        } => is_place(network, function, place, value),
        Step::Lift { variable, .. } => variable < network.variables(),
        Step::CutValue { variable, value } => variable < network.variables()
            && value < network.size(variable),
        Step::CutTuple { function, cell } => function < network.functions()
            && cell < network.cells(function),
    }
}

/// Whether a value is one of the variable at a place of a function.
fn is_place(network: &Network, f: u32, place: u32, value: u32) -> bool
    ensures { result ≡ true → IsPlace network.now f place value }
{
    network.law_limits();
    f < network.functions()
        && (place as usize) < network.scope(f).len()
        && value < network.size(network.scope(f)[place as usize])
}

/// Whether an amount is more than none and within a room.
fn is_within(amount: u64, room: u64) -> bool
    ensures { result ≡ true → (0 < amount) × (amount ≤ room) }
{
    amount > 0 && amount <= room
}

/// Makes a step in range, where its amount fits; whether it did.
fn make(store: &mut Store<'_>, step: Step) -> bool
    requires range { InRange store.old.network step }
    requires room { 0 < store.old.spare }
    ensures made { result ≡ true → store.new ≡ with_step store.old step }
    ensures unchanged { result ≡ false → store.new ≡ store.old }
{
    match step {
        Step::Project {
            function,
            place,
            value,
            amount,
        } => {
            if !is_within(amount, store.project_room(function, place, value)) {
                return false;
            }
            store.project(function, place, value, amount);
        }
        Step::Extend {
            function,
            place,
            value,
            amount,
        } => {
            if !is_within(amount, store.extend_room(function, place, value)) {
                return false;
            }
            store.extend(function, place, value, amount);
        }
        Step::Lift { variable, amount } => {
            if !is_within(amount, store.lift_room(variable)) {
                return false;
            }
            store.lift(variable, amount);
        }
        Step::CutValue { variable, value } => store.cut_value(variable, value),
        Step::CutTuple { function, cell } => store.cut_tuple(function, cell),
    }
    true
}

/// Makes steps at the root of a store, up to the first that cannot be made; whether all could.
pub(crate) fn make_all(store: &mut Store<'_>, steps: &[Step]) -> bool
    requires begins { store.old.block ≡ [] }
    requires room { length steps.now ≤ store.old.spare }
    ensures network { store.new.network ≡ store.old.network }
    ensures base { store.new.base ≡ store.old.base }
    ensures block { result ≡ true → store.new.block ≡ steps.now }
{
    for step in steps {
        if !is_in_range(store.network(), *step) || !make(store, *step) {
            return false;
        }
    }
    true
}
