//! Which steps are allowed where a path stands.

ghost use Rattle.std.specs.Prelude.{◌≡◌, ◌↔◌, ◌<◌, length, pos, ◌+ℤ◌, ◌≤ℤ◌, IsTrue};
ghost use Rattle.cfn_model.specs.Network.{variable_at};
ghost use Rattle.cfn_model.specs.Steps.{IsValue, IsPlace, IsCell, InRange, CanExtend, CanLift, CanCutValue, CanCutTuple, Allowed};

use crate::ledger::Ledger;
use crate::probe::can_project;
use cfn_model::Step;
use cfn_net::Network;

/// Whether a step that is in range is allowed at the threshold `k` (Cooper et al. 2010).
pub(crate) fn allowed(ledger: &Ledger, network: &Network, k: u64, step: Step) -> bool
    requires same { network.now ≡ ledger.now.network }
    requires range { InRange network.now step }
    ensures { IsTrue result ↔ Allowed network.now ledger.now.history k step }
{
    match step {
        Step::Project {
            function,
            place,
            value,
            amount,
        } => amount > 0 && can_project(ledger, network, function, place, value, amount),
        Step::Extend {
            function,
            place,
            value,
            amount,
        } => amount > 0 && can_extend_at(ledger, network, function, place, value, amount),
        Step::Lift { variable, amount } => amount > 0
            && can_lift(ledger, network, variable, amount),
        Step::CutValue { variable, value } => can_cut_value(ledger, k, variable, value),
        Step::CutTuple { function, cell } => can_cut_tuple(ledger, network, k, function, cell),
    }
}

/// Whether the value at a place of `f` is not live, or has a unary cost of at least `amount`.
fn can_extend_at(
    ledger: &Ledger,
    network: &Network,
    f: u32,
    place: u32,
    value: u32,
    amount: u64,
) -> bool
    requires same { network.now ≡ ledger.now.network }
    requires place { IsPlace network.now f place value }
    ensures { IsTrue result ↔ CanExtend network.now ledger.now.history (variable_at network.now f place) value amount }
{
    network.law_limits();
    can_extend(ledger, network.scope(f)[place as usize], value, amount)
}

/// Whether a value of `x` is not live, or has a unary cost of at least `amount`.
fn can_extend(ledger: &Ledger, x: u32, value: u32, amount: u64) -> bool
    requires { IsValue ledger.now.network x value }
    ensures { IsTrue result ↔ CanExtend ledger.now.network ledger.now.history x value amount }
{
    !ledger.is_live(x, value) || amount as i128 <= ledger.unary(x, value)
}

/// Whether each live value of `x` has a unary cost of at least `amount`.
fn can_lift(ledger: &Ledger, network: &Network, x: u32, amount: u64) -> bool
    requires same { network.now ≡ ledger.now.network }
    requires variable { x < length network.now.sizes }
    ensures { IsTrue result ↔ CanLift network.now ledger.now.history x amount }
{
    for value in 0..network.size(x) {
        if !can_extend(ledger, x, value, amount) {
            return false;
        }
    }
    true
}

/// Whether the floor and the unary cost of a value reach the threshold `k`.
fn can_cut_value(ledger: &Ledger, k: u64, x: u32, value: u32) -> bool
    requires { IsValue ledger.now.network x value }
    ensures { IsTrue result ↔ CanCutValue ledger.now.network ledger.now.history k x value }
{
    reaches(k, ledger.floor(), ledger.unary(x, value))
}

/// Whether the floor and the residual cost of the tuple of `f` with a number reach the threshold `k`.
fn can_cut_tuple(ledger: &Ledger, network: &Network, k: u64, f: u32, number: u32) -> bool
    requires same { network.now ≡ ledger.now.network }
    requires number { IsCell network.now f number }
    ensures { IsTrue result ↔ CanCutTuple network.now ledger.now.history k f number }
{
    reaches(k, ledger.floor(), ledger.residual(network, f, number))
}

/// Whether a floor and a cost reach the threshold `k`.
fn reaches(k: u64, floor: u128, cost: i128) -> bool
    ensures { IsTrue result ↔ (pos k ≤ℤ (pos floor +ℤ cost)) }
{
    let k = k as u128;
    if cost >= 0 {
        k.saturating_sub(floor) <= cost as u128
    } else {
        k + cost.unsigned_abs() <= floor
    }
}
