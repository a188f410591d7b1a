//! What a project asks: that no live tuple with the value at the place costs less than the amount.
//!
//! The tuples are looked at by a walk down the scope, one value at each place. A value that is not live is passed over
//! with all tuples below it, so that the time is that of the live part of the table. On the way go the number of the
//! cell so far, the first slot of the place, and the amount with what was shifted so far: a tuple costs less than the
//! amount exactly where its entry is below that in the end. A place where one value alone comes in question is no level
//! of the recursion, so at most 22 places are.

ghost use Rattle.std.specs.Prelude.{◌≡◌, ◌≢◌, ◌+◌, ◌<◌, ◌↔◌, length, slice_index, IsTrue, MatchOption};
ghost use Rattle.cfn_model.specs.Network.{dims_at, arity, variable_at};
ghost use Rattle.cfn_model.specs.Steps.{IsPlace, IsCell, CanProject};
ghost use Rattle.cfn_check.specs.Probing.{IsLow, Lacks, IsAsked, IsSpot, IsOpen, IsOnly, spot_behind};

use crate::ledger::Ledger;
use cfn_net::Network;

/// The function, and the variable whose value is asked about.
#[derive(Clone, Copy)]
pub(crate) struct Asked {
    pub(crate) function: u32,
    pub(crate) variable: u32,
    pub(crate) value: u32,
}

/// Where a walk down a scope stands: the next place, the number of the cell so far, the first slot of the place, and
/// the amount with what was shifted so far.
#[derive(Clone, Copy)]
pub(crate) struct Spot {
    pub(crate) place: u32,
    pub(crate) number: u32,
    pub(crate) slot: usize,
    pub(crate) bound: i128,
}

/// Whether each live tuple of `f` with a value at a place has a residual cost of at least `amount`.
pub(crate) fn can_project(
    ledger: &Ledger,
    network: &Network,
    f: u32,
    place: u32,
    value: u32,
    amount: u64,
) -> bool
    requires same { network.now ≡ ledger.now.network }
    requires place { IsPlace network.now f place value }
    ensures { IsTrue result ↔ CanProject network.now ledger.now.history f place value amount }
{
    network.law_limits();
    ledger.law_differences();
    let asked = Asked {
        function: f,
        variable: network.scope(f)[place as usize],
        value,
    };
    let root = Spot {
        place: 0,
        number: 0,
        slot: 0,
        bound: amount as i128,
    };
    !lacks(ledger, network, asked, root)
}

/// Whether some values of the places from a spot on make a live tuple that costs too little.
fn lacks(ledger: &Ledger, network: &Network, asked: Asked, spot: Spot) -> bool
    requires same { network.now ≡ ledger.now.network }
    requires asked { IsAsked network.now asked }
    requires spot { IsSpot network.now asked.function spot }
    ensures { IsTrue result ↔ Lacks network.now ledger.now.history asked spot }
{
    let Some(spot) = open_place(ledger, network, asked, spot) else {
        return false;
    };
    network.law_limits();
    let scope = network.scope(asked.function);
    let left = scope.len() - spot.place as usize;
    if left == 0 {
        return is_low(ledger, network, asked.function, spot.number, spot.bound);
    }
    if left == 1 {
        return row_lacks(ledger, network, asked, spot);
    }
    let x = scope[spot.place as usize];
    for value in 0..network.size(x) {
        if ledger.is_live(x, value) {
            let next = behind(ledger, network, asked.function, spot, value);
            if lacks(ledger, network, asked, next) {
                return true;
            }
        }
    }
    false
}

/// The same at the last place of a scope, where every value comes in question.
fn row_lacks(ledger: &Ledger, network: &Network, asked: Asked, spot: Spot) -> bool
    requires same { network.now ≡ ledger.now.network }
    requires asked { IsAsked network.now asked }
    requires spot { IsSpot network.now asked.function spot }
    requires last { spot.place + 1 ≡ arity network.now asked.function }
    requires open { variable_at network.now asked.function spot.place ≢ asked.variable }
    ensures { IsTrue result ↔ Lacks network.now ledger.now.history asked spot }
{
    network.law_limits();
    let x = network.scope(asked.function)[spot.place as usize];
    for value in 0..network.size(x) {
        let next = behind(ledger, network, asked.function, spot, value);
        if is_low(ledger, network, asked.function, next.number, next.bound)
            && ledger.is_live(x, value)
        {
            return true;
        }
    }
    false
}

/// The first spot from this one on at whose place more than one value comes in question, or the end of the scope. None
/// where a value is not live that alone comes in question before it.
fn open_place(ledger: &Ledger, network: &Network, asked: Asked, spot: Spot) -> Option<Spot>
    requires same { network.now ≡ ledger.now.network }
    requires asked { IsAsked network.now asked }
    requires spot { IsSpot network.now asked.function spot }
    ensures { MatchOption result (Lacks network.now ledger.now.history asked spot → ⊥) (IsOpen network.now ledger.now.history asked spot) }
{
    network.law_limits();
    let scope = network.scope(asked.function);
    let mut spot = spot;
    while (spot.place as usize) < scope.len() {
        let x = scope[spot.place as usize];
        let Some(value) = only_value(network, asked, x) else {
            return Some(spot);
        };
        if !ledger.is_live(x, value) {
            return None;
        }
        spot = behind(ledger, network, asked.function, spot, value);
    }
    Some(spot)
}

/// The value of `x` that alone comes in question, if one does: that which is asked about, or the only one.
fn only_value(network: &Network, asked: Asked, x: u32) -> Option<u32>
    requires variable { x < length network.now.sizes }
    requires value { x ≡ asked.variable → asked.value < slice_index network.now.sizes x }
    ensures { MatchOption result (x ≢ asked.variable) (IsOnly (slice_index network.now.sizes x) asked x) }
{
    if x == asked.variable {
        Some(asked.value)
    } else if network.size(x) == 1 {
        Some(0)
    } else {
        None
    }
}

/// The spot behind one more place, where a value stands there.
fn behind(ledger: &Ledger, network: &Network, f: u32, spot: Spot, value: u32) -> Spot
    requires same { network.now ≡ ledger.now.network }
    requires function { f < length network.now.functions }
    requires spot { IsSpot network.now f spot }
    requires place { spot.place < arity network.now f }
    requires value { value < slice_index (dims_at network.now f) spot.place }
    ensures behind { result ≡ spot_behind network.now ledger.now.history f spot value }
    ensures spot { IsSpot network.now f result }
{
    network.law_limits();
    let size = network.size(network.scope(f)[spot.place as usize]);
    Spot {
        place: spot.place + 1,
        number: spot.number * size + value,
        slot: spot.slot + size as usize,
        bound: spot.bound + ledger.shifted(f, spot.slot + value as usize),
    }
}

/// Whether the tuple of `f` with a number is below the upper bound and not cut, and its entry below `bound`.
fn is_low(ledger: &Ledger, network: &Network, f: u32, number: u32, bound: i128) -> bool
    requires same { network.now ≡ ledger.now.network }
    requires number { IsCell network.now f number }
    ensures { IsTrue result ↔ IsLow network.now ledger.now.history f number bound }
{
    let entry = network.entry(f, number);
    (entry as i128) < bound && entry < network.ub() && !ledger.is_cut(f, number)
}
