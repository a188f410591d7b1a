//! When a leaf may be closed, and when a split is strict.

ghost use Rattle.std.specs.Prelude.{◌≡◌, ◌↔◌, ℕ, ◌<◌, length, slice_index, IsTrue, IsFalse, MatchBool};
ghost use Rattle.cfn_model.specs.Decisions.{variable_of, keeps};
ghost use Rattle.cfn_model.specs.Sums.{is_live};
ghost use Rattle.cfn_model.specs.Tree.{IsWiped, CanClose, IsStrictSplit};

use crate::decisions::{keeps, variable_of};
use crate::live::is_live;
use crate::sums::floor;
use cfn_model::{Decision, Event};
use cfn_net::Network;

/// Whether a leaf may be closed after a history, the newest event first: the floor reaches the threshold `k`, or a
/// variable has no live value.
pub fn can_close(network: &Network, history: &[Event], k: u64) -> bool
    ensures { IsTrue result ↔ CanClose network.now history.now k }
{
    k as u128 <= floor(network, history) || is_wiped(network, history)
}

/// Whether a split leaves a live value on either side.
pub(crate) fn is_strict_split(network: &Network, history: &[Event], decision: Decision) -> bool
    ensures { IsTrue result ↔ IsStrictSplit network.now history.now decision }
{
    has_live_on(network, history, decision, true) && has_live_on(network, history, decision, false)
}

/// Whether a variable has no live value.
fn is_wiped(network: &Network, history: &[Event]) -> bool
    ensures { IsTrue result ↔ IsWiped network.now history.now }
{
    for x in 0..network.variables() {
        if !has_live(network, history, x) {
            return true;
        }
    }
    false
}

/// Whether a variable has a live value.
fn has_live(network: &Network, history: &[Event], x: u32) -> bool
    requires { x < length network.now.sizes }
    ensures { MatchBool result
        ((a : ℕ) × (a < slice_index network.now.sizes x) × IsTrue (is_live history.now x a))
        ((a : ℕ) → a < slice_index network.now.sizes x → IsFalse (is_live history.now x a)) }
{
    for value in 0..network.size(x) {
        if is_live(history, x, value) {
            return true;
        }
    }
    false
}

/// Whether a decision's variable has a live value on the first side, or on the second.
fn has_live_on(network: &Network, history: &[Event], decision: Decision, first: bool) -> bool
    ensures { IsTrue result ↔ ((a : ℕ) × (a < slice_index network.now.sizes (variable_of decision))
        × (keeps decision a ≡ first) × IsTrue (is_live history.now (variable_of decision) a)) }
{
    let x = variable_of(decision);
    if x >= network.variables() {
        return false;
    }
    for value in 0..network.size(x) {
        if keeps(decision, value) == first && is_live(history, x, value) {
            return true;
        }
    }
    false
}
