//! Whether the values of one assignment are all that a path leaves.

ghost use Rattle.std.specs.Prelude.{◌≡◌, ℕ, ◌<◌, ◌↔◌, length, slice_index, IsTrue};
ghost use Rattle.cfn_model.specs.Steps.{IsValue};
ghost use Rattle.cfn_model.specs.Sums.{is_live};
ghost use Rattle.cfn_check.specs.Asking.{HasOnly, HasOnlyAt};

use crate::ledger::Ledger;
use cfn_net::Network;

/// Whether no value but an assignment's own is live. It takes time for the values of all variables.
pub(crate) fn has_only(ledger: &Ledger, network: &Network, values: &[u32]) -> bool
    requires same { network.now ≡ ledger.now.network }
    requires long { length values.now ≡ length network.now.sizes }
    ensures { IsTrue result ↔ HasOnly network.now ledger.now.history values.now }
{
    for x in 0..network.variables() {
        if !has_only_at(ledger, network, x, values[x as usize]) {
            return false;
        }
    }
    true
}

/// Whether no other value of a variable is live.
fn has_only_at(ledger: &Ledger, network: &Network, x: u32, own: u32) -> bool
    requires same { network.now ≡ ledger.now.network }
    requires variable { x < length network.now.sizes }
    ensures { IsTrue result ↔ HasOnlyAt network.now ledger.now.history x own }
{
    for value in 0..network.size(x) {
        if !is_own(ledger, x, value, own) {
            return false;
        }
    }
    true
}

/// Whether a value is not live, or this one.
fn is_own(ledger: &Ledger, x: u32, value: u32, own: u32) -> bool
    requires { IsValue ledger.now.network x value }
    ensures { IsTrue result ↔ (IsTrue (is_live ledger.now.history x value) → value ≡ own) }
{
    !ledger.is_live(x, value) || value == own
}
