//! What a caller sees to before virtual arc consistency at the root.

ghost use Rattle.std.specs.Prelude.{◌≡◌, ℕ, true, false};
ghost use Rattle.cfn_consistency.specs.Virtual.{IsEmptied};
ghost use Rattle.cfn_store.specs.Standing.{history};
ghost use Rattle.cfn_derivation.specs.Derived.{value_count, AllAlive};

use cfn_net::Network;
use cfn_store::Store;

/// How many values the variables of a network have: so many cuts a derivation makes at most, before they are undone.
pub fn count_values(network: &Network) -> usize
    ensures { result ≡ value_count network.now }
{
    network.law_limits();
    let mut count = 0;
    for x in 0..network.variables() {
        count += network.size(x) as usize;
    }
    count
}

/// Whether each variable has a live value.
pub fn all_alive(store: &Store<'_>) -> bool
    ensures alive { result ≡ true → AllAlive store.now.network (history store.now) }
    ensures emptied { result ≡ false → (x : ℕ) × IsEmptied store.now.network (history store.now) x }
{
    for x in 0..store.network().variables() {
        if store.live(x).is_empty() {
            return false;
        }
    }
    true
}
