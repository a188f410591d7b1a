//! Values of the search: which one a split tries first, and the assignment that is left where each variable is decided.

ghost use Rattle.std.specs.Prelude.{◌≡◌, ℕ, ◌<◌, ◌≤◌, min, length, slice_index, IsTrue, is_some};
ghost use Rattle.std.specs.Option.{ForSome};
ghost use Rattle.cfn_model.specs.Certificate.{IsBest};
ghost use Rattle.cfn_model.specs.Network.{Fits, cost};
ghost use Rattle.cfn_proof.specs.Certificates.{solution_of};
ghost use Rattle.cfn_branch.specs.Choosing.{choices, IsOpen, IsChoice};
ghost use Rattle.cfn_dive.specs.Values.{price_of, IsFirstValue};

use cfn_edac::Enforcer;
use cfn_incidence::Incidence;
use cfn_net::{Network, Scored};
use cfn_store::Store;

/// The value that a split tries first: that of the best assignment where it is live, and else the one that asks least.
pub fn first_value(
    best: &Scored,
    enforcer: &mut Enforcer<'_>,
    store: &Store<'_>,
    incidence: &Incidence,
    x: u32,
) -> u32
    requires network { store.now.network ≡ enforcer.old }
    requires incidence { incidence.now ≡ enforcer.old }
    requires undecided { IsOpen store.now x }
    requires best { best.now.network ≡ store.now.network }
    ensures choice { IsChoice store.now x result }
    ensures first { IsFirstValue store.now best.now.held x result }
    ensures same { enforcer.new ≡ enforcer.old }
{
    store.network().law_limits();
    best.law_priced();
    if let Some(values) = best.values() {
        let value = values[x as usize];
        if store.is_live(x, value) {
            return value;
        }
    }
    enforcer.cheapest(store, incidence, x)
}

/// The first live value of each variable.
pub fn take_values(store: &Store<'_>, values: &mut [u32])
    requires same { length values.old ≡ length store.now.network.sizes }
    requires some { (x : ℕ) → x < length store.now.network.sizes → 1 ≤ choices store.now x }
    ensures same { length values.new ≡ length values.old }
    ensures each { (x : ℕ) → x < length store.now.network.sizes → IsChoice store.now x (slice_index values.new x) }
{
    store.network().law_limits();
    for x in 0..store.network().variables() {
        values[x as usize] = store.live(x)[0];
    }
}

/// Takes an assignment over where it costs less than what is held.
pub fn offer(best: &mut Scored, network: &Network, values: &[u32])
    requires same { best.old.network ≡ network.now }
    requires fits { Fits network.now.sizes values.now }
    requires solution { IsBest network.now best.old.held }
    ensures network { best.new.network ≡ network.now }
    ensures solution { IsBest network.now best.new.held }
    ensures price { price_of best.new ≡ min (price_of best.old) (cost network.now values.now) }
{
    network.law_limits();
    if network.cost(values).value() < best.price() {
        best.fill(network, values);
    }
}

/// A buffer that holds an assignment, or nothing where it is empty. It takes no memory.
pub fn held(best: Scored) -> Option<Scored>
    ensures solution { solution_of result ≡ best.held }
    ensures held { ForSome result (λ scored. IsTrue (is_some scored.held)) }
{
    if best.values().is_some() {
        Some(best)
    } else {
        None
    }
}
