//! A network settled at its root.

ghost use Rattle.std.specs.Prelude.{◌≡◌, ◌≤◌};
ghost use Rattle.cfn_store.specs.Standing.{at_root};

use cfn_edac::Enforcer;
use cfn_gain::{Limits, Settling};
use cfn_incidence::Incidence;
use cfn_net::{Builder, Network};
use cfn_store::Store;
use std::alloc::{AllocError, Global};
use std::test::*;

/// Two variables with two values, and a function of both whose tuples all cost 2.
fn arc(alloc: Global) -> Result<Network, AllocError> {
    let mut builder = Builder::make(alloc, b"arc", &[2, 2], 10)?;
    let added = builder.function(&[0, 1], 2, &[]);
    let arc = added.and_then(|()| builder.finish());
    drop(builder);
    arc
}

/// What the enforcer answers of a network's root.
fn answer(alloc: Global, network: &Network, limits: Limits) -> Result<Settling, AllocError>
    requires threshold { limits.threshold ≤ network.now.upper }
    requires steps { limits.steps ≤ 100 }
{
    let incidence = Incidence::build(alloc, network)?;
    let answer = answer_over(alloc, network, &incidence, limits);
    drop(incidence);
    answer
}

/// The same, over the network's incidence.
fn answer_over(
    alloc: Global,
    network: &Network,
    incidence: &Incidence,
    limits: Limits,
) -> Result<Settling, AllocError>
    requires incidence { incidence.now ≡ network.now }
    requires threshold { limits.threshold ≤ network.now.upper }
    requires steps { limits.steps ≤ 100 }
{
    let mut store = Store::build(alloc, network)?;
    let answer = answer_in(alloc, network, &mut store, incidence, limits);
    drop(store);
    answer
}

/// The same, of a store at the root.
fn answer_in(
    alloc: Global,
    network: &Network,
    store: &mut Store<'_>,
    incidence: &Incidence,
    limits: Limits,
) -> Result<Settling, AllocError>
    requires store { store.old ≡ at_root network.now }
    requires incidence { incidence.now ≡ network.now }
    requires threshold { limits.threshold ≤ network.now.upper }
    requires steps { limits.steps ≤ 100 }
{
    store.reserve(100)?;
    let mut enforcer = Enforcer::make(alloc, network)?;
    let answer = enforcer.settle(store, incidence, limits, None);
    drop(enforcer);
    Ok(answer)
}

/// It asks only whether the network is settled then.
#[test]
fn what_all_tuples_cost_is_lifted(rt: HostRuntime) -> Result<(), Fail> {
    let network = arc(rt.alloc())?;
    let limits = Limits {
        threshold: 10,
        steps: 100,
    };
    if network.ub() == 10 {
        let answer = answer(rt.alloc(), &network, limits)?;
        assert!(rt; answer == Settling::Settled);
    }
    Ok(())
}
