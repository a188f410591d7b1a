//! Tests of what one attempt lifts.

ghost use Rattle.std.specs.Prelude.{◌≡◌};

use crate::networks::triangle;
use cfn_gain::{Limits, support_all};
use cfn_incidence::Incidence;
use cfn_net::Network;
use cfn_store::Store;
use cfn_vac::{Lifting, RootVac, all_alive, count_values};
use std::alloc::{AllocError, Global};
use std::test::Fail;

const LIMITS: Limits = Limits {
    threshold: 10,
    steps: 50,
};

/// Projects the costs of the first function.
fn project_first(store: &mut Store<'_>) -> Result<bool, AllocError>
    ensures { store.new.network ≡ store.old.network }
{
    store.reserve(100)?;
    if store.network().ub() != 10 || store.network().functions() == 0 || store.floor() >= 10 {
        return Ok(false);
    }
    let result = support_all(store, LIMITS, 0);
    store.reserve(100)?;
    Ok(result.is_ok())
}

/// What lifting at the amount 1 comes to behind that.
fn lift(
    root: &mut RootVac<'_>,
    store: &mut Store<'_>,
    incidence: &Incidence,
) -> Result<Option<Lifting>, AllocError>
    requires network { store.old.network ≡ root.old.network }
    requires incidence { incidence.now ≡ root.old.network }
{
    let projected = project_first(store)?;
    store.reserve(100)?;
    if !projected
        || !all_alive(store)
        || count_values(store.network()) > 50
        || store.block_len() > 50
    {
        return Ok(None);
    }
    root.begin(store, false, 1);
    Ok(Some(root.lift_once(store, incidence, LIMITS, 1)?))
}

/// The same in a store of the network; and the floor then.
fn lifted_in(
    alloc: Global,
    network: &Network,
    root: &mut RootVac<'_>,
    incidence: &Incidence,
) -> Result<(Option<Lifting>, u128), AllocError>
    requires network { root.old.network ≡ network.now }
    requires incidence { incidence.now ≡ network.now }
{
    let mut store = Store::build(alloc, network)?;
    let lifting = lift(root, &mut store, incidence);
    let floor = store.floor();
    drop(store);
    Ok((lifting?, floor))
}

/// The same by one that is made for it.
fn lifted_by(
    alloc: Global,
    network: &Network,
    incidence: &Incidence,
) -> Result<(Option<Lifting>, u128), AllocError>
    requires { incidence.now ≡ network.now }
{
    let mut root = RootVac::make(alloc, network)?;
    let answer = lifted_in(alloc, network, &mut root, incidence);
    drop(root);
    answer
}

/// The same of a network alone.
fn lifted(alloc: Global, network: &Network) -> Result<(Option<Lifting>, u128), AllocError> {
    let incidence = Incidence::build(alloc, network)?;
    let answer = lifted_by(alloc, network, &incidence);
    drop(incidence);
    answer
}

#[test]
fn what_two_functions_ask_of_one_value_is_lifted(rt: HostRuntime) -> Result<(), Fail> {
    let network = triangle(rt.alloc(), 2)?;
    let answer = lifted(rt.alloc(), &network)?;
    assert!(rt; answer == (Some(Lifting::Lifted), 1));
    Ok(())
}

#[test]
fn a_value_that_has_too_little_blocks(rt: HostRuntime) -> Result<(), Fail> {
    let network = triangle(rt.alloc(), 1)?;
    let (lifting, floor) = lifted(rt.alloc(), &network)?;
    let (demand, capacity) = match lifting {
        Some(
            Lifting::Blocked {
                demand,
                capacity,
                ..
            },
        ) => (demand, capacity),
        _ => (9, 9),
    };
    assert!(rt; (demand, capacity, floor) == (1, 0, 0));
    Ok(())
}
