//! Tests of node consistency.

ghost use Rattle.std.specs.Prelude.{◌≡◌};
ghost use Rattle.cfn_store.specs.Standing.{at_root};

use cfn_gain::{NodeConsistency, Settling};
use cfn_net::{Builder, Network};
use cfn_store::Store;
use std::alloc::{AllocError, Global};
use std::test::*;

/// Two variables with two and three values, and a constant of 4.
fn constant(alloc: Global) -> Result<Network, AllocError> {
    let mut builder = Builder::make(alloc, b"constant", &[2, 3], 10)?;
    builder.function(&[], 4, &[])?;
    builder.finish()
}

/// What `settle` answers at the root of a store, where the threshold is within the network's upper bound.
fn settled_in<'n>(
    alloc: Global,
    network: &'n Network,
    nodes: &mut NodeConsistency<'n>,
    threshold: u64,
    steps: usize,
) -> Result<Option<Settling>, AllocError>
    requires { nodes.old ≡ network.now }
{
    let mut store = Store::build(alloc, network)?;
    let settled = settled_at(network, nodes, &mut store, threshold, steps);
    drop(store);
    settled
}

/// The same of a store at its root.
fn settled_at<'n>(
    network: &'n Network,
    nodes: &mut NodeConsistency<'n>,
    store: &mut Store<'n>,
    threshold: u64,
    steps: usize,
) -> Result<Option<Settling>, AllocError>
    requires nodes { nodes.old ≡ network.now }
    requires store { store.old ≡ at_root network.now }
{
    store.reserve(steps)?;
    if network.ub() < threshold {
        return Ok(None);
    }
    Ok(Some(nodes.settle(store, threshold, steps)))
}

/// The same of that network.
fn settled(alloc: Global, threshold: u64, steps: usize) -> Result<Option<Settling>, AllocError> {
    let network = constant(alloc)?;
    let mut nodes = NodeConsistency::make(alloc, &network)?;
    settled_in(alloc, &network, &mut nodes, threshold, steps)
}

#[test]
fn floor_decides(rt: HostRuntime) -> Result<(), Fail> {
    assert!(rt; settled(rt.alloc(), 5, 2)? == Some(Settling::Settled));
    Ok(())
}

#[test]
fn threshold_is_reached(rt: HostRuntime) -> Result<(), Fail> {
    assert!(rt; settled(rt.alloc(), 4, 0)? == Some(Settling::Dead));
    Ok(())
}
