//! Tests of networks that are drawn.

use cfn_gen::instance;
use std::alloc::{AllocError, Global};
use std::test::Fail;

/// Whether the network of seed 7 with two variables has this upper bound and this last of its three tables.
fn draws_two(alloc: Global, upper: u64, last: &[u64]) -> Result<bool, AllocError> {
    let network = instance(alloc, 7, 2)?;
    Ok(
        network.functions() == 3
            && network.ub() == upper
            && matches!(network.table(2), Some(table) if table == last),
    )
}

/// Whether the network of seed 7 with three variables has this last of its six scopes.
fn draws_three(alloc: Global, last: &[u32]) -> Result<bool, AllocError> {
    let network = instance(alloc, 7, 3)?;
    Ok(network.functions() == 6 && network.scope(5) == last)
}

#[test]
fn draws_the_costs_in_order(rt: HostRuntime) -> Result<(), Fail> {
    assert!(rt; draws_two(rt.alloc(), 28, &[8, 2, 4, 7, 4, 6, 1, 7, 1])?);
    assert!(rt; draws_three(rt.alloc(), &[0, 2])?);
    Ok(())
}

/// The greatest seed and the most variables.
#[test]
fn makes_the_largest(rt: HostRuntime) -> Result<(), Fail> {
    assert!(rt; instance(rt.alloc(), 65_536, 200)?.functions() == 597);
    Ok(())
}
