//! Searches on one thread.

ghost use Rattle.std.specs.Prelude.{◌≤◌};

use crate::networks::{tiny, tri};
use cfn_low::Stop;
use cfn_net::Network;
use cfn_solve::solve;
use std::alloc::{AllocError, Global};
use std::test::*;

/// What is asked of an outcome.
#[derive(Clone, Copy)]
struct Told {
    stop: Stop,
    lower: u64,
    best: Option<u64>,
}

/// What a search tells, and how many nodes it made.
fn told_by(alloc: Global, network: &Network, budget: u64) -> Result<(Told, u64), AllocError>
    requires { budget ≤ 1000 }
{
    let outcome = solve(alloc, network, budget)?;
    let told = Told {
        stop: outcome.stop,
        lower: outcome.certificate.lower,
        best: outcome.certificate.best.as_ref().map(|best| best.price()),
    };
    Ok((told, outcome.nodes))
}

/// What a search of `tri` tells, and how many nodes it made.
fn told_of_tri(alloc: Global, budget: u64) -> Result<(Told, u64), AllocError>
    requires { budget ≤ 1000 }
{
    let network = tri(alloc)?;
    told_by(alloc, &network, budget)
}

/// What a search of `tiny` with ample budget tells.
fn told_of_tiny(alloc: Global) -> Result<Told, AllocError> {
    let network = tiny(alloc)?;
    Ok(told_by(alloc, &network, 100)?.0)
}

#[test]
fn optimum_of_one_variable(rt: HostRuntime) -> Result<(), Fail> {
    let told = told_of_tiny(rt.alloc())?;
    assert!(rt; told.stop == Stop::Done);
    assert!(rt; (told.lower, told.best) == (1, Some(1)));
    Ok(())
}

#[test]
fn budget_is_spent(rt: HostRuntime) -> Result<(), Fail> {
    let (told, nodes) = told_of_tri(rt.alloc(), 1)?;
    assert!(rt; told.stop == Stop::Budget);
    assert!(rt; (nodes, told.lower) == (1, 0));
    Ok(())
}

#[test]
fn ample_budget_is_not_spent(rt: HostRuntime) -> Result<(), Fail> {
    let (told, _) = told_of_tri(rt.alloc(), 1_000)?;
    assert!(rt; told.stop == Stop::Done);
    assert!(rt; told.lower == 1);
    Ok(())
}
