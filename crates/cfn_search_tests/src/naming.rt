//! What the root of a small network is split by.

ghost use Rattle.std.specs.Prelude.{◌≡◌, length, [], ◌∷◌};

use cfn_branch::{Weights, choose, split_fewest};
use cfn_incidence::Incidence;
use cfn_model::Decision;
use cfn_net::{Builder, Network};
use cfn_store::Store;
use std::alloc::{AllocError, Global};
use std::test::Fail;

/// Three variables with two values in a row, a function over each two that are next to each other and one over the last.
fn row(alloc: Global) -> Result<Network, AllocError> {
    let mut builder = Builder::make(alloc, b"row", &[2, 2, 2], 10)?;
    let network = row_of(&mut builder);
    drop(builder);
    network
}

/// The network of these functions, where the builder has none yet.
fn row_of(builder: &mut Builder) -> Result<Network, AllocError>
    requires sizes { builder.old.sizes ≡ 2 ∷ 2 ∷ 2 ∷ [] }
    requires functions { builder.old.functions ≡ [] }
{
    builder.function(&[0, 1], 1, &[])?;
    builder.function(&[1, 2], 1, &[])?;
    builder.function(&[2], 1, &[])?;
    builder.finish()
}

/// A variable with ten values, and one with nine.
fn wide(alloc: Global) -> Result<Network, AllocError> {
    Builder::make(alloc, b"wide", &[10, 9], 10)?.finish()
}

/// The weights of the first two functions behind two blames of the second, or nothing where these are not there.
fn blamed(alloc: Global, network: &Network) -> Result<Option<(u64, u64)>, AllocError> {
    let mut weights = Weights::make(alloc, network)?;
    if network.functions() != 3 {
        return Ok(None);
    }
    weights.blame(1);
    weights.blame(1);
    Ok(Some((weights.of(0), weights.of(1))))
}

#[test]
fn blame_raises_a_weight(rt: HostRuntime) -> Result<(), Fail> {
    let network = row(rt.alloc())?;
    assert!(rt; blamed(rt.alloc(), &network)? == Some((1, 3)));
    Ok(())
}

/// The variable that is chosen at a network's root by these weights.
fn chosen_by(
    alloc: Global,
    network: &Network,
    incidence: &Incidence,
    weights: &Weights,
) -> Result<Option<u32>, AllocError>
    requires incidence { incidence.now ≡ network.now }
    requires weights { length weights.now ≡ length network.now.functions }
{
    let store = Store::build(alloc, network)?;
    let variable = choose(weights, incidence, &store);
    drop(store);
    Ok(variable)
}

/// The same before any blame.
fn chosen_over(
    alloc: Global,
    network: &Network,
    incidence: &Incidence,
) -> Result<Option<u32>, AllocError>
    requires { incidence.now ≡ network.now }
{
    let weights = Weights::make(alloc, network)?;
    chosen_by(alloc, network, incidence, &weights)
}

/// The variable that is chosen at a network's root before any blame.
fn chosen(alloc: Global, network: &Network) -> Result<Option<u32>, AllocError> {
    let incidence = Incidence::build(alloc, network)?;
    let variable = chosen_over(alloc, network, &incidence);
    drop(incidence);
    variable
}

#[test]
fn variable_in_the_middle_is_chosen(rt: HostRuntime) -> Result<(), Fail> {
    let network = row(rt.alloc())?;
    assert!(rt; chosen(rt.alloc(), &network)? == Some(1));
    Ok(())
}

/// What a network's root is split by, where fewest live values name it.
fn split_at_root(alloc: Global, network: &Network) -> Result<Option<Decision>, AllocError> {
    let store = Store::build(alloc, network)?;
    let decision = split_fewest(&store);
    drop(store);
    Ok(decision)
}

#[test]
fn few_values_are_tried_one_by_one(rt: HostRuntime) -> Result<(), Fail> {
    let network = row(rt.alloc())?;
    let first = Decision::Is {
        variable: 0,
        value: 0,
    };
    assert!(rt; split_at_root(rt.alloc(), &network)? == Some(first));
    Ok(())
}

#[test]
fn many_values_are_halved(rt: HostRuntime) -> Result<(), Fail> {
    let network = wide(rt.alloc())?;
    let half = Decision::Most {
        variable: 1,
        value: 3,
    };
    assert!(rt; split_at_root(rt.alloc(), &network)? == Some(half));
    Ok(())
}
