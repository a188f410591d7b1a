//! One function made directional.

ghost use Rattle.std.specs.Prelude.{◌≡◌};

use cfn_dac::{directional, takes_part};
use cfn_gain::Limits;
use cfn_net::{Builder, Network};
use cfn_store::Store;
use std::alloc::{AllocError, Global};
use std::test::*;

/// Two variables with two values: value 0 of the lower one costs at least 3, and value 1 at least 2.
fn pair(alloc: Global) -> Result<Network, AllocError> {
    let listed = [([0, 0].as_slice(), 3), ([1, 1].as_slice(), 2)];
    let mut builder = Builder::make(alloc, b"pair", &[2, 2], 10)?;
    let added = builder.function(&[0, 1], 7, &listed);
    let pair = added.and_then(|()| builder.finish());
    drop(builder);
    pair
}

/// How many steps make the function directional, where it takes part.
fn steps(alloc: Global, network: &Network) -> Result<Option<usize>, AllocError> {
    let mut store = Store::build(alloc, network)?;
    let steps = steps_in(&mut store, network);
    drop(store);
    steps
}

/// The same, in a store of the network.
fn steps_in(store: &mut Store<'_>, network: &Network) -> Result<Option<usize>, AllocError>
    requires { store.old.network ≡ network.now }
{
    store.reserve(8)?;
    let limits = Limits {
        threshold: 10,
        steps: 8,
    };
    let mut moves = [0; 4096];
    network.law_limits();
    if network.functions() == 0 || network.ub() != 10 || store.floor() >= 10 {
        return Ok(None);
    }
    if !takes_part(store, 0) || directional(store, limits, 0, &mut moves).is_err() {
        return Ok(None);
    }
    Ok(Some(store.block_len()))
}

#[test]
fn lower_variable_gets_what_its_tuples_have(rt: HostRuntime) -> Result<(), Fail> {
    let network = pair(rt.alloc())?;
    assert!(rt; steps(rt.alloc(), &network)? == Some(2));
    Ok(())
}
