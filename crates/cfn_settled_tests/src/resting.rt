//! Which values are known to rest.

ghost use Rattle.std.specs.Prelude.{◌≡◌};

use cfn_due::Rests;
use cfn_incidence::{Incidence, Place};
use cfn_net::{Builder, Network};
use std::alloc::{AllocError, Global};
use std::test::*;

/// The first place of the first function.
const PLACE: Place = Place {
    function: 0,
    place: 0,
    other: 1,
};

/// Whether the place is sure at first, and once it was seen; and once value 1 of the first of two variables is kept, which
/// value is, and whether the place is sure.
type Sure = (bool, bool, Option<(u32, bool)>);

/// Two variables with two values, and a function over both of which nothing costs anything.
fn pair(alloc: Global) -> Result<Network, AllocError> {
    let mut builder = Builder::make(alloc, b"pair", &[2, 2], 10)?;
    let added = builder.function(&[0, 1], 0, &[]);
    let pair = added.and_then(|()| builder.finish());
    drop(builder);
    pair
}

/// How sure the place is.
fn sure(alloc: Global, network: &Network) -> Result<Sure, AllocError> {
    let incidence = Incidence::build(alloc, network)?;
    let sure = sure_over(alloc, network, &incidence);
    drop(incidence);
    sure
}

/// The same, over the network's incidence.
fn sure_over(alloc: Global, network: &Network, incidence: &Incidence) -> Result<Sure, AllocError>
    requires { incidence.now ≡ network.now }
{
    let mut rests = Rests::make(alloc, network)?;
    let first = rests.is_sure(PLACE);
    rests.rely(PLACE);
    let seen = rests.is_sure(PLACE);
    let kept = if network.variables() == 2 {
        rests.keep(incidence, 0, 1);
        Some((rests.value(0), rests.is_sure(PLACE)))
    } else {
        None
    };
    drop(rests);
    Ok((first, seen, kept))
}

#[test]
fn what_was_seen_is_sure_until_another_value_is_kept(rt: HostRuntime) -> Result<(), Fail> {
    let network = pair(rt.alloc())?;
    let sure = sure(rt.alloc(), &network)?;
    assert!(rt; sure == (false, true, Some((1, false))));
    Ok(())
}

/// Whether the place is sure once it was seen and all was forgotten.
fn sure_once_forgotten(alloc: Global, network: &Network) -> Result<bool, AllocError> {
    let mut rests = Rests::make(alloc, network)?;
    rests.rely(PLACE);
    rests.forget();
    let sure = rests.is_sure(PLACE);
    drop(rests);
    Ok(sure)
}

#[test]
fn what_was_seen_is_forgotten_at_once(rt: HostRuntime) -> Result<(), Fail> {
    let network = pair(rt.alloc())?;
    assert!(rt; !sure_once_forgotten(rt.alloc(), &network)?);
    Ok(())
}
