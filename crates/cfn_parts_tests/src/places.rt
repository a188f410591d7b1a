//! Tests of the places of variables.

ghost use Rattle.std.specs.Prelude.{◌<◌, length, ◌≡◌, [], ◌∷◌};

use cfn_incidence::Incidence;
use cfn_net::{Builder, Network};
use std::alloc::{AllocError, Global};
use std::test::*;

/// Three variables with two values, and functions over the first and the last, the last alone, and the second and first.
fn three(alloc: Global) -> Result<Network, AllocError> {
    let mut builder = Builder::make(alloc, b"three", &[2, 2, 2], 10)?;
    let network = three_of(&mut builder);
    drop(builder);
    network
}

/// The network of these functions, where the builder has none yet.
fn three_of(builder: &mut Builder) -> Result<Network, AllocError>
    requires sizes { builder.old.sizes ≡ 2 ∷ 2 ∷ 2 ∷ [] }
    requires functions { builder.old.functions ≡ [] }
{
    builder.function(&[0, 2], 1, &[])?;
    builder.function(&[2], 1, &[])?;
    builder.function(&[1, 0], 1, &[])?;
    builder.finish()
}

/// Whether a variable stands at these places: in which function, at which place of its scope, and beside which other
/// variable.
fn stands_at(incidence: &Incidence, x: u32, expected: &[(u32, u32, u32)]) -> bool
    requires { x < length incidence.now.sizes }
{
    let places = incidence.places(x);
    places.len() == expected.len()
        && places
            .iter()
            .zip(expected)
            .all(|(at, place)| (at.function, at.place, at.other) == *place)
}

/// Whether the variables of that network stand where they do.
fn stand_there(alloc: Global) -> Result<bool, AllocError> {
    let network = three(alloc)?;
    let incidence = Incidence::build(alloc, &network)?;
    Ok(
        network.variables() == 3
            && stands_at(&incidence, 0, &[(0, 0, 2), (2, 1, 1)])
            && stands_at(&incidence, 1, &[(2, 0, 0)])
            && stands_at(&incidence, 2, &[(0, 1, 0), (1, 0, 2)]),
    )
}

#[test]
fn places_of_each_variable(rt: HostRuntime) -> Result<(), Fail> {
    assert!(rt; stand_there(rt.alloc())?);
    Ok(())
}
