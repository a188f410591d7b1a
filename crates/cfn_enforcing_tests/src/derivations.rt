//! Tests of derivations.

ghost use Rattle.std.specs.Prelude.{◌≡◌, ◌≤◌};
ghost use Rattle.cfn_derivation.specs.Derived.{value_count};

use crate::networks::triangle;
use cfn_derivation::{Bans, Derived, Deriver};
use cfn_incidence::Incidence;
use cfn_net::Network;
use cfn_store::Store;
use cfn_vac::all_alive;
use std::alloc::{AllocError, Global};
use std::test::Fail;

/// What a derivation at 1 comes to, where each variable has a live value.
fn derived(
    deriver: &mut Deriver<'_>,
    store: &mut Store<'_>,
    incidence: &Incidence,
    bans: &Bans<'_>,
) -> Option<Derived>
    requires network { store.old.network ≡ deriver.old.network }
    requires incidence { incidence.now ≡ deriver.old.network }
    requires bans { bans.now.network ≡ deriver.old.network }
    requires room { value_count deriver.old.network ≤ store.old.spare }
{
    deriver.begin(store, false, 1);
    if !all_alive(store) {
        return None;
    }
    Some(deriver.derive(store, incidence, 1, bans))
}

/// The same in a store of the network.
fn derived_in(
    alloc: Global,
    network: &Network,
    incidence: &Incidence,
    bans: &Bans<'_>,
    deriver: &mut Deriver<'_>,
) -> Result<Option<Derived>, AllocError>
    requires network { deriver.old.network ≡ network.now }
    requires incidence { incidence.now ≡ network.now }
    requires bans { bans.now.network ≡ network.now }
{
    let mut store = Store::build(alloc, network)?;
    let derived = derived_with_room(deriver, &mut store, incidence, bans);
    drop(store);
    derived
}

/// The same in a store that has no room yet.
fn derived_with_room(
    deriver: &mut Deriver<'_>,
    store: &mut Store<'_>,
    incidence: &Incidence,
    bans: &Bans<'_>,
) -> Result<Option<Derived>, AllocError>
    requires network { store.old.network ≡ deriver.old.network }
    requires incidence { incidence.now ≡ deriver.old.network }
    requires bans { bans.now.network ≡ deriver.old.network }
{
    store.reserve(deriver.room())?;
    Ok(derived(deriver, store, incidence, bans))
}

/// The same by a deriver that is made for it, and how many values were deleted.
fn derived_by(
    alloc: Global,
    network: &Network,
    incidence: &Incidence,
    bans: &Bans<'_>,
) -> Result<(Option<Derived>, usize), AllocError>
    requires incidence { incidence.now ≡ network.now }
    requires bans { bans.now.network ≡ network.now }
{
    let mut deriver = Deriver::make(alloc, network)?;
    let answer = derived_in(alloc, network, incidence, bans, &mut deriver);
    let deleted = deriver.deletions().len();
    drop(deriver);
    Ok((answer?, deleted))
}

/// The same with no bans.
fn derived_of(
    alloc: Global,
    network: &Network,
    incidence: &Incidence,
) -> Result<(Option<Derived>, usize), AllocError>
    requires { incidence.now ≡ network.now }
{
    let bans = Bans::make(alloc, network)?;
    let answer = derived_by(alloc, network, incidence, &bans);
    drop(bans);
    answer
}

/// The same of a network alone.
fn derived_alone(alloc: Global, network: &Network) -> Result<(Option<Derived>, usize), AllocError> {
    let incidence = Incidence::build(alloc, network)?;
    let answer = derived_of(alloc, network, &incidence);
    drop(incidence);
    answer
}

/// The value 1 of the first variable costs 2; its value 0 excludes the value 0 of the second and of the third by 1, and these two
/// are not to have value 1 together.
#[test]
fn second_variable_is_emptied(rt: HostRuntime) -> Result<(), Fail> {
    let network = triangle(rt.alloc(), 2)?;
    let answer = derived_alone(rt.alloc(), &network)?;
    assert!(rt; answer == (Some(Derived::Emptied(1)), 4));
    Ok(())
}
