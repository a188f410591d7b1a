//! What is enforced at a node: existential directional arc consistency, from the settled place behind which the node stands
//! where there is one.

ghost use Rattle.std.specs.Prelude.{true, false, ◌≡◌, ◌+◌, ◌≤◌, ◌^◌, [], length, IfSome, IfOk, OnOk};
ghost use Rattle.cfn_model.specs.Tree.{CanClose};
ghost use Rattle.cfn_store.specs.Standing.{history};
ghost use Rattle.cfn_gain.specs.Calls.{Adds};
ghost use Rattle.cfn_edac.specs.Settling.{IsBehindSettled};
ghost use Rattle.cfn_dive.specs.Enforcing.{GoesOn, Finds, Groups, IsSpent, since_of};

use cfn_edac::Enforcer;
use cfn_gain::{Limits, Settling, is_wiped};
use cfn_incidence::Incidence;
use cfn_model::Event;
use cfn_store::Store;
use std::alloc::AllocError;

/// What is enforced at a node: at which threshold, by at most how many steps, and from which settled place on, where there is
/// one.
#[derive(Clone, Copy)]
pub struct Asked {
    pub threshold: u64,
    pub steps: usize,
    pub since: Option<Event>,
}

/// Makes a store fully consistent at a threshold, as far as its steps go, and answers whether it is dead then, or
/// consistent, or neither, and then by all its steps. Its steps fall into groups, each of which gains something. There is room for
/// so many steps more then. An `Err` is want of memory; of the store the contract says only that it has gone on by steps, if by any.
pub fn propagate(
    enforcer: &mut Enforcer<'_>,
    store: &mut Store<'_>,
    incidence: &Incidence,
    asked: Asked,
    more: usize,
) -> Result<Settling, AllocError>
    requires network { store.old.network ≡ enforcer.old }
    requires incidence { incidence.now ≡ enforcer.old }
    requires threshold { asked.threshold ≤ enforcer.old.upper }
    requires begins { store.old.block ≡ [] }
    requires steps { asked.steps + more ≤ 2 ^ 62 }
    requires since { IfSome asked.since (IsBehindSettled store.old) }
    ensures goes { GoesOn store.old store.new asked.threshold }
    ensures finds { IfOk result (Finds store.new.network (history store.new) asked.threshold) }
    ensures gains { IfOk result (Groups store.old store.new) }
    ensures spent { IfOk result (IsSpent asked.steps store.new) }
    ensures room { OnOk result (more ≤ store.new.spare) }
    ensures same { enforcer.new ≡ enforcer.old }
{
    store.network().law_limits();
    store.reserve(asked.steps + more)?;
    let limits = Limits {
        threshold: asked.threshold,
        steps: asked.steps,
    };
    Ok(settle(enforcer, store, incidence, limits, asked.since))
}

/// Settles a store within limits, and answers whether it is dead then, or fully consistent, or neither, and then its block is
/// as long as it may be. Its steps fall into groups, each of which gains something. It takes no memory.
pub fn settle(
    enforcer: &mut Enforcer<'_>,
    store: &mut Store<'_>,
    incidence: &Incidence,
    limits: Limits,
    since: Option<Event>,
) -> Settling
    requires network { store.old.network ≡ enforcer.old }
    requires incidence { incidence.now ≡ enforcer.old }
    requires threshold { limits.threshold ≤ enforcer.old.upper }
    requires room { limits.steps ≤ length store.old.block + store.old.spare }
    requires since { IfSome since (IsBehindSettled store.old) }
    ensures adds { Adds store.old store.new limits }
    ensures finds { Finds store.new.network (history store.new) limits.threshold result }
    ensures gains { Groups store.old store.new result }
    ensures spent { IsSpent limits.steps store.new result }
    ensures same { enforcer.new ≡ enforcer.old }
{
    store.network().law_limits();
    match enforcer.settle(store, incidence, limits, since) {
        Settling::Dead => Settling::Dead,
        Settling::Settled => Settling::Settled,
        Settling::Spent => {
            if is_dead(store, limits.threshold) {
                Settling::Dead
            } else {
                Settling::Spent
            }
        }
    }
}

/// Whether a leaf may be closed: the floor reaches a threshold, or a variable has no live value.
pub fn is_dead(store: &Store<'_>, k: u64) -> bool
    ensures dead { result ≡ true → CanClose store.now.network (history store.now) k }
    ensures alive { result ≡ false → CanClose store.now.network (history store.now) k → ⊥ }
{
    store.floor() >= u128::from(k) || is_wiped(store.network(), store)
}

/// The side by which a store stands behind a place, where it was fully consistent there.
pub fn since(settled: bool, side: Event) -> Option<Event>
    ensures { result ≡ since_of settled side }
{
    if settled { Some(side) } else { None }
}
