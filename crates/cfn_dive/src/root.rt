//! What is enforced at the root: full consistency, and then rounds of virtual arc consistency and full consistency, while the
//! floor rises (Cooper et al. 2010). Each call in a round may make as many steps as one at a node.

ghost use Rattle.std.specs.Prelude.{◌≡◌, ℕ, ◌+◌, ◌*◌, ◌≤◌, ◌^◌, false, [], length, IfOk, IfSome, OnOk, None};
ghost use Rattle.cfn_model.specs.Tree.{CanClose};
ghost use Rattle.cfn_store.specs.Standing.{history};
ghost use Rattle.cfn_edac.specs.Settling.{IsBehindSettled};
ghost use Rattle.cfn_dive.specs.Enforcing.{GoesOn, Finds, Groups, IsRound, AreRounds, IsRooted, IsSpent};

use crate::propagation::{Asked, propagate, settle};
use cfn_edac::Enforcer;
use cfn_explore::Halt;
use cfn_gain::{Limits, Settling};
use cfn_incidence::Incidence;
use cfn_store::Store;
use cfn_vac::{RootVac, all_alive, count_values};
use std::alloc::{AllocError, Global};

/// How many rounds there are at most.
const ROUNDS: u32 = 4;

/// What a caller asks for besides at a node: room for so many steps more, and whether the node is the root.
#[derive(Clone, Copy)]
pub struct Around {
    pub more: usize,
    pub is_root: bool,
}

/// Enforces at a node, with rounds at the root, and answers whether the store is dead then, or fully consistent, or
/// neither, and then by all the steps that are asked for. Below the root its steps fall into groups, each of which gains
/// something; at the root the steps of virtual arc consistency are lifts by the plans of derivations. An `Err` is want of memory; of the store the contract says only that it has gone on by steps, if by any.
pub fn enforce<H: Halt>(
    alloc: Global,
    enforcer: &mut Enforcer<'_>,
    store: &mut Store<'_>,
    incidence: &Incidence,
    asked: Asked,
    around: Around,
    halt: &H,
) -> Result<Settling, AllocError>
    requires network { store.old.network ≡ enforcer.old }
    requires incidence { incidence.now ≡ enforcer.old }
    requires threshold { asked.threshold ≤ enforcer.old.upper }
    requires begins { store.old.block ≡ [] }
    requires steps { asked.steps + around.more ≤ 2 ^ 60 }
    requires since { IfSome asked.since (IsBehindSettled store.old) }
    ensures goes { GoesOn store.old store.new asked.threshold }
    ensures finds { IfOk result (Finds store.new.network (history store.new) asked.threshold) }
    ensures gains { around.is_root ≡ false → IfOk result (Groups store.old store.new) }
    ensures rooted { OnOk result (IsRooted store.old.network store.old store.new) }
    ensures spent { IfOk result (IsSpent asked.steps store.new) }
    ensures room { OnOk result (around.more ≤ store.new.spare) }
    ensures same { enforcer.new ≡ enforcer.old }
{
    let found = propagate(enforcer, store, incidence, asked, around.more)?;
    if around.is_root {
        let more = around.more;
        Ok(enforce_root(alloc, enforcer, store, incidence, asked, more, found, halt))
    } else {
        Ok(found)
    }
}

/// Goes on at the root by rounds, where there is memory for virtual arc consistency.
fn enforce_root<H: Halt>(
    alloc: Global,
    enforcer: &mut Enforcer<'_>,
    store: &mut Store<'_>,
    incidence: &Incidence,
    asked: Asked,
    more: usize,
    found: Settling,
    halt: &H,
) -> Settling
    requires network { store.old.network ≡ enforcer.old }
    requires incidence { incidence.now ≡ enforcer.old }
    requires threshold { asked.threshold ≤ enforcer.old.upper }
    requires steps { asked.steps + more ≤ 2 ^ 60 }
    requires room { more ≤ store.old.spare }
    requires finds { Finds store.old.network (history store.old) asked.threshold found }
    requires spent { IsSpent asked.steps store.old found }
    ensures goes { GoesOn store.old store.new asked.threshold }
    ensures rounds { (n : ℕ) × (n ≤ 4) × AreRounds store.old.network n store.old store.new }
    ensures finds { Finds store.new.network (history store.new) asked.threshold result }
    ensures spent { IsSpent asked.steps store.new result }
    ensures room { more ≤ store.new.spare }
    ensures same { enforcer.new ≡ enforcer.old }
{
    match RootVac::make(alloc, store.network()) {
        Ok(mut vac) => rounds(
            &mut vac, enforcer, store, incidence, asked, more, found, halt,
        ),
        Err(AllocError) => found,
    }
}

/// Goes on by rounds, as long as the store is not dead, they change it, and `halt` is not past.
fn rounds<H: Halt>(
    vac: &mut RootVac<'_>,
    enforcer: &mut Enforcer<'_>,
    store: &mut Store<'_>,
    incidence: &Incidence,
    asked: Asked,
    more: usize,
    before: Settling,
    halt: &H,
) -> Settling
    requires network { store.old.network ≡ enforcer.old }
    requires vac { store.old.network ≡ vac.old.network }
    requires incidence { incidence.now ≡ enforcer.old }
    requires threshold { asked.threshold ≤ enforcer.old.upper }
    requires steps { asked.steps + more ≤ 2 ^ 60 }
    requires room { more ≤ store.old.spare }
    requires finds { Finds store.old.network (history store.old) asked.threshold before }
    requires spent { IsSpent asked.steps store.old before }
    ensures goes { GoesOn store.old store.new asked.threshold }
    ensures rounds { (n : ℕ) × (n ≤ 4) × AreRounds store.old.network n store.old store.new }
    ensures finds { Finds store.new.network (history store.new) asked.threshold result }
    ensures spent { IsSpent asked.steps store.new result }
    ensures room { more ≤ store.new.spare }
    ensures same { enforcer.new ≡ enforcer.old }
{
    let mut found = before;
    for _round in 0..ROUNDS {
        if found == Settling::Dead || halt.past().is_some() {
            return found;
        }
        match round(vac, enforcer, store, incidence, asked, more, found, halt) {
            Some(next) => found = next,
            None => return found,
        }
    }
    found
}

/// Raises the floor by virtual arc consistency, and settles the store again. `None` where nothing was changed.
fn round<H: Halt>(
    vac: &mut RootVac<'_>,
    enforcer: &mut Enforcer<'_>,
    store: &mut Store<'_>,
    incidence: &Incidence,
    asked: Asked,
    more: usize,
    found: Settling,
    halt: &H,
) -> Option<Settling>
    requires network { store.old.network ≡ enforcer.old }
    requires vac { store.old.network ≡ vac.old.network }
    requires incidence { incidence.now ≡ enforcer.old }
    requires threshold { asked.threshold ≤ enforcer.old.upper }
    requires steps { asked.steps + more ≤ 2 ^ 60 }
    requires room { more ≤ store.old.spare }
    requires finds { Finds store.old.network (history store.old) asked.threshold found }
    requires spent { IsSpent asked.steps store.old found }
    ensures goes { GoesOn store.old store.new asked.threshold }
    ensures finds { IfSome result (Finds store.new.network (history store.new) asked.threshold) }
    ensures spent { IfSome result (IsSpent asked.steps store.new) }
    ensures round { IfSome result (λ found. IsRound store.old.network store.old store.new) }
    ensures none { result ≡ None → store.new.block ≡ store.old.block }
    ensures room { more ≤ store.new.spare }
    ensures vac { vac.new.network ≡ vac.old.network }
    ensures same { enforcer.new ≡ enforcer.old }
{
    let network = store.network();
    network.law_limits();
    let room = count_values(network).checked_add(2 * asked.steps + more)?;
    if !all_alive(store) {
        return None;
    }
    let Ok(()) = store.reserve(room) else {
        return None;
    };
    let before = store.block_len();
    let limits = limits_from(before, asked);
    let settled = found == Settling::Settled;
    vac.raise(store, incidence, limits, settled, halt);
    let raised = store.block_len();
    if raised == before {
        return None;
    }
    let limits = limits_from(raised, asked);
    Some(settle(enforcer, store, incidence, limits, None))
}

/// Limits for a block that has so many steps: by as many more as are asked for at a node.
fn limits_from(len: usize, asked: Asked) -> Limits
    ensures threshold { result.threshold ≡ asked.threshold }
    ensures from { len ≤ result.steps }
    ensures steps { asked.steps ≤ result.steps }
    ensures upto { result.steps ≤ len + asked.steps }
{
    Limits {
        threshold: asked.threshold,
        steps: len.saturating_add(asked.steps),
    }
}
