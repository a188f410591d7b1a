//! One leaf is expanded: it is closed, split, or that of one assignment.

ghost use Rattle.std.specs.Prelude.{true, ◌≡◌, ◌+◌, ◌*◌, ◌<◌, ◌≤◌, [], length, IfOk, IfSome, OnOk};
ghost use Rattle.cfn_model.specs.Steps.{Run};
ghost use Rattle.cfn_model.specs.Tree.{CanClose};
ghost use Rattle.cfn_store.specs.Standing.{history};
ghost use Rattle.cfn_trim.specs.Trimming.{IsBegin};
ghost use Rattle.cfn_branch.specs.Choosing.{AllDecided, IsSplit};
ghost use Rattle.cfn_edac.specs.Settling.{IsBehindSettled};
ghost use Rattle.cfn_dive.specs.Enforcing.{Finds, IsSettledAt};
ghost use Rattle.cfn_dive.specs.Diving.{IsOf};
ghost use Rattle.cfn_kbest.specs.Expanding.{IsExpanded};

use cfn_dive::{Around, Asked, Parts, enforce, take_values};
use cfn_explore::Halt;
use cfn_gain::Settling;
use cfn_model::{Decision, Event};
use cfn_net::{Network, Scored};
use cfn_proof::Block;
use cfn_store::Mark;
use cfn_trim::{law_block_stays_tame, shut};
use std::alloc::{AllocError, Global};

/// What becomes of a leaf.
#[derive(Drop)]
pub(crate) enum Expanded {
    /// It is closed behind a block.
    Closed {
        block: Block,
    },
    /// Behind a block one assignment is left, which costs less than the threshold.
    Found {
        block: Block,
        cost: u64,
    },
    /// It is split behind a block, where the floor is this, and where the store was fully consistent or was not.
    Divided {
        block: Block,
        decision: Decision,
        low: u128,
        settled: bool,
    },
}

/// Where a leaf stands.
#[derive(Clone, Copy)]
pub(crate) struct Stand {
    /// The side of a split by which the store stands behind a place where it was fully consistent, if it was.
    pub since: Option<Event>,
    /// Whether the leaf is the root.
    pub is_root: bool,
}

/// Expands the leaf at which the store stands. An assignment that is left is in the parts' values then. At the root it enforces
/// only until `halt` is past. An `Err` is want of memory.
pub(crate) fn expand<H: Halt>(
    alloc: Global,
    network: &Network,
    parts: &mut Parts<'_>,
    best: &Scored,
    threshold: u64,
    stand: Stand,
    halt: &H,
) -> Result<Expanded, AllocError>
    requires of { IsOf network.now parts.old }
    requires best { best.now.network ≡ network.now }
    requires threshold { threshold ≤ network.now.upper }
    requires begins { parts.old.store.block ≡ [] }
    requires since { IfSome stand.since (IsBehindSettled parts.old.store) }
    ensures expanded { IfOk result (IsExpanded network.now parts.old.store.base threshold parts.new) }
    ensures of { IsOf network.now parts.new }
{
    let mark = parts.store.mark();
    let settled = match enforce_at(alloc, network, parts, threshold, stand, halt)? {
        Settling::Dead => return close_dead(alloc, network, parts, &mark, threshold),
        Settling::Settled => true,
        Settling::Spent => false,
    };
    match parts.decide(best) {
        Some(decision) => divide(alloc, network, parts, threshold, decision, settled),
        None => conclude(alloc, network, parts, threshold),
    }
}

/// Enforces where the store stands, with room for what closes a leaf. An `Err` is want of memory.
fn enforce_at<H: Halt>(
    alloc: Global,
    network: &Network,
    parts: &mut Parts<'_>,
    threshold: u64,
    stand: Stand,
    halt: &H,
) -> Result<Settling, AllocError>
    requires of { IsOf network.now parts.old }
    requires threshold { threshold ≤ network.now.upper }
    requires begins { parts.old.store.block ≡ [] }
    requires since { IfSome stand.since (IsBehindSettled parts.old.store) }
    ensures begins { IsBegin parts.old.store parts.new.store }
    ensures runs { Run network.now parts.new.store.base parts.new.store.block threshold }
    ensures finds { IfOk result (Finds parts.new.store.network (history parts.new.store) threshold) }
    ensures room { OnOk result (length network.now.sizes + 2 * length network.now.functions + 1 ≤ parts.new.store.spare) }
    ensures of { IsOf network.now parts.new }
{
    network.law_limits();
    let asked = Asked {
        threshold,
        steps: parts.steps,
        since: stand.since,
    };
    let around = Around {
        more: network.variables() as usize + 2 * network.functions() as usize + 1,
        is_root: stand.is_root,
    };
    enforce(
        alloc,
        &mut parts.enforcer,
        &mut parts.store,
        &parts.incidence,
        asked,
        around,
        halt,
    )
}

/// Blames the function that projected last at a dead leaf, where one did, and closes the leaf by those steps of the store's
/// block that its closing needs. An `Err` is want of memory.
fn close_dead<'n>(
    alloc: Global,
    network: &Network,
    parts: &mut Parts<'n>,
    mark: &Mark<'n>,
    threshold: u64,
) -> Result<Expanded, AllocError>
    requires of { IsOf network.now parts.old }
    requires begins { IsBegin mark.now parts.old.store }
    requires runs { Run network.now parts.old.store.base parts.old.store.block threshold }
    requires closes { CanClose network.now (history parts.old.store) threshold }
    ensures expanded { IfOk result (IsExpanded network.now parts.old.store.base threshold parts.new) }
    ensures of { IsOf network.now parts.new }
{
    parts.weights.blame_newest(&parts.store);
    let block = parts
        .trimmer
        .closing_block(alloc, &mut parts.store, mark, threshold)?;
    Ok(Expanded::Closed { block })
}

/// Splits a leaf behind the store's block, by a decision that leaves a live value on each side. An `Err` is want of memory.
fn divide(
    alloc: Global,
    network: &Network,
    parts: &Parts<'_>,
    threshold: u64,
    decision: Decision,
    settled: bool,
) -> Result<Expanded, AllocError>
    requires of { IsOf network.now parts.now }
    requires runs { Run network.now parts.now.store.base parts.now.store.block threshold }
    requires splits { IsSplit parts.now.store decision }
    requires room { 0 < parts.now.store.spare }
    requires settled { settled ≡ true → IsSettledAt network.now (history parts.now.store) }
    ensures { IfOk result (IsExpanded network.now parts.now.store.base threshold parts.now) }
{
    law_block_stays_tame(&parts.store);
    let block = parts.store.block(alloc)?;
    let low = parts.store.floor();
    Ok(Expanded::Divided {
        block,
        decision,
        low,
        settled,
    })
}

/// Takes the one assignment that is left at a leaf, and shifts what it costs to the floor, as far as the threshold. An `Err` is
/// want of memory.
fn conclude(
    alloc: Global,
    network: &Network,
    parts: &mut Parts<'_>,
    threshold: u64,
) -> Result<Expanded, AllocError>
    requires of { IsOf network.now parts.old }
    requires runs { Run network.now parts.old.store.base parts.old.store.block threshold }
    requires decided { AllDecided parts.old.store }
    requires alive { CanClose network.now (history parts.old.store) threshold → ⊥ }
    requires threshold { threshold ≤ network.now.upper }
    requires room { length network.now.sizes + 2 * length network.now.functions ≤ parts.old.store.spare }
    ensures expanded { IfOk result (IsExpanded network.now parts.old.store.base threshold parts.new) }
    ensures of { IsOf network.now parts.new }
{
    take_values(&parts.store, &mut parts.values);
    let cost = network.cost(&parts.values).value();
    let reached = cost.min(threshold);
    shut(&mut parts.store, reached);
    law_block_stays_tame(&parts.store);
    let block = parts.store.block(alloc)?;
    if cost < threshold {
        Ok(Expanded::Found { block, cost })
    } else {
        Ok(Expanded::Closed { block })
    }
}
