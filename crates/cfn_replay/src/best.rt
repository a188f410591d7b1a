//! The best assignment that a record tells.

ghost use Rattle.std.specs.Prelude.{◌≡◌, [], ◌∷◌, Some, IfErr, IfOk};
ghost use Rattle.cfn_certtext.specs.Stages.{values_of};
ghost use Rattle.cfn_check.specs.Assigning.{IsTold};
ghost use Rattle.cfn_leaves.specs.Value.{Holding};
ghost use Rattle.cfn_replay.specs.Judging.{IsToldAt, TellsBest};
ghost use Rattle.cfn_replay.specs.Standing.{IsAtBest, IsStop};

use crate::answer::{Stop, refused};
use crate::kinds::values_in;
use crate::lines::Lines;
use cfn_certtext::{Fields, numeral};
use cfn_check::Assignment;
use cfn_net::{Network, Scored};
use cfn_record::RecordFault;
use std::alloc::{AllocError, Global};

/// The best assignment that a record tells.
#[derive(Drop)]
pub(crate) enum Told {
    /// None, or one that costs what is told, which is less than the upper bound.
    Best(Option<Scored>),
    /// Values that are no assignment of such a cost.
    Wrong,
}

/// Reads the values of the best assignment, where there is one, of which the line before told this cost.
pub(crate) fn values(
    alloc: Global,
    network: &Network,
    lines: &mut Lines<'_>,
    best: Option<u64>,
) -> Result<Told, Stop>
    ensures text { lines.new.text ≡ lines.old.text }
    ensures right { IfOk result (λ told. (h : Holding) → IsAtBest network.now lines.old h best
        → IsToldAt network.now lines.new h told) }
    ensures stop { IfErr result (λ stop. (h : Holding) → IsAtBest network.now lines.old h best
        → IsStop network.now lines.old.text stop) }
{
    let Some(cost) = best else {
        return Ok(Told::Best(None));
    };
    let line = lines.due();
    let said = lines.next();
    let Some((first, others)) = values_in(&said) else {
        return Err(refused(RecordFault::Text, line));
    };
    Ok(solution(alloc, network, cost, first, others)?)
}

/// The assignment with these values, of which this cost is told. An `Err` is want of memory.
fn solution(
    alloc: Global,
    network: &Network,
    cost: u64,
    first: u64,
    others: Fields<'_>,
) -> Result<Told, AllocError>
    ensures { IfOk result (λ told. TellsBest network.now told
        (Some (record { cost = cost; values = first ∷ values_of others.entry }))) }
{
    let told = assignment(alloc, network, first, others)?;
    if cost >= network.ub() || !told.has_cost(network, cost) {
        return Ok(Told::Wrong);
    }
    let mut scored = Scored::empty(alloc, network)?;
    scored.fill(network, &told.values);
    Ok(Told::Best(Some(scored)))
}

/// The assignment with these values. An `Err` is want of memory.
fn assignment(
    alloc: Global,
    network: &Network,
    first: u64,
    others: Fields<'_>,
) -> Result<Assignment, AllocError>
    ensures { IfOk result (λ told. IsTold network.now told (first ∷ values_of others.entry) []) }
{
    let mut told = Assignment::new(alloc);
    told.add(network, first)?;
    let mut words = others;
    while let Some(word) = words.word() {
        told.add(network, numeral(word).unwrap_or(0))?;
    }
    Ok(told)
}
