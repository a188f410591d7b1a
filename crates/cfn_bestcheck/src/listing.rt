//! The listed assignments.

ghost use Rattle.std.specs.Prelude.{◌≡◌, ℕ, ◌<◌, ◌↔◌, suc, List, [], length, slice_index, IfOk, IfErr, IsTrue};
ghost use Rattle.cfn_certtext.specs.Stages.{value_of, values_of};
ghost use Rattle.cfn_best.specs.List.{IsBefore};
ghost use Rattle.cfn_best.specs.Lines.{AtList, Claim, with_solution};
ghost use Rattle.cfn_best.specs.Fault.{ComesBehind};
ghost use Rattle.cfn_bestcheck.specs.Position.{At};
ghost use Rattle.cfn_bestcheck.specs.Listing.{AreLong, IsPriced, solution_of, solutions_of};
ghost use Rattle.cfn_bestcheck.specs.Checking.{IsStop, claim_of};

use crate::answer::Stop;
use crate::entry::Entry;
use crate::kinds::values_in;
use crate::lines::Lines;
use crate::opening::{Opening, grammar_fault};
use cfn_best::ListFault;
use cfn_certtext::{Fields, numeral};
use cfn_check::Assignment;
use cfn_fault::FaultKind;
use cfn_net::Network;
use std::alloc::{AllocError, Global};

/// Judges the lines of the listed assignments. It takes memory for their values.
pub(crate) fn solutions(
    alloc: Global,
    network: &Network,
    lines: &mut Lines<'_>,
    opening: Opening,
) -> Result<Vec<Entry>, Stop>
    requires { At network.now lines.old (AtList (claim_of opening []) opening.many) }
    ensures text { lines.new.text ≡ lines.old.text }
    ensures right { IfOk result (λ list. At network.now lines.new (AtList (claim_of opening list.items) 0)) }
    ensures long { IfOk result (λ list. AreLong network.now list.items) }
    ensures stop { IfErr result (IsStop network.now lines.old.text) }
{
    let mut list = Vec::new(alloc);
    let mut left = opening.many;
    while left > 0 {
        let entry = solution(alloc, network, lines, &list)?;
        list.push(entry)?;
        left -= 1;
    }
    Ok(list)
}

/// Judges the line of the next assignment of a list.
fn solution(
    alloc: Global,
    network: &Network,
    lines: &mut Lines<'_>,
    list: &[Entry],
) -> Result<Entry, Stop>
    ensures text { lines.new.text ≡ lines.old.text }
    ensures right { IfOk result (λ entry. (claim : Claim) (left : ℕ) → claim.list ≡ solutions_of list.now
        → At network.now lines.old (AtList claim (suc left))
        → At network.now lines.new (AtList (with_solution (solution_of entry) claim) left)) }
    ensures long { IfOk result (λ entry. length entry.values.items ≡ length network.now.sizes) }
    ensures stop { IfErr result (λ stop. (claim : Claim) (left : ℕ) → claim.list ≡ solutions_of list.now
        → At network.now lines.old (AtList claim (suc left)) → IsStop network.now lines.old.text stop) }
{
    let line = lines.due();
    let said = lines.next();
    let Some((cost, values)) = values_in(said) else {
        return Err(grammar_fault(line));
    };
    match priced(alloc, network, list, cost, values)? {
        Some(entry) => Ok(entry),
        None => Err(Stop::Refused {
            kind: ListFault::Certificate(FaultKind::Best),
            line,
        }),
    }
}

/// The next assignment of a list, where the words are the values of one that has this cost, below the upper bound, and
/// comes behind all of the list.
fn priced(
    alloc: Global,
    network: &Network,
    list: &[Entry],
    cost: u64,
    mut words: Fields<'_>,
) -> Result<Option<Entry>, AllocError>
    ensures { IfOk result (IsPriced network.now (solutions_of list.now)
        (record { cost = cost; values = values_of words.entry })) }
{
    let mut told = Assignment::new(alloc);
    while let Some(word) = words.word() {
        told.add(network, value(word))?;
    }
    if cost < network.ub()
        && told.has_cost(network, cost)
        && comes_behind(list, cost, &told.values)
    {
        return Ok(Some(Entry {
            cost,
            values: told.values,
        }));
    }
    Ok(None)
}

/// The number that a word of values is.
fn value(word: &[u8]) -> u64
    ensures { result ≡ value_of word.now }
{
    numeral(word).unwrap_or(0)
}

/// Whether an assignment with a cost comes behind all of a list in order.
fn comes_behind(list: &[Entry], cost: u64, values: &[u32]) -> bool
    ensures { IsTrue result ↔ ComesBehind (solutions_of list.now) (record { cost = cost; values = values.now }) }
{
    match list.last() {
        Some(last) => is_before(last, cost, values),
        None => true,
    }
}

/// Whether an assignment comes before another one with a cost: it costs less, or as much, and the first value in which
/// they differ is less.
fn is_before(entry: &Entry, cost: u64, values: &[u32]) -> bool
    ensures { IsTrue result ↔ IsBefore (solution_of entry.now) (record { cost = cost; values = values.now }) }
{
    let by_cost = entry.cost.cmp(&cost);
    let by_values = entry.values[..].cmp(values);
    by_cost.then(by_values).is_lt()
}
