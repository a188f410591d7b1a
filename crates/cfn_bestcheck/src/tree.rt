//! The lines of a list's tree.

ghost use Rattle.std.specs.Prelude.{◌≡◌, ℕ, List, [], ◌∷◌, Some, None, IfOk, IfErr, OnOk, if◌then◌else◌};
ghost use Rattle.cfn_model.specs.declared.step.Event.{Event};
ghost use Rattle.cfn_best.specs.declared.kind.ListFault.TheVariants.{Listed};
ghost use Rattle.cfn_best.specs.Lines.{AtNodes, AtOver, Claim, threshold};
ghost use Rattle.cfn_bestcheck.specs.Position.{At};
ghost use Rattle.cfn_bestcheck.specs.Said.{line_in};
ghost use Rattle.cfn_bestcheck.specs.Listing.{AreLong, solutions_of};
ghost use Rattle.cfn_bestcheck.specs.Checking.{IsStop, claim_of};
ghost use Rattle.cfn_bestcheck.specs.Tree.{InTree, LeavesListed, Takes, of_certificate};

use crate::answer::Stop;
use crate::entry::Entry;
use crate::kinds::{TreeLine, is_end, tree_line_in};
use crate::lines::Lines;
use crate::opening::{Opening, grammar_fault};
use crate::said::Said;
use cfn_best::ListFault;
use cfn_check::{Walk, node};
use cfn_fault::FaultKind;
use cfn_net::Network;
use std::alloc::AllocError;

/// Judges the lines of all nodes that are due.
pub(crate) fn nodes(
    network: &Network,
    lines: &mut Lines<'_>,
    walk: &mut Walk,
    opening: Opening,
    list: &[Entry],
) -> Result<(), Stop>
    requires tree { InTree network.now lines.old walk.old (claim_of opening list.now) }
    requires long { AreLong network.now list.now }
    ensures text { lines.new.text ≡ lines.old.text }
    ensures tree { OnOk result (InTree network.now lines.new walk.new (claim_of opening list.now)) }
    ensures over { OnOk result (walk.new.paths ≡ []) }
    ensures stop { IfErr result (IsStop network.now lines.old.text) }
{
    while !walk.is_over() {
        let line = lines.due();
        let said = lines.next();
        if let Some(kind) = tree_line(network, walk, list, said)? {
            return Err(Stop::Refused { kind, line });
        }
    }
    Ok(())
}

/// Judges a line of the node that is due, and goes on behind it. The answer is how the line fails, if it does.
fn tree_line(
    network: &Network,
    walk: &mut Walk,
    list: &[Entry],
    said: Option<Said<'_>>,
) -> Result<Option<ListFault>, AllocError>
    requires same { network.now ≡ walk.old.network }
    requires long { AreLong network.now list.now }
    ensures network { walk.new.network ≡ walk.old.network }
    ensures takes { IfOk result (λ fault. (claim : Claim) (history : List Event) (paths : List (List Event))
        → claim.list ≡ solutions_of list.now → walk.old.threshold ≡ threshold network.now claim
        → walk.old.paths ≡ history ∷ paths
        → Takes network.now claim walk.old walk.new history paths (line_in said.entry) fault) }
{
    match tree_line_in(&said) {
        Some(TreeLine::Node(item)) => {
            let fault = node(network, walk, item)?;
            Ok(of_certificate(fault))
        }
        Some(TreeLine::Listed(number)) => {
            let listed = leave_listed(network, walk, list, number)?;
            Ok(fault_unless(listed))
        }
        None => Ok(Some(ListFault::Certificate(FaultKind::Text))),
    }
}

/// How a line of a node fails.
fn of_certificate(fault: Option<FaultKind>) -> Option<ListFault>
    ensures { result ≡ of_certificate fault }
{
    match fault {
        Some(kind) => Some(ListFault::Certificate(kind)),
        None => None,
    }
}

/// How the line of a listed leaf fails, unless a test has passed.
fn fault_unless(passes: bool) -> Option<ListFault>
    ensures { result ≡ (if passes then None else Some Listed) }
{
    if passes {
        None
    } else {
        Some(ListFault::Listed)
    }
}

/// Leaves the node that is due, where it is the leaf of the listed assignment with a number. The answer is whether it is.
fn leave_listed(
    network: &Network,
    walk: &mut Walk,
    list: &[Entry],
    number: u64,
) -> Result<bool, AllocError>
    requires same { network.now ≡ walk.old.network }
    requires long { AreLong network.now list.now }
    ensures network { walk.new.network ≡ walk.old.network }
    ensures leaves { IfOk result (λ answer. (history : List Event) (paths : List (List Event))
        → walk.old.paths ≡ history ∷ paths
        → LeavesListed network.now (solutions_of list.now) walk.old walk.new number history paths answer) }
{
    let Some(entry) = list.get(number as usize) else {
        return Ok(false);
    };
    if !walk.has_only(network, &entry.values) {
        return Ok(false);
    }
    walk.leave(network)?;
    Ok(true)
}

/// Reads the last line, behind which nothing may stand.
pub(crate) fn end(network: &Network, lines: &mut Lines<'_>) -> Result<(), Stop>
    ensures text { lines.new.text ≡ lines.old.text }
    ensures right { OnOk result ((claim : Claim) (least : ℕ) → At network.now lines.old (AtNodes claim least [])
        → At network.now lines.new (AtOver claim least)) }
    ensures over { OnOk result (lines.new.rest ≡ []) }
    ensures stop { IfErr result (λ stop. (claim : Claim) (least : ℕ)
        → At network.now lines.old (AtNodes claim least []) → IsStop network.now lines.old.text stop) }
{
    let line = lines.due();
    let said = lines.next();
    if !is_end(&said) {
        return Err(grammar_fault(line));
    }
    if !lines.is_over() {
        return Err(grammar_fault(lines.due()));
    }
    Ok(())
}
