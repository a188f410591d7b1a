//! The lines of a list's text before its assignments, and the line that begins the tree.

ghost use Rattle.std.specs.Prelude.{◌≡◌, List, [], ◌∷◌, length, IfOk, IfErr, OnOk, IsTrue, ◌↔◌};
ghost use Rattle.cfn_fault.specs.declared.kind.FaultKind.TheVariants as kinds;
ghost use Rattle.cfn_best.specs.declared.kind.ListFault.TheVariants.{Certificate};
ghost use Rattle.cfn_best.specs.Lines.{AtBest, AtCount, AtHeading, AtList, AtLower, AtNodes, AtNumbers, Claim, threshold};
ghost use Rattle.cfn_bestcheck.specs.declared.answer.Stop.TheVariants as stops;
ghost use Rattle.cfn_bestcheck.specs.Position.{At};
ghost use Rattle.cfn_bestcheck.specs.Checking.{IsStop, claim_of};

use crate::answer::Stop;
use crate::kinds::{Numbers, count_in, is_heading, is_root, lower_in, many_in, numbers_in};
use crate::lines::Lines;
use cfn_best::ListFault;
use cfn_fault::FaultKind;
use cfn_net::Network;

/// What a text claims before its assignments: how many were asked for, the lower bound, and how many are listed.
#[derive(Clone, Copy)]
pub(crate) struct Opening {
    pub(crate) count: u64,
    pub(crate) lower: u64,
    pub(crate) many: u64,
}

/// A line that does not follow the grammar.
pub(crate) fn grammar_fault(line: u64) -> Stop
    ensures { result ≡ stops.Refused (Certificate kinds.Text) line }
{
    Stop::Refused {
        kind: ListFault::Certificate(FaultKind::Text),
        line,
    }
}

/// Judges the lines before the listed assignments.
pub(crate) fn read_opening(network: &Network, lines: &mut Lines<'_>) -> Result<Opening, Stop>
    requires { At network.now lines.old AtHeading }
    ensures text { lines.new.text ≡ lines.old.text }
    ensures right { IfOk result (λ opening. At network.now lines.new (AtList (claim_of opening []) opening.many)) }
    ensures stop { IfErr result (IsStop network.now lines.old.text) }
{
    heading(network, lines)?;
    numbers(network, lines)?;
    let count = count(network, lines)?;
    let lower = lower(network, lines, count)?;
    let many = many(network, lines, count, lower)?;
    Ok(Opening { count, lower, many })
}

/// Reads the line of the version.
fn heading(network: &Network, lines: &mut Lines<'_>) -> Result<(), Stop>
    requires { At network.now lines.old AtHeading }
    ensures text { lines.new.text ≡ lines.old.text }
    ensures right { OnOk result (At network.now lines.new AtNumbers) }
    ensures stop { IfErr result (IsStop network.now lines.old.text) }
{
    let line = lines.due();
    let said = lines.next();
    if !is_heading(&said) {
        return Err(grammar_fault(line));
    }
    Ok(())
}

/// Reads the line of the network's numbers, which have to be the network's.
fn numbers(network: &Network, lines: &mut Lines<'_>) -> Result<(), Stop>
    requires { At network.now lines.old AtNumbers }
    ensures text { lines.new.text ≡ lines.old.text }
    ensures right { OnOk result (At network.now lines.new AtCount) }
    ensures stop { IfErr result (IsStop network.now lines.old.text) }
{
    let line = lines.due();
    let said = lines.next();
    let Some(numbers) = numbers_in(&said) else {
        return Err(grammar_fault(line));
    };
    if !has_numbers(network, numbers) {
        return Err(Stop::Refused {
            kind: ListFault::Certificate(FaultKind::Network),
            line,
        });
    }
    Ok(())
}

/// Whether these are the network's numbers of variables and functions and its upper bound.
fn has_numbers(network: &Network, numbers: Numbers) -> bool
    ensures { IsTrue result ↔ ((numbers.variables ≡ length network.now.sizes)
        × (numbers.functions ≡ length network.now.functions) × (numbers.upper ≡ network.now.upper)) }
{
    numbers.variables == network.variables() as u64
        && numbers.functions == network.functions() as u64
        && numbers.upper == network.ub()
}

/// Reads the line of how many assignments were asked for.
fn count(network: &Network, lines: &mut Lines<'_>) -> Result<u64, Stop>
    requires { At network.now lines.old AtCount }
    ensures text { lines.new.text ≡ lines.old.text }
    ensures right { IfOk result (λ count. At network.now lines.new (AtLower count)) }
    ensures stop { IfErr result (IsStop network.now lines.old.text) }
{
    let line = lines.due();
    let said = lines.next();
    let Some(count) = count_in(&said) else {
        return Err(grammar_fault(line));
    };
    Ok(count)
}

/// Reads the line of the lower bound.
fn lower(network: &Network, lines: &mut Lines<'_>, count: u64) -> Result<u64, Stop>
    requires { At network.now lines.old (AtLower count) }
    ensures text { lines.new.text ≡ lines.old.text }
    ensures right { IfOk result (λ lower. At network.now lines.new (AtBest count lower)) }
    ensures stop { IfErr result (IsStop network.now lines.old.text) }
{
    let line = lines.due();
    let said = lines.next();
    let Some(lower) = lower_in(&said) else {
        return Err(grammar_fault(line));
    };
    Ok(lower)
}

/// Reads the line of how many assignments are listed, no more than were asked for.
fn many(network: &Network, lines: &mut Lines<'_>, count: u64, lower: u64) -> Result<u64, Stop>
    requires { At network.now lines.old (AtBest count lower) }
    ensures text { lines.new.text ≡ lines.old.text }
    ensures right { IfOk result (λ many. At network.now lines.new
        (AtList (record { count = count; lower = lower; list = [] }) many)) }
    ensures stop { IfErr result (IsStop network.now lines.old.text) }
{
    let line = lines.due();
    let said = lines.next();
    let Some(many) = many_in(&said) else {
        return Err(grammar_fault(line));
    };
    if many > count {
        return Err(Stop::Refused {
            kind: ListFault::Certificate(FaultKind::Best),
            line,
        });
    }
    Ok(many)
}

/// Reads the line that begins the tree.
pub(crate) fn root(network: &Network, lines: &mut Lines<'_>) -> Result<(), Stop>
    ensures text { lines.new.text ≡ lines.old.text }
    ensures right { OnOk result ((claim : Claim) → At network.now lines.old (AtList claim 0)
        → At network.now lines.new (AtNodes claim (threshold network.now claim) ([] ∷ []))) }
    ensures stop { IfErr result (λ stop. (claim : Claim) → At network.now lines.old (AtList claim 0)
        → IsStop network.now lines.old.text stop) }
{
    let line = lines.due();
    let said = lines.next();
    if !is_root(&said) {
        return Err(grammar_fault(line));
    }
    Ok(())
}
