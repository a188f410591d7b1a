//! The lines before the events.

ghost use Rattle.std.specs.Prelude.{◌≡◌, ◌↔◌, [], length, IfErr, IfOk, IsTrue, OnOk};
ghost use Rattle.cfn_fault.specs.Lines as lines;
ghost use Rattle.cfn_record.specs.Lines.{AtBudget, AtEvents, AtHeading, AtNumbers};
ghost use Rattle.cfn_replay.specs.Position.{At};
ghost use Rattle.cfn_replay.specs.Standing.{IsStop, heading_lines, numbers_lines, opening_lines};

use crate::answer::{Stop, refused};
use crate::kinds::{Numbers, budget_in, is_heading, numbers_in};
use crate::lines::Lines;
use cfn_net::Network;
use cfn_record::RecordFault;

/// Reads the lines before the events, and answers the budget.
pub(crate) fn opening(network: &Network, lines: &mut Lines<'_>) -> Result<u64, Stop>
    requires { At network.now lines.old [] AtHeading }
    ensures text { lines.new.text ≡ lines.old.text }
    ensures right { IfOk result (λ budget. At network.now lines.new (opening_lines network.now budget) (AtEvents [])) }
    ensures stop { IfErr result (IsStop network.now lines.old.text) }
{
    heading(network, lines)?;
    numbers(network, lines)?;
    budget(network, lines)
}

/// Reads the first line.
fn heading(network: &Network, lines: &mut Lines<'_>) -> Result<(), Stop>
    requires { At network.now lines.old [] AtHeading }
    ensures text { lines.new.text ≡ lines.old.text }
    ensures right { OnOk result (At network.now lines.new heading_lines AtNumbers) }
    ensures stop { IfErr result (IsStop network.now lines.old.text) }
{
    let line = lines.due();
    let said = lines.next();
    if !is_heading(&said) {
        return Err(refused(RecordFault::Text, line));
    }
    Ok(())
}

/// Reads the line of the network's numbers, which have to be the network's.
fn numbers(network: &Network, lines: &mut Lines<'_>) -> Result<(), Stop>
    requires { At network.now lines.old heading_lines AtNumbers }
    ensures text { lines.new.text ≡ lines.old.text }
    ensures right { OnOk result (At network.now lines.new (numbers_lines network.now) AtBudget) }
    ensures stop { IfErr result (IsStop network.now lines.old.text) }
{
    let line = lines.due();
    let said = lines.next();
    let Some(numbers) = numbers_in(&said) else {
        return Err(refused(RecordFault::Text, line));
    };
    if !has_numbers(network, numbers) {
        return Err(refused(RecordFault::Network, line));
    }
    Ok(())
}

/// Whether these are the network's numbers of variables and functions and its upper bound.
fn has_numbers(network: &Network, numbers: Numbers) -> bool
    ensures { IsTrue result ↔ ((numbers.variables ≡ length network.now.sizes)
        × (numbers.functions ≡ length network.now.functions) × (numbers.upper ≡ network.now.upper)) }
{
    numbers.variables == network.variables() as u64
        && numbers.functions == network.functions() as u64
        && numbers.upper == network.ub()
}

/// Reads the line of the budget.
fn budget(network: &Network, lines: &mut Lines<'_>) -> Result<u64, Stop>
    requires { At network.now lines.old (numbers_lines network.now) AtBudget }
    ensures text { lines.new.text ≡ lines.old.text }
    ensures right { IfOk result (λ budget. At network.now lines.new (opening_lines network.now budget) (AtEvents [])) }
    ensures stop { IfErr result (IsStop network.now lines.old.text) }
{
    let line = lines.due();
    let said = lines.next();
    let Some(budget) = budget_in(&said) else {
        return Err(refused(RecordFault::Text, line));
    };
    Ok(budget)
}
