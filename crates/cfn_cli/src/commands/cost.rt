//! The command `cost`.

ghost use Rattle.std.specs.Prelude.{◌≡◌, ◌<◌, ◌^◌, false, Some, None, IfErr, IfOk, length, map};
ghost use Rattle.std.specs.List.{All};
ghost use Rattle.clap.specs.Words.{found_of, rows_of, rule_of};
ghost use Rattle.cfn_cli.specs.Building.{Builds};
ghost use Rattle.cfn_cli.specs.Request.Costing.{IsCostWithin, cost_app, cost_of, spoken_cost, values_of, values_rule};

use crate::arguments::{file, wcnf, with};
use crate::fault::CliFault;
use crate::format::Format;
use crate::found::{format, number_in, text};
use clap::{Arg, ArgAction, ArgMatches, Command, value_parser};
use std::alloc::{AllocError, Global};

/// The greatest value of a variable, 2^32 - 1.
const MOST_VALUE: u64 = 4_294_967_295;

/// An assignment of which the cost is asked for.
#[derive(Drop)]
pub struct CostArguments {
    /// The name of the file that the costs are read from.
    pub file: String,
    /// A value for each variable, in order: at least one.
    pub values: Vec<u32>,
    /// The format of the file: wcnf exactly where the words say so.
    pub format: Format,
}

pub(crate) fn line<'a>(alloc: Global) -> Result<Command<'a>, AllocError>
    ensures { IfOk result (Builds cost_app) }
{
    let line = Ok(Command::new(alloc, "cost"));
    let line = with(line, file(alloc));
    let line = with(line, values(alloc));
    with(line, wcnf(alloc))
}

#[tactic(auto, unfolding(crate::specs::Request::Costing::values_rule))]
fn values<'a>(alloc: Global) -> Arg<'a>
    ensures rule { rule_of result ≡ values_rule }
    ensures local { result.global ≡ false }
{
    Arg::new(alloc, "values")
        .required(true)
        .action(ArgAction::Append)
        .value_parser(value_parser!(u64))
}

/// What is asked of `cost`.
pub(crate) fn read(alloc: Global, found: &ArgMatches<'_>) -> Result<CostArguments, CliFault>
    ensures arguments { IfOk result (λ k. cost_of (rows_of (found_of found.now)) ≡ Some (spoken_cost k)) }
    ensures usage { IfErr result (λ fault. fault ≡ CliFault.Usage
        → cost_of (rows_of (found_of found.now)) ≡ None) }
    ensures within { IfOk result IsCostWithin }
{
    let file = text(found, "file")?;
    let Some(texts) = found.get_strs("values") else {
        return Err(CliFault::Usage);
    };
    let values = values_in(alloc, texts)?;
    Ok(CostArguments {
        file: String::from_str(alloc, file)?,
        values,
        format: format(found),
    })
}

/// The values that the texts are, of which there has to be one.
fn values_in(alloc: Global, texts: &[&str]) -> Result<Vec<u32>, CliFault>
    ensures values { IfOk result (λ vs. values_of (map (λ t. t.now) texts.now) ≡ Some vs.items) }
    ensures usage { IfErr result (λ fault. fault ≡ CliFault.Usage
        → values_of (map (λ t. t.now) texts.now) ≡ None) }
    ensures within { IfOk result (λ vs. All (λ v. v < 2 ^ 32) vs.items) }
    ensures some { IfOk result (λ vs. 0 < length vs.items) }
{
    if texts.is_empty() {
        return Err(CliFault::Usage);
    }
    let mut values = Vec::with_capacity(alloc, texts.len())?;
    for text in texts {
        let Some(value) = number_in(text, 0, MOST_VALUE) else {
            return Err(CliFault::Usage);
        };
        values.push(value as u32)?;
    }
    Ok(values)
}
