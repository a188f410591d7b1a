//! The command `checkbest`.

ghost use Rattle.std.specs.Prelude.{◌≡◌, false, Some, None, IfErr, IfOk};
ghost use Rattle.clap.specs.Words.{found_of, rows_of, rule_of};
ghost use Rattle.cfn_cli.specs.Building.{Builds};
ghost use Rattle.cfn_cli.specs.Request.CheckingBest.{check_best_app, check_best_of, complete_rule, spoken_check_best};

use crate::arguments::{certificate, file, wcnf, with};
use crate::fault::CliFault;
use crate::format::Format;
use crate::found::{flag, format, text};
use clap::{Arg, ArgAction, ArgMatches, Command};
use std::alloc::{AllocError, Global};

/// A certificate of the cheapest assignments to judge, and the file that it is for.
#[derive(Drop)]
pub struct CheckBestArguments {
    /// The name of the file that the network is read from.
    pub file: String,
    /// The name of the file that the certificate is read from.
    pub certificate: String,
    /// The format of the file: wcnf exactly where the words say so.
    pub format: Format,
    /// Whether the words ask whether the list is complete.
    pub complete: bool,
}

pub(crate) fn line<'a>(alloc: Global) -> Result<Command<'a>, AllocError>
    ensures { IfOk result (Builds check_best_app) }
{
    let line = Ok(Command::new(alloc, "checkbest"));
    let line = with(line, file(alloc));
    let line = with(line, certificate(alloc));
    let line = with(line, wcnf(alloc));
    with(line, complete(alloc))
}

/// `[--complete]`
#[tactic(auto, unfolding(crate::specs::Request::CheckingBest::complete_rule))]
fn complete<'a>(alloc: Global) -> Arg<'a>
    ensures rule { rule_of result ≡ complete_rule }
    ensures local { result.global ≡ false }
{
    Arg::new(alloc, "complete")
        .long("complete")
        .action(ArgAction::SetTrue)
}

/// What is asked of `checkbest`.
pub(crate) fn read(alloc: Global, found: &ArgMatches<'_>) -> Result<CheckBestArguments, CliFault>
    ensures arguments { IfOk result (λ k. check_best_of (rows_of (found_of found.now)) ≡ Some (spoken_check_best k)) }
    ensures usage { IfErr result (λ fault. fault ≡ CliFault.Usage
        → check_best_of (rows_of (found_of found.now)) ≡ None) }
{
    let file = text(found, "file")?;
    let judged = text(found, "certificate")?;
    Ok(CheckBestArguments {
        file: String::from_str(alloc, file)?,
        certificate: String::from_str(alloc, judged)?,
        format: format(found),
        complete: flag(found, "complete"),
    })
}
