//! The command `rebase`.

ghost use Rattle.std.specs.Prelude.{◌≡◌, false, Some, None, IfErr, IfOk};
ghost use Rattle.clap.specs.Words.{found_of, rows_of, rule_of};
ghost use Rattle.cfn_cli.specs.Building.{Builds};
ghost use Rattle.cfn_cli.specs.Request.Rebasing.{IsRebaseWithin, old_rule, part_rule, parts_rule, rebase_app, rebase_of, spoken_rebase};

use super::solve;
use crate::arguments::{budget, certificate, file, progress, seconds, wcnf, with, workers};
use crate::commands::SolveArguments;
use crate::fault::CliFault;
use crate::found::{number, text};
use clap::{Arg, ArgMatches, Command, value_parser};
use std::alloc::{AllocError, Global};

/// The most parts that a certificate's open leaves may be dealt to.
const MOST_PARTS: u64 = 1_048_576;

/// What to go on from, and how far to go.
#[derive(Drop)]
pub struct RebaseArguments {
    /// The name of the file of the certificate that is gone on from. It may be that of the certificate that is written.
    pub old: String,
    /// Which part of its open leaves to work on: 1 to `parts`, and 1 where the words give no number.
    pub part: u32,
    /// How many parts there are: 1 to 1,048,576, and 1 where the words give no number.
    pub parts: u32,
    /// All else, as with `solve`.
    pub solve: SolveArguments,
}

pub(crate) fn line<'a>(alloc: Global) -> Result<Command<'a>, AllocError>
    ensures { IfOk result (Builds rebase_app) }
{
    let line = Ok(Command::new(alloc, "rebase"));
    let line = with(line, file(alloc));
    let line = with(line, old(alloc));
    let line = with(line, certificate(alloc));
    let line = with(line, workers(alloc));
    let line = with(line, budget(alloc));
    let line = with(line, seconds(alloc));
    let line = with(line, wcnf(alloc));
    let line = with(line, progress(alloc));
    let line = with(line, part(alloc));
    with(line, parts(alloc))
}

#[tactic(auto, unfolding(crate::specs::Request::Rebasing::old_rule))]
fn old<'a>(alloc: Global) -> Arg<'a>
    ensures rule { rule_of result ≡ old_rule }
    ensures local { result.global ≡ false }
{
    Arg::new(alloc, "old").required(true)
}

/// `[--part I]`, and 1 where it is left out
#[tactic(auto, unfolding(crate::specs::Request::Rebasing::part_rule))]
fn part<'a>(alloc: Global) -> Arg<'a>
    ensures rule { rule_of result ≡ part_rule }
    ensures local { result.global ≡ false }
{
    Arg::new(alloc, "part")
        .long("part")
        .value_parser(value_parser!(u64))
        .default_value("1")
}

/// `[--parts N]`, and 1 where it is left out
#[tactic(auto, unfolding(crate::specs::Request::Rebasing::parts_rule))]
fn parts<'a>(alloc: Global) -> Arg<'a>
    ensures rule { rule_of result ≡ parts_rule }
    ensures local { result.global ≡ false }
{
    Arg::new(alloc, "parts")
        .long("parts")
        .value_parser(value_parser!(u64))
        .default_value("1")
}

/// What is asked of `rebase`, whose certificate has another name than its file.
pub(crate) fn read(alloc: Global, found: &ArgMatches<'_>) -> Result<RebaseArguments, CliFault>
    ensures arguments { IfOk result (λ r. rebase_of (rows_of (found_of found.now)) ≡ Some (spoken_rebase r)) }
    ensures usage { IfErr result (λ fault. fault ≡ CliFault.Usage
        → rebase_of (rows_of (found_of found.now)) ≡ None) }
    ensures within { IfOk result IsRebaseWithin }
{
    let old = text(found, "old")?;
    let solve = solve::read(alloc, found)?;
    let parts = number(found, "parts", 1, MOST_PARTS)?;
    let part = number(found, "part", 1, parts)?;
    Ok(RebaseArguments {
        old: String::from_str(alloc, old)?,
        part: part as u32,
        parts: parts as u32,
        solve,
    })
}
