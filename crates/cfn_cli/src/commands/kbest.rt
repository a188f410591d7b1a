//! The command `kbest`.

ghost use Rattle.std.specs.Prelude.{◌≡◌, false, Some, None, IfErr, IfOk};
ghost use Rattle.clap.specs.Words.{found_of, rows_of, rule_of};
ghost use Rattle.cfn_cli.specs.Building.{Builds};
ghost use Rattle.cfn_cli.specs.Request.Listing.{IsKBestWithin, count_rule, k_best_app, k_best_in, k_best_of, spoken_k_best};

use super::solve::{MOST_BUDGET, MOST_SECONDS};
use crate::arguments::{budget, certificate, file, seconds, wcnf, with};
use crate::fault::CliFault;
use crate::format::Format;
use crate::found::{format, number, optional, text};
use clap::{Arg, ArgMatches, Command, value_parser};
use std::alloc::{AllocError, Global};

/// The most assignments that a list may be asked to have.
const MOST_LISTED: u64 = 1_000;

/// How many of the cheapest assignments to list, and how far to go.
#[derive(Drop)]
pub struct KBestArguments {
    /// The name of the file to solve.
    pub file: String,
    /// How many assignments are asked for: 1 to 1,000.
    pub count: u16,
    /// The name of the file that the certificate is written to. It is not the network's file.
    pub certificate: String,
    /// How many nodes the search may expand: 0 to 2^63 - 1, and the greatest where the words give
    /// no number.
    pub budget: u64,
    /// After how many seconds the search ends: 0 to 1,000,000,000, and never where the words give no number.
    pub seconds: Option<u64>,
    /// The format of the file: wcnf exactly where the words say so.
    pub format: Format,
}

pub(crate) fn line<'a>(alloc: Global) -> Result<Command<'a>, AllocError>
    ensures { IfOk result (Builds k_best_app) }
{
    let line = Ok(Command::new(alloc, "kbest"));
    let line = with(line, file(alloc));
    let line = with(line, count(alloc));
    let line = with(line, certificate(alloc));
    let line = with(line, budget(alloc));
    let line = with(line, seconds(alloc));
    with(line, wcnf(alloc))
}

/// K
#[tactic(auto, unfolding(crate::specs::Request::Listing::count_rule))]
fn count<'a>(alloc: Global) -> Arg<'a>
    ensures rule { rule_of result ≡ count_rule }
    ensures local { result.global ≡ false }
{
    Arg::new(alloc, "count")
        .required(true)
        .value_parser(value_parser!(u64))
}

/// What is asked of `kbest`, whose certificate has another name than its file.
pub(crate) fn read(alloc: Global, found: &ArgMatches<'_>) -> Result<KBestArguments, CliFault>
    ensures arguments { IfOk result (λ k. k_best_of (rows_of (found_of found.now)) ≡ Some (spoken_k_best k)) }
    ensures usage { IfErr result (λ fault. fault ≡ CliFault.Usage
        → k_best_of (rows_of (found_of found.now)) ≡ None) }
    ensures within { IfOk result IsKBestWithin }
{
    let ask = arguments(alloc, found)?;
    if ask.file.as_str() == ask.certificate.as_str() {
        return Err(CliFault::Usage);
    }
    Ok(ask)
}

/// What the arguments of `kbest` say.
fn arguments(alloc: Global, found: &ArgMatches<'_>) -> Result<KBestArguments, CliFault>
    ensures arguments { IfOk result (λ k. k_best_in (rows_of (found_of found.now)) ≡ Some (spoken_k_best k)) }
    ensures usage { IfErr result (λ fault. fault ≡ CliFault.Usage
        → k_best_in (rows_of (found_of found.now)) ≡ None) }
    ensures within { IfOk result IsKBestWithin }
{
    let file = text(found, "file")?;
    let count = number(found, "count", 1, MOST_LISTED)?;
    let certificate = text(found, "certificate")?;
    let budget = number(found, "budget", 0, MOST_BUDGET)?;
    let seconds = optional(found, "seconds", 0, MOST_SECONDS)?;
    Ok(KBestArguments {
        file: String::from_str(alloc, file)?,
        count: count as u16,
        certificate: String::from_str(alloc, certificate)?,
        budget,
        seconds,
        format: format(found),
    })
}
