//! The command `solve`.

ghost use Rattle.std.specs.Prelude.{◌≡◌, Some, None, IfErr, IfOk};
ghost use Rattle.clap.specs.Words.{found_of, rows_of};
ghost use Rattle.cfn_cli.specs.Building.{Builds};
ghost use Rattle.cfn_cli.specs.Request.Solving.{IsSolveWithin, solve_app, solve_in, solve_of, spoken_solve};

use super::recorded::record_option;
use crate::arguments::{budget, certificate, file, progress, seconds, wcnf, with, workers};
use crate::fault::CliFault;
use crate::format::Format;
use crate::found::{MOST_WORKERS, flag, format, number, optional, text};
use clap::{ArgMatches, Command};
use std::alloc::{AllocError, Global};

/// The greatest budget, 2^63 - 1.
pub(super) const MOST_BUDGET: u64 = 9_223_372_036_854_775_807;

/// The greatest limit of time, in seconds.
pub(super) const MOST_SECONDS: u64 = 1_000_000_000;

/// What to solve, and how far to go.
#[derive(Drop)]
pub struct SolveArguments {
    /// The name of the file to solve.
    pub file: String,
    /// The name of the file that the certificate is written to.
    pub certificate: String,
    /// How many workers are asked for: 1 to 64, and 1 where the words give no number.
    pub workers: u8,
    /// How many nodes the search may expand: 0 to 2^63 - 1, and the greatest where the words give
    /// no number.
    pub budget: u64,
    /// After how many seconds the search ends: 0 to 1,000,000,000, and never where the words give no number.
    pub seconds: Option<u64>,
    /// The format of the file: wcnf exactly where the words say so.
    pub format: Format,
    /// Whether the words ask to be told how far the search is.
    pub progress: bool,
}

pub(crate) fn line<'a>(alloc: Global) -> Result<Command<'a>, AllocError>
    ensures { IfOk result (Builds solve_app) }
{
    let line = Ok(Command::new(alloc, "solve"));
    let line = with(line, file(alloc));
    let line = with(line, certificate(alloc));
    let line = with(line, workers(alloc));
    let line = with(line, budget(alloc));
    let line = with(line, seconds(alloc));
    let line = with(line, wcnf(alloc));
    let line = with(line, progress(alloc));
    with(line, record_option(alloc))
}

/// What is asked of `solve`, whose certificate has another name than its file.
pub(crate) fn read(alloc: Global, found: &ArgMatches<'_>) -> Result<SolveArguments, CliFault>
    ensures arguments { IfOk result (λ s. solve_of (rows_of (found_of found.now)) ≡ Some (spoken_solve s)) }
    ensures usage { IfErr result (λ fault. fault ≡ CliFault.Usage
        → solve_of (rows_of (found_of found.now)) ≡ None) }
    ensures within { IfOk result IsSolveWithin }
{
    let ask = arguments(alloc, found)?;
    if ask.file.as_str() == ask.certificate.as_str() {
        return Err(CliFault::Usage);
    }
    Ok(ask)
}

/// What the arguments of `solve` say.
fn arguments(alloc: Global, found: &ArgMatches<'_>) -> Result<SolveArguments, CliFault>
    ensures arguments { IfOk result (λ s. solve_in (rows_of (found_of found.now)) ≡ Some (spoken_solve s)) }
    ensures usage { IfErr result (λ fault. fault ≡ CliFault.Usage
        → solve_in (rows_of (found_of found.now)) ≡ None) }
    ensures within { IfOk result IsSolveWithin }
{
    let file = text(found, "file")?;
    let certificate = text(found, "certificate")?;
    let workers = number(found, "workers", 1, MOST_WORKERS)?;
    let budget = number(found, "budget", 0, MOST_BUDGET)?;
    let seconds = optional(found, "seconds", 0, MOST_SECONDS)?;
    Ok(SolveArguments {
        file: String::from_str(alloc, file)?,
        certificate: String::from_str(alloc, certificate)?,
        workers: workers as u8,
        budget,
        seconds,
        format: format(found),
        progress: flag(found, "progress"),
    })
}
