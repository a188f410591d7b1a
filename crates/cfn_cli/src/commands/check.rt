//! The command `check`.

ghost use Rattle.std.specs.Prelude.{◌≡◌, Some, None, IfErr, IfOk};
ghost use Rattle.clap.specs.Words.{found_of, rows_of};
ghost use Rattle.cfn_cli.specs.Building.{Builds};
ghost use Rattle.cfn_cli.specs.Request.Checking.{check_app, check_of, spoken_check};

use crate::arguments::{certificate, file, wcnf, with};
use crate::fault::CliFault;
use crate::format::Format;
use crate::found::{format, text};
use clap::{ArgMatches, Command};
use std::alloc::{AllocError, Global};

/// A certificate to judge, and the file that it is for.
#[derive(Drop)]
pub struct CheckArguments {
    /// The name of the file that the network is read from.
    pub file: String,
    /// The name of the file that the certificate is read from.
    pub certificate: String,
    /// The format of the file: wcnf exactly where the words say so.
    pub format: Format,
}

pub(crate) fn line<'a>(alloc: Global) -> Result<Command<'a>, AllocError>
    ensures { IfOk result (Builds check_app) }
{
    let line = Ok(Command::new(alloc, "check"));
    let line = with(line, file(alloc));
    let line = with(line, certificate(alloc));
    with(line, wcnf(alloc))
}

/// What is asked of `check`.
pub(crate) fn read(alloc: Global, found: &ArgMatches<'_>) -> Result<CheckArguments, CliFault>
    ensures arguments { IfOk result (λ k. check_of (rows_of (found_of found.now)) ≡ Some (spoken_check k)) }
    ensures usage { IfErr result (λ fault. fault ≡ CliFault.Usage
        → check_of (rows_of (found_of found.now)) ≡ None) }
{
    let file = text(found, "file")?;
    let judged = text(found, "certificate")?;
    Ok(CheckArguments {
        file: String::from_str(alloc, file)?,
        certificate: String::from_str(alloc, judged)?,
        format: format(found),
    })
}
