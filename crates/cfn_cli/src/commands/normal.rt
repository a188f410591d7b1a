//! The command `normal`.

ghost use Rattle.std.specs.Prelude.{◌≡◌, Some, None, IfErr, IfOk};
ghost use Rattle.clap.specs.Words.{found_of, rows_of};
ghost use Rattle.cfn_cli.specs.Building.{Builds};
ghost use Rattle.cfn_cli.specs.Request.Normalizing.{normal_app, normal_of, spoken_normal};

use crate::arguments::{file, wcnf};
use crate::fault::CliFault;
use crate::format::Format;
use crate::found::{format, text};
use clap::{ArgMatches, Command};
use std::alloc::{AllocError, Global};

/// A network to say in its canonical text.
#[derive(Drop)]
pub struct NormalArguments {
    /// The name of the file that the network is read from.
    pub file: String,
    /// The format of the file: wcnf exactly where the words say so.
    pub format: Format,
}

pub(crate) fn line<'a>(alloc: Global) -> Result<Command<'a>, AllocError>
    ensures { IfOk result (Builds normal_app) }
{
    Command::new(alloc, "normal")
        .arg(file(alloc))?
        .arg(wcnf(alloc))
}

/// What is asked of `normal`.
pub(crate) fn read(alloc: Global, found: &ArgMatches<'_>) -> Result<NormalArguments, CliFault>
    ensures arguments { IfOk result (λ n. normal_of (rows_of (found_of found.now)) ≡ Some (spoken_normal n)) }
    ensures usage { IfErr result (λ fault. fault ≡ CliFault.Usage
        → normal_of (rows_of (found_of found.now)) ≡ None) }
{
    let file = text(found, "file")?;
    Ok(NormalArguments {
        file: String::from_str(alloc, file)?,
        format: format(found),
    })
}
