//! The command `migrate`.

ghost use Rattle.std.specs.Prelude.{◌≡◌, Some, None, IfErr, IfOk};
ghost use Rattle.clap.specs.Words.{found_of, rows_of};
ghost use Rattle.cfn_cli.specs.Building.{Builds};
ghost use Rattle.cfn_cli.specs.Request.Migrating.{migrate_app, migrate_in, migrate_of, spoken_migrate};

use crate::arguments::{certificate, file, out, with};
use crate::fault::CliFault;
use crate::found::text;
use clap::{ArgMatches, Command};
use std::alloc::{AllocError, Global};

/// A certificate to write in the second version, and the file that it is for.
#[derive(Drop)]
pub struct MigrateArguments {
    /// The name of the file that the network is read from.
    pub file: String,
    /// The name of the file that the certificate is read from.
    pub certificate: String,
    /// The name of the file that the certificate is written to. It is not the network's file.
    pub out: String,
}

pub(crate) fn line<'a>(alloc: Global) -> Result<Command<'a>, AllocError>
    ensures { IfOk result (Builds migrate_app) }
{
    let line = Ok(Command::new(alloc, "migrate"));
    let line = with(line, file(alloc));
    let line = with(line, certificate(alloc));
    with(line, out(alloc))
}

/// What is asked of `migrate`, which writes to another name than its file's.
pub(crate) fn read(alloc: Global, found: &ArgMatches<'_>) -> Result<MigrateArguments, CliFault>
    ensures arguments { IfOk result (λ m. migrate_of (rows_of (found_of found.now)) ≡ Some (spoken_migrate m)) }
    ensures usage { IfErr result (λ fault. fault ≡ CliFault.Usage
        → migrate_of (rows_of (found_of found.now)) ≡ None) }
{
    let ask = arguments(alloc, found)?;
    if ask.file.as_str() == ask.out.as_str() {
        return Err(CliFault::Usage);
    }
    Ok(ask)
}

/// What the arguments of `migrate` say.
fn arguments(alloc: Global, found: &ArgMatches<'_>) -> Result<MigrateArguments, CliFault>
    ensures arguments { IfOk result (λ m. migrate_in (rows_of (found_of found.now)) ≡ Some (spoken_migrate m)) }
    ensures usage { IfErr result (λ fault. fault ≡ CliFault.Usage
        → migrate_in (rows_of (found_of found.now)) ≡ None) }
{
    let file = text(found, "file")?;
    let first = text(found, "certificate")?;
    let out = text(found, "out")?;
    Ok(MigrateArguments {
        file: String::from_str(alloc, file)?,
        certificate: String::from_str(alloc, first)?,
        out: String::from_str(alloc, out)?,
    })
}
