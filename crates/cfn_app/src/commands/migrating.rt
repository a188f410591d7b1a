//! The command `migrate`.

ghost use Rattle.std.specs.Prelude.{OnOk, OnErr};
ghost use Rattle.cfn_desk.specs.Outside.{IsIdle, IsWriting};
ghost use Rattle.cfn_certwrite.specs.Upgrading.{upgraded};
ghost use Rattle.cfn_report.specs.Texts.{migrated_text};
ghost use Rattle.cfn_cli.specs.Request.Migrating.{spoken_migrate};
ghost use Rattle.cfn_app.specs.declared.status.Status.TheVariants.{Done};
ghost use Rattle.cfn_app.specs.Endings.{NotWritten, Outputs, Wrote};
ghost use Rattle.cfn_app.specs.Runs.Migrating.{Migrates, Rewrites, Upgrades};

use crate::loading::load_pair;
use crate::status::{Status, ending};
use cfn_check::{Check, check};
use cfn_cli::Format;
use cfn_cli::commands::MigrateArguments;
use cfn_desk::{Desk, Failed};
use cfn_net::Network;
use std::alloc::{AllocError, Global};

/// Loads both files that are asked for, reads the network, judges the certificate, and writes it in the second version
/// where it is good. The first fault decides, and nothing is written where there is one.
pub fn migrate_file<D: Desk>(alloc: Global, ask: &MigrateArguments, desk: &mut D) -> Status
    requires { IsIdle (D.outside desk.old).calls }
    ensures { Migrates (spoken_migrate ask.now) (D.outside desk.old) (D.outside desk.new) result }
{
    match load_pair(
        alloc,
        Format::Wcsp,
        ask.file.as_str(),
        ask.certificate.as_str(),
        desk,
    ) {
        Ok(pair) => judge_and_write(alloc, &pair.network, &pair.text, ask.out.as_str(), desk),
        Err(status) => status,
    }
}

/// Judges a certificate, and writes it where it is good, or says its first line that fails.
fn judge_and_write<D: Desk>(
    alloc: Global,
    network: &Network,
    text: &[u8],
    out: &str,
    desk: &mut D,
) -> Status
    requires { IsIdle (D.outside desk.old).calls }
    ensures { Upgrades network.now text.now out.now (D.outside desk.old) (D.outside desk.new) result }
{
    network.law_limits();
    match check(alloc, network, text) {
        Ok(Check::Verified { .. }) => write_upgraded(text, out, desk),
        Ok(Check::Refused { kind, line }) => {
            ending(
                cfn_report::write_refused(kind, line, desk),
                Status::Disproved,
            )
        }
        Err(AllocError) => ending(cfn_report::write_memory_fault(desk), Status::NoMemory),
    }
}

/// Writes a certificate in the second version into a new file, by its text.
fn write_upgraded<D: Desk>(text: &[u8], out: &str, desk: &mut D) -> Status
    requires { IsIdle (D.outside desk.old).calls }
    ensures { Rewrites (upgraded text.now) out.now (D.outside desk.old) (D.outside desk.new) result }
{
    if desk.open_out(out).is_err() {
        return ending(cfn_report::write_write_fault(desk), Status::Fault);
    }
    put_upgraded(text, desk)
}

/// Writes a certificate in the second version, by its text, into the file that was opened, and then says so. It takes no
/// memory.
fn put_upgraded<D: Desk>(text: &[u8], desk: &mut D) -> Status
    requires { IsWriting (D.outside desk.old).calls }
    ensures { Outputs (upgraded text.now) migrated_text Done (D.outside desk.old) (D.outside desk.new) result }
{
    if save_upgraded(text, desk).is_err() {
        return ending(cfn_report::write_write_fault(desk), Status::Fault);
    }
    ending(cfn_report::write_migrated(desk), Status::Done)
}

/// Writes a certificate in the second version, by its text, as `save` does.
fn save_upgraded<D: Desk>(text: &[u8], desk: &mut D) -> Result<(), Failed>
    requires { IsWriting (D.outside desk.old).calls }
    ensures wrote { OnOk result (Wrote (upgraded text.now) (D.outside desk.old) (D.outside desk.new)) }
    ensures not_written { OnErr result (NotWritten (upgraded text.now) (D.outside desk.old) (D.outside desk.new)) }
{
    if cfn_certwrite::upgrade(text, desk).is_err() {
        desk.discard_out();
        return Err(Failed);
    }
    desk.close_out()
}
