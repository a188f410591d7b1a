//! The command `replay`.

ghost use Rattle.std.specs.Prelude.{OnErr, OnOk};
ghost use Rattle.cfn_desk.specs.Outside.{IsIdle, IsWriting};
ghost use Rattle.cfn_certwrite.specs.RecordTexts.{replayed_text};
ghost use Rattle.cfn_cli.specs.Request.Replaying.{spoken_replay};
ghost use Rattle.cfn_app.specs.declared.status.Status.TheVariants.{Done};
ghost use Rattle.cfn_app.specs.Endings.{NotWritten, Outputs, Wrote};
ghost use Rattle.cfn_app.specs.Runs.Replaying.{Replays, RunsAgain, WritesAgain};

use crate::loading::load_pair;
use crate::status::{Status, ending};
use cfn_cli::commands::ReplayArguments;
use cfn_desk::{Desk, Failed};
use cfn_line::{Channel, send};
use cfn_net::Network;
use cfn_replay::{Replay, replay};
use std::alloc::Global;

/// Loads the file and the record that are asked for, reads the file, runs the record again, and writes the certificate that it comes
/// to. The first fault decides, and nothing is written where there is one.
pub fn replay_file<D: Desk>(alloc: Global, ask: &ReplayArguments, desk: &mut D) -> Status
    requires idle { IsIdle (D.outside desk.old).calls }
    ensures { Replays (spoken_replay ask.now) (D.outside desk.old) (D.outside desk.new) result }
{
    match load_pair(
        alloc,
        ask.format,
        ask.file.as_str(),
        ask.recording.as_str(),
        desk,
    ) {
        Ok(pair) => run_again(
            alloc,
            &pair.network,
            &pair.text,
            ask.certificate.as_str(),
            desk,
        ),
        Err(status) => status,
    }
}

/// Runs a record again, and writes the certificate that it comes to into a new file; or says its first line that fails.
fn run_again<D: Desk>(
    alloc: Global,
    network: &Network,
    text: &[u8],
    out: &str,
    desk: &mut D,
) -> Status
    requires idle { IsIdle (D.outside desk.old).calls }
    ensures { RunsAgain network.now text.now out.now (D.outside desk.old) (D.outside desk.new) result }
{
    network.law_limits();
    match replay(alloc, network, text) {
        Replay::Certificate(bytes) => write_again(&bytes, out, desk),
        Replay::Refused { kind, line } => ending(
            cfn_certwrite::write_record_refused(kind, line, desk),
            Status::Disproved,
        ),
        Replay::Memory => ending(cfn_report::write_memory_fault(desk), Status::NoMemory),
    }
}

/// Writes the text of the certificate that a record comes to into a new file.
fn write_again<D: Desk>(text: &[u8], out: &str, desk: &mut D) -> Status
    requires { IsIdle (D.outside desk.old).calls }
    ensures { WritesAgain text.now out.now (D.outside desk.old) (D.outside desk.new) result }
{
    if desk.open_out(out).is_err() {
        return ending(cfn_report::write_write_fault(desk), Status::Fault);
    }
    put_again(text, desk)
}

/// Writes the text of a certificate into the file that was opened, and then says that a record was replayed. It takes no memory.
fn put_again<D: Desk>(text: &[u8], desk: &mut D) -> Status
    requires { IsWriting (D.outside desk.old).calls }
    ensures { Outputs text.now replayed_text Done (D.outside desk.old) (D.outside desk.new) result }
{
    if save_text(text, desk).is_err() {
        return ending(cfn_report::write_write_fault(desk), Status::Fault);
    }
    ending(cfn_certwrite::write_replayed(desk), Status::Done)
}

/// Writes a text into the file that was opened, by one call, and closes the file. It takes no memory. After an `Err` no file is being
/// written: where a piece failed it was dropped.
fn save_text<D: Desk>(text: &[u8], desk: &mut D) -> Result<(), Failed>
    requires { IsWriting (D.outside desk.old).calls }
    ensures wrote { OnOk result (Wrote text.now (D.outside desk.old) (D.outside desk.new)) }
    ensures not_written { OnErr result (NotWritten text.now (D.outside desk.old) (D.outside desk.new)) }
{
    if send(Channel::File, text, desk).is_err() {
        desk.discard_out();
        return Err(Failed);
    }
    desk.close_out()
}
