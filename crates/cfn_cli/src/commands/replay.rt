//! The command `replay`.

ghost use Rattle.std.specs.Prelude.{◌≡◌, false, Some, None, IfErr, IfOk};
ghost use Rattle.clap.specs.Words.{found_of, rows_of, rule_of};
ghost use Rattle.cfn_cli.specs.Building.{Builds};
ghost use Rattle.cfn_cli.specs.Request.Replaying.{recording_rule, replay_app, replay_in, replay_of, spoken_replay};

use crate::arguments::{certificate, file, wcnf, with};
use crate::fault::CliFault;
use crate::format::Format;
use crate::found::{format, text};
use clap::{Arg, ArgMatches, Command};
use std::alloc::{AllocError, Global};

/// A record of a search, the file that it is for, and where the certificate goes that it comes to. The three names differ.
#[derive(Drop)]
pub struct ReplayArguments {
    /// The name of the file that the network is read from.
    pub file: String,
    /// The name of the file that the record is read from.
    pub recording: String,
    /// The name of the file that the certificate is written to.
    pub certificate: String,
    /// The format of the network's file: wcnf exactly where the words say so.
    pub format: Format,
}

pub(crate) fn line<'a>(alloc: Global) -> Result<Command<'a>, AllocError>
    ensures { IfOk result (Builds replay_app) }
{
    let line = Ok(Command::new(alloc, "replay"));
    let line = with(line, file(alloc));
    let line = with(line, recording(alloc));
    let line = with(line, certificate(alloc));
    with(line, wcnf(alloc))
}

/// REC
#[tactic(auto, unfolding(crate::specs::Request::Replaying::recording_rule))]
fn recording<'a>(alloc: Global) -> Arg<'a>
    ensures rule { rule_of result ≡ recording_rule }
    ensures local { result.global ≡ false }
{
    Arg::new(alloc, "recording").required(true)
}

/// What is asked of `replay`, whose three names differ.
pub(crate) fn read(alloc: Global, found: &ArgMatches<'_>) -> Result<ReplayArguments, CliFault>
    ensures arguments { IfOk result (λ r. replay_of (rows_of (found_of found.now)) ≡ Some (spoken_replay r)) }
    ensures usage { IfErr result (λ fault. fault ≡ CliFault.Usage
        → replay_of (rows_of (found_of found.now)) ≡ None) }
{
    let ask = arguments(alloc, found)?;
    if ask.file.as_str() == ask.recording.as_str()
        || ask.file.as_str() == ask.certificate.as_str()
        || ask.recording.as_str() == ask.certificate.as_str()
    {
        return Err(CliFault::Usage);
    }
    Ok(ask)
}

/// What the arguments of `replay` say.
fn arguments(alloc: Global, found: &ArgMatches<'_>) -> Result<ReplayArguments, CliFault>
    ensures arguments { IfOk result (λ r. replay_in (rows_of (found_of found.now)) ≡ Some (spoken_replay r)) }
    ensures usage { IfErr result (λ fault. fault ≡ CliFault.Usage
        → replay_in (rows_of (found_of found.now)) ≡ None) }
{
    let file = text(found, "file")?;
    let recording = text(found, "recording")?;
    let certificate = text(found, "certificate")?;
    Ok(ReplayArguments {
        file: String::from_str(alloc, file)?,
        recording: String::from_str(alloc, recording)?,
        certificate: String::from_str(alloc, certificate)?,
        format: format(found),
    })
}
