//! The command `solve` with a record of its search.

ghost use Rattle.std.specs.Prelude.{◌≡◌, false, Some, None, IfErr, IfOk};
ghost use Rattle.clap.specs.Words.{rule_of};
ghost use Rattle.cfn_cli.specs.Request.Recording.{asked_under, recorded_apart, spoken_recorded};
ghost use Rattle.cfn_cli.specs.Request.Solving.{record_rule};

use crate::commands::SolveArguments;
use crate::fault::CliFault;
use clap::Arg;
use std::alloc::Global;

/// What to solve, and where the record of the search goes.
#[derive(Drop)]
pub struct RecordedArguments {
    /// The name of the file that the record is written to. It is neither the network's file nor the certificate's.
    pub recording: String,
    /// All else, as with `solve`.
    pub solve: SolveArguments,
}

/// `[--record REC]`
#[tactic(auto, unfolding(crate::specs::Request::Solving::record_rule))]
pub(super) fn record_option<'a>(alloc: Global) -> Arg<'a>
    ensures rule { rule_of result ≡ record_rule }
    ensures local { result.global ≡ false }
{
    Arg::new(alloc, "record").long("record")
}

/// What is asked of `solve` with a record under that name, which is another one than those of its file and its certificate.
pub(super) fn recorded(
    alloc: Global,
    recording: &str,
    solve: SolveArguments,
) -> Result<RecordedArguments, CliFault>
    ensures arguments { IfOk result (λ r.
        recorded_apart (asked_under recording.now solve) ≡ Some (spoken_recorded r)) }
    ensures usage { IfErr result (λ fault. fault ≡ CliFault.Usage
        → recorded_apart (asked_under recording.now solve) ≡ None) }
    ensures same { IfOk result (λ r. r.solve ≡ solve) }
{
    if solve.file.as_str() == recording || solve.certificate.as_str() == recording {
        return Err(CliFault::Usage);
    }
    Ok(RecordedArguments {
        recording: String::from_str(alloc, recording)?,
        solve,
    })
}
