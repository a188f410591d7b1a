//! The command `check`.

ghost use Rattle.std.specs.Prelude.{◌≡◌};
ghost use Rattle.cfn_cli.specs.Request.Checking.{spoken_check};
ghost use Rattle.cfn_app.specs.Runs.Checking.{Checks, Judges};

use crate::loading::load_pair;
use crate::status::{Status, ending};
use cfn_check::{Check, check};
use cfn_cli::commands::CheckArguments;
use cfn_desk::Desk;
use cfn_net::Network;
use std::alloc::{AllocError, Global};

/// Loads both files that are asked for, reads the network, judges the certificate and says whether it is good, or the
/// first fault.
pub fn check_file<D: Desk>(alloc: Global, ask: &CheckArguments, desk: &mut D) -> Status
    ensures ends { Checks (spoken_check ask.now) (D.outside desk.old) (D.outside desk.new).calls result }
    ensures files { (D.outside desk.new).files ≡ (D.outside desk.old).files }
{
    match load_pair(
        alloc,
        ask.format,
        ask.file.as_str(),
        ask.certificate.as_str(),
        desk,
    ) {
        Ok(pair) => judge(alloc, &pair.network, &pair.text, desk),
        Err(status) => status,
    }
}

/// Judges a certificate, and says its bounds or its first line that fails.
fn judge<D: Desk>(alloc: Global, network: &Network, text: &[u8], desk: &mut D) -> Status
    ensures ends { Judges network.now text.now (D.outside desk.old).calls (D.outside desk.new).calls result }
    ensures files { (D.outside desk.new).files ≡ (D.outside desk.old).files }
{
    network.law_limits();
    match check(alloc, network, text) {
        Ok(Check::Verified { lower, best }) => {
            ending(cfn_report::write_verified(lower, best, desk), Status::Done)
        }
        Ok(Check::Refused { kind, line }) => {
            ending(
                cfn_report::write_refused(kind, line, desk),
                Status::Disproved,
            )
        }
        Err(AllocError) => ending(cfn_report::write_memory_fault(desk), Status::NoMemory),
    }
}
