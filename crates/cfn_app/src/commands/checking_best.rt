//! The command `checkbest`.

ghost use Rattle.std.specs.Prelude.{◌≡◌, ◌&&◌, not};
ghost use Rattle.cfn_cli.specs.Request.CheckingBest.{spoken_check_best};
ghost use Rattle.cfn_app.specs.Runs.CheckingBest.{ChecksBest, JudgesBest, SaysGood};

use crate::loading::load_pair;
use crate::status::{Status, ending};
use cfn_best::laws::law_good_lists;
use cfn_bestcheck::{BestCheck, check_best};
use cfn_cli::commands::CheckBestArguments;
use cfn_desk::Desk;
use cfn_net::Network;
use std::alloc::{AllocError, Global};

/// Loads both files that are asked for, reads the network, judges the list of the cheapest assignments and says whether it is
/// good, and where it is asked whether it is complete, or the first fault.
pub fn check_best_file<D: Desk>(alloc: Global, ask: &CheckBestArguments, desk: &mut D) -> Status
    ensures ends { ChecksBest (spoken_check_best ask.now) (D.outside desk.old) (D.outside desk.new).calls result }
    ensures files { (D.outside desk.new).files ≡ (D.outside desk.old).files }
{
    match load_pair(
        alloc,
        ask.format,
        ask.file.as_str(),
        ask.certificate.as_str(),
        desk,
    ) {
        Ok(pair) => judge(alloc, ask.complete, &pair.network, &pair.text, desk),
        Err(status) => status,
    }
}

/// Judges a list of the cheapest assignments, and says its lower bound and how many it has, or its first line that fails.
/// Where `asked`, it also says whether a good list is complete.
fn judge<D: Desk>(
    alloc: Global,
    asked: bool,
    network: &Network,
    text: &[u8],
    desk: &mut D,
) -> Status
    ensures ends { JudgesBest asked network.now text.now (D.outside desk.old).calls (D.outside desk.new).calls result }
    ensures files { (D.outside desk.new).files ≡ (D.outside desk.old).files }
{
    network.law_limits();
    law_good_lists();
    match check_best(alloc, network, text) {
        Ok(
            BestCheck::Verified {
                lower,
                count,
                complete,
            },
        ) => say_good(is_left_open(asked, complete), lower, count, desk),
        Ok(BestCheck::Refused { kind, line }) => {
            ending(
                cfn_certwrite::write_list_refused(kind, line, desk),
                Status::Disproved,
            )
        }
        Err(AllocError) => ending(cfn_report::write_memory_fault(desk), Status::NoMemory),
    }
}

/// Whether it has to be said of a good list that it is not complete: that is asked, and it is not.
fn is_left_open(asked: bool, complete: bool) -> bool
    ensures { result ≡ (asked && not complete) }
{
    asked && !complete
}

/// Says that a list is good, with its lower bound and how many assignments it has, and where it is left open, that too.
fn say_good<D: Desk>(left_open: bool, lower: u64, count: u64, desk: &mut D) -> Status
    ensures ends { SaysGood left_open lower count (D.outside desk.old).calls (D.outside desk.new).calls result }
    ensures files { (D.outside desk.new).files ≡ (D.outside desk.old).files }
{
    if left_open {
        ending(
            cfn_certwrite::write_list_open(lower, count, desk),
            Status::LimitSpent,
        )
    } else {
        ending(
            cfn_certwrite::write_list_verified(lower, count, desk),
            Status::Done,
        )
    }
}
