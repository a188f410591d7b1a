//! The command `kbest`.

ghost use Rattle.std.specs.Prelude.{◌≡◌, ◌≤◌, is_some, IfOk, OnOk, OnErr};
ghost use Rattle.cfn_model.specs.declared.limits.TheConstants.{GREATEST};
ghost use Rattle.cfn_ranking.specs.Certificates.{list_certificate_of, spelling};
ghost use Rattle.cfn_certwrite.specs.ListTexts.{list_report};
ghost use Rattle.cfn_desk.specs.Outside.{IsIdle, IsWriting};
ghost use Rattle.cfn_cli.specs.Request.Listing.{spoken_k_best};
ghost use Rattle.cfn_app.specs.Endings.{NotWritten, Outputs, Wrote};
ghost use Rattle.cfn_app.specs.Runs.Listing.{Lists, ListsBest, PromisesList, list_status};

use crate::loading::{load_bytes, read_bytes};
use crate::status::{Status, ending};
use cfn_best::laws::law_good_lists;
use cfn_cli::commands::KBestArguments;
use cfn_desk::{Desk, Failed};
use cfn_explore::{Deadline, Halt};
use cfn_kbest::{Best, Limits, kbest};
use cfn_net::Network;
use cfn_ranking::{BestCertificate, ListWord};
use std::alloc::{AllocError, Global};
use std::time::Clock;

/// Loads and reads the file that is asked for, opens the certificate's file, searches for the cheapest assignments, writes the list
/// and says the report. The first fault decides; where there is no list the file is dropped. A limit of time counts from here on,
/// by `clock`.
pub fn list_file<D: Desk, C: Clock>(
    alloc: Global,
    ask: &KBestArguments,
    desk: &mut D,
    clock: &C,
) -> Status
    requires idle { IsIdle (D.outside desk.old).calls }
    requires some { 1 ≤ ask.now.count }
    requires few { ask.now.count ≤ 1000 }
    requires budget { ask.now.budget ≤ GREATEST }
    ensures { ListsBest (spoken_k_best ask.now) (D.outside desk.old) (D.outside desk.new) result }
{
    let deadline = Deadline::after(clock, ask.seconds);
    let bytes = match load_bytes(alloc, ask.file.as_str(), desk) {
        Ok(bytes) => bytes,
        Err(status) => return status,
    };
    match read_bytes(alloc, ask.format, &bytes, desk) {
        Ok(network) => open_and_list(alloc, &network, ask, desk, &deadline),
        Err(status) => status,
    }
}

/// Opens the certificate's file, and lists the cheapest assignments as is asked. A file that can't be written costs no search.
fn open_and_list<D: Desk, H: Halt>(
    alloc: Global,
    network: &Network,
    ask: &KBestArguments,
    desk: &mut D,
    halt: &H,
) -> Status
    requires idle { IsIdle (D.outside desk.old).calls }
    requires some { 1 ≤ ask.now.count }
    requires few { ask.now.count ≤ 1000 }
    requires budget { ask.now.budget ≤ GREATEST }
    requires halt { H.limited halt.now ≡ is_some ask.now.seconds }
    ensures { Lists network.now (spoken_k_best ask.now) (D.outside desk.old) (D.outside desk.new) result }
{
    if desk.open_out(ask.certificate.as_str()).is_err() {
        return ending(cfn_report::write_write_fault(desk), Status::Fault);
    }
    match list_best(alloc, network, ask, halt) {
        Ok(best) => put_list(&best, desk),
        Err(AllocError) => {
            desk.discard_out();
            ending(cfn_report::write_memory_fault(desk), Status::NoMemory)
        }
    }
}

/// The cheapest assignments of a network, as many as are asked for, as far as the limits go. An `Err` is want of memory before
/// there is anything to report.
fn list_best<H: Halt>(
    alloc: Global,
    network: &Network,
    ask: &KBestArguments,
    halt: &H,
) -> Result<Best, AllocError>
    requires some { 1 ≤ ask.now.count }
    requires few { ask.now.count ≤ 1000 }
    requires budget { ask.now.budget ≤ GREATEST }
    requires halt { H.limited halt.now ≡ is_some ask.now.seconds }
    ensures { IfOk result (λ best. PromisesList network.now (spoken_k_best ask.now) best.spent (list_certificate_of best.certificate) best.word) }
{
    network.law_limits();
    law_good_lists();
    let limits = Limits {
        count: usize::from(ask.count),
        budget: ask.budget,
    };
    let best = kbest(alloc, network, limits, halt)?;
    best.certificate.law_spelled();
    Ok(best)
}

/// Writes a list into the file that was opened, and then says its report. It takes no memory. The status is the result's, or
/// that of a fault.
fn put_list<D: Desk>(best: &Best, desk: &mut D) -> Status
    requires { IsWriting (D.outside desk.old).calls }
    ensures { Outputs (spelling (list_certificate_of best.now.certificate))
        (list_report (list_certificate_of best.now.certificate) best.now.word)
        (list_status best.now.word (list_certificate_of best.now.certificate).list)
        (D.outside desk.old) (D.outside desk.new) result }
{
    if save_list(&best.certificate, desk).is_err() {
        return ending(cfn_report::write_write_fault(desk), Status::Fault);
    }
    let due = status(&best.certificate, best.word);
    ending(
        cfn_certwrite::write_list_report(&best.certificate, best.word, desk),
        due,
    )
}

/// Writes a list into the file that was opened, and closes it. It takes no memory. After an `Err` no file is being written: where a
/// piece failed it was dropped.
fn save_list<D: Desk>(certificate: &BestCertificate, desk: &mut D) -> Result<(), Failed>
    requires { IsWriting (D.outside desk.old).calls }
    ensures wrote { OnOk result (Wrote (spelling (list_certificate_of certificate.now))
        (D.outside desk.old) (D.outside desk.new)) }
    ensures not_written { OnErr result (NotWritten (spelling (list_certificate_of certificate.now))
        (D.outside desk.old) (D.outside desk.new)) }
{
    if cfn_certwrite::write_best(certificate, desk).is_err() {
        desk.discard_out();
        return Err(Failed);
    }
    desk.close_out()
}

/// The status that stands for how a search ended.
fn status(certificate: &BestCertificate, word: ListWord) -> Status
    ensures { result ≡ list_status word (list_certificate_of certificate.now).list }
{
    match word {
        ListWord::Complete if certificate.list.is_empty() => Status::Nothing,
        ListWord::Complete => Status::Done,
        ListWord::Budget | ListWord::Time => Status::LimitSpent,
        ListWord::Memory => Status::NoMemory,
    }
}
