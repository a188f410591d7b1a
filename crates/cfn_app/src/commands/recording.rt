//! The command `solve` where it is recorded.

ghost use Rattle.std.specs.Prelude.{◌≡◌, ◌≤◌, true, All, length, is_some, OnOk, OnErr};
ghost use Rattle.cfn_model.specs.Certificate.{threshold};
ghost use Rattle.cfn_model.specs.Text.{IsSpelledBest, report, spelling};
ghost use Rattle.cfn_model.specs.declared.limits.TheConstants.{GREATEST};
ghost use Rattle.cfn_desk.specs.Outside.{IsIdle, IsWriting};
ghost use Rattle.cfn_low.specs.Outcome.{fresh};
ghost use Rattle.cfn_proof.specs.Certificates.{certificate_of, solution_of};
ghost use Rattle.cfn_certwrite.specs.Records as records;
ghost use Rattle.cfn_search.specs.Beginning.{MayBegin, start_of};
ghost use Rattle.cfn_cli.specs.Request.Recording.{spoken_recorded};
ghost use Rattle.cfn_app.specs.Endings.{NotWritten, Wrote};
ghost use Rattle.cfn_app.specs.Runs.Recording.{OutputsBoth, PutsRecord, Records, SearchesRecorded};
ghost use Rattle.cfn_app.specs.Runs.Solving.{status_of, word_of};

use crate::loading::{load_bytes, read_bytes};
use crate::output::{save, say_report};
use crate::searching::search;
use crate::status::{Status, ending};
use cfn_cli::commands::RecordedArguments;
use cfn_desk::{Desk, Failed};
use cfn_explore::Deadline;
use cfn_net::Network;
use cfn_proof::Certificate;
use cfn_record::History;
use cfn_solve::{Begin, Gate, Halt, Teamwork};
use std::alloc::{AllocError, Global};
use std::sync::Wait;
use std::thread::Threads;
use std::time::Clock;

/// Loads and reads the file that is asked for, opens the certificate's file, searches, writes the certificate and then the record of
/// the search, and says the report. The first fault decides; where there is no certificate the file is dropped. A limit of time counts
/// from here on, by `clock`.
pub fn record_file<R: Threads + Wait + Sync, D: Desk, G: Gate + Sync, C: Clock + Sync>(
    rt: &R,
    alloc: Global,
    ask: &RecordedArguments,
    desk: &mut D,
    gate: &G,
    clock: &C,
) -> Status
    requires idle { IsIdle (D.outside desk.old).calls }
    requires some { 1 ≤ ask.now.solve.workers }
    requires few { ask.now.solve.workers ≤ 64 }
    requires budget { ask.now.solve.budget ≤ GREATEST }
    ensures { Records (spoken_recorded ask.now) (D.outside desk.old) (D.outside desk.new) result }
{
    let solve = &ask.solve;
    let deadline = Deadline::after(clock, solve.seconds);
    let bytes = match load_bytes(alloc, solve.file.as_str(), desk) {
        Ok(bytes) => bytes,
        Err(status) => return status,
    };
    match read_bytes(alloc, solve.format, &bytes, desk) {
        Ok(network) => begin_and_record(rt, alloc, &network, ask, desk, gate, &deadline),
        Err(status) => status,
    }
}

/// Searches a network from one open leaf, as is asked, and records it.
fn begin_and_record<R: Threads + Wait + Sync, D: Desk, G: Gate + Sync, H: Halt + Sync>(
    rt: &R,
    alloc: Global,
    network: &Network,
    ask: &RecordedArguments,
    desk: &mut D,
    gate: &G,
    halt: &H,
) -> Status
    requires idle { IsIdle (D.outside desk.old).calls }
    requires some { 1 ≤ ask.now.solve.workers }
    requires few { ask.now.solve.workers ≤ 64 }
    requires budget { ask.now.solve.budget ≤ GREATEST }
    requires halt { H.limited halt.now ≡ is_some ask.now.solve.seconds }
    ensures { SearchesRecorded network.now (spoken_recorded ask.now) (D.outside desk.old) (D.outside desk.new) result }
{
    match Begin::fresh(alloc, network, true) {
        Ok(begin) => open_and_record(rt, alloc, network, begin, ask, desk, gate, halt),
        Err(AllocError) => ending(cfn_report::write_memory_fault(desk), Status::NoMemory),
    }
}

/// Opens the certificate's file, and searches as is asked. A file that can't be written costs no search.
fn open_and_record<R: Threads + Wait + Sync, D: Desk, G: Gate + Sync, H: Halt + Sync>(
    rt: &R,
    alloc: Global,
    network: &Network,
    begin: Begin,
    ask: &RecordedArguments,
    desk: &mut D,
    gate: &G,
    halt: &H,
) -> Status
    requires idle { IsIdle (D.outside desk.old).calls }
    requires some { 1 ≤ ask.now.solve.workers }
    requires few { ask.now.solve.workers ≤ 64 }
    requires budget { ask.now.solve.budget ≤ GREATEST }
    requires halt { H.limited halt.now ≡ is_some ask.now.solve.seconds }
    requires may { MayBegin network.now begin }
    requires start { start_of network.now begin ≡ fresh network.now }
    requires recorded { begin.recorded ≡ true }
    ensures { SearchesRecorded network.now (spoken_recorded ask.now) (D.outside desk.old) (D.outside desk.new) result }
{
    let solve = &ask.solve;
    if desk.open_out(solve.certificate.as_str()).is_err() {
        return ending(cfn_report::write_write_fault(desk), Status::Fault);
    }
    network.law_limits();
    let workers = u32::from(solve.workers);
    match search(
        rt,
        alloc,
        network,
        begin,
        workers,
        solve.budget,
        solve.progress,
        gate,
        halt,
    ) {
        Ok(found) => match &found.history {
            Some(history) => {
                cfn_certwrite::law_spelled(history, &found.outcome.certificate);
                put_both(history, &found, workers, ask.recording.as_str(), desk)
            }
            None => unreachable!(),
        },
        Err(AllocError) => {
            desk.discard_out();
            ending(cfn_report::write_memory_fault(desk), Status::NoMemory)
        }
    }
}

/// Writes the certificate that a search found into the file that was opened, then its record into a file of that name, and then says
/// the report. It takes no memory.
fn put_both<D: Desk>(
    history: &History,
    found: &Teamwork,
    workers: u32,
    name: &str,
    desk: &mut D,
) -> Status
    requires workers { length found.now.thresholds.items ≡ workers }
    requires least { All (λ k. threshold (certificate_of found.now.outcome.certificate) ≤ k) found.now.thresholds.items }
    requires best { IsSpelledBest (solution_of found.now.outcome.certificate.best) }
    requires writing { IsWriting (D.outside desk.old).calls }
    ensures { OutputsBoth (spelling (certificate_of found.now.outcome.certificate)) name.now
        (records.spelling (records.recorded history.now found.now.outcome.certificate))
        (report workers (certificate_of found.now.outcome.certificate) found.now.outcome.rows.items found.now.outcome.nodes
        (word_of found.now.outcome.stop (solution_of found.now.outcome.certificate.best)))
        (status_of (word_of found.now.outcome.stop (solution_of found.now.outcome.certificate.best)))
        (D.outside desk.old) (D.outside desk.new) result }
{
    if save(&found.outcome.certificate, desk).is_err() {
        return ending(cfn_report::write_write_fault(desk), Status::Fault);
    }
    put_record(history, found, workers, name, desk)
}

/// Writes the record of a search into a file of that name, and then says the report. It takes no memory.
fn put_record<D: Desk>(
    history: &History,
    found: &Teamwork,
    workers: u32,
    name: &str,
    desk: &mut D,
) -> Status
    requires workers { length found.now.thresholds.items ≡ workers }
    requires least { All (λ k. threshold (certificate_of found.now.outcome.certificate) ≤ k) found.now.thresholds.items }
    requires best { IsSpelledBest (solution_of found.now.outcome.certificate.best) }
    requires idle { IsIdle (D.outside desk.old).calls }
    ensures { PutsRecord name.now (records.spelling (records.recorded history.now found.now.outcome.certificate))
        (report workers (certificate_of found.now.outcome.certificate) found.now.outcome.rows.items found.now.outcome.nodes
        (word_of found.now.outcome.stop (solution_of found.now.outcome.certificate.best)))
        (status_of (word_of found.now.outcome.stop (solution_of found.now.outcome.certificate.best)))
        (D.outside desk.old) (D.outside desk.new) result }
{
    if desk.open_out(name).is_err() {
        return ending(cfn_report::write_write_fault(desk), Status::Fault);
    }
    if save_record(history, &found.outcome.certificate, desk).is_err() {
        return ending(cfn_report::write_write_fault(desk), Status::Fault);
    }
    say_report(found, workers, desk)
}

/// Writes the record of a search into the file that was opened, and closes it. It takes no memory. After an `Err` no file is being
/// written: where a piece failed it was dropped.
fn save_record<D: Desk>(
    history: &History,
    certificate: &Certificate,
    desk: &mut D,
) -> Result<(), Failed>
    requires best { IsSpelledBest (solution_of certificate.now.best) }
    requires writing { IsWriting (D.outside desk.old).calls }
    ensures wrote { OnOk result (Wrote (records.spelling (records.recorded history.now certificate.now))
        (D.outside desk.old) (D.outside desk.new)) }
    ensures not_written { OnErr result (NotWritten (records.spelling (records.recorded history.now certificate.now))
        (D.outside desk.old) (D.outside desk.new)) }
{
    if cfn_certwrite::write_record(history, certificate, desk).is_err() {
        desk.discard_out();
        return Err(Failed);
    }
    desk.close_out()
}
