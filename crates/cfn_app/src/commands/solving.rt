//! The command `solve`.

ghost use Rattle.std.specs.Prelude.{◌≡◌, ◌≤◌, is_some};
ghost use Rattle.cfn_model.specs.declared.limits.TheConstants.{GREATEST};
ghost use Rattle.cfn_desk.specs.Outside.{IsIdle};
ghost use Rattle.cfn_cli.specs.Request.Solving.{spoken_solve};
ghost use Rattle.cfn_low.specs.Outcome.{fresh};
ghost use Rattle.cfn_search.specs.Beginning.{MayBegin, start_of};
ghost use Rattle.cfn_app.specs.Runs.Solving.{Searches, Solves};

use crate::loading::{load_bytes, read_bytes};
use crate::output::put_out;
use crate::searching::search;
use crate::status::{Status, ending};
use cfn_cli::commands::SolveArguments;
use cfn_desk::Desk;
use cfn_explore::Deadline;
use cfn_net::Network;
use cfn_solve::{Begin, Gate, Halt};
use std::alloc::{AllocError, Global};
use std::sync::Wait;
use std::thread::Threads;
use std::time::Clock;

/// Loads and reads the file that is asked for, opens the certificate's file, searches, writes the certificate and says
/// the report. The first fault decides; where there is no certificate the file is dropped. A limit of time counts from here on, by
/// `clock`.
pub fn solve_file<R: Threads + Wait + Sync, D: Desk, G: Gate + Sync, C: Clock + Sync>(
    rt: &R,
    alloc: Global,
    ask: &SolveArguments,
    desk: &mut D,
    gate: &G,
    clock: &C,
) -> Status
    requires idle { IsIdle (D.outside desk.old).calls }
    requires some { 1 ≤ ask.now.workers }
    requires few { ask.now.workers ≤ 64 }
    requires budget { ask.now.budget ≤ GREATEST }
    ensures { Solves (spoken_solve ask.now) (D.outside desk.old) (D.outside desk.new) result }
{
    let deadline = Deadline::after(clock, ask.seconds);
    let bytes = match load_bytes(alloc, ask.file.as_str(), desk) {
        Ok(bytes) => bytes,
        Err(status) => return status,
    };
    match read_bytes(alloc, ask.format, &bytes, desk) {
        Ok(network) => begin_and_search(rt, alloc, &network, ask, desk, gate, &deadline),
        Err(status) => status,
    }
}

/// Searches a network from one open leaf, as is asked.
fn begin_and_search<R: Threads + Wait + Sync, D: Desk, G: Gate + Sync, H: Halt + Sync>(
    rt: &R,
    alloc: Global,
    network: &Network,
    ask: &SolveArguments,
    desk: &mut D,
    gate: &G,
    halt: &H,
) -> Status
    requires idle { IsIdle (D.outside desk.old).calls }
    requires some { 1 ≤ ask.now.workers }
    requires few { ask.now.workers ≤ 64 }
    requires budget { ask.now.budget ≤ GREATEST }
    requires halt { H.limited halt.now ≡ is_some ask.now.seconds }
    ensures { Searches network.now (fresh network.now) (spoken_solve ask.now) (D.outside desk.old) (D.outside desk.new) result }
{
    match Begin::fresh(alloc, network, false) {
        Ok(begin) => open_and_search(rt, alloc, network, begin, ask, desk, gate, halt),
        Err(AllocError) => ending(cfn_report::write_memory_fault(desk), Status::NoMemory),
    }
}

/// Opens the certificate's file, and goes on from a beginning as is asked. A file that can't be written costs no search.
pub(crate) fn open_and_search<R: Threads + Wait + Sync, D: Desk, G: Gate + Sync, H: Halt + Sync>(
    rt: &R,
    alloc: Global,
    network: &Network,
    begin: Begin,
    ask: &SolveArguments,
    desk: &mut D,
    gate: &G,
    halt: &H,
) -> Status
    requires idle { IsIdle (D.outside desk.old).calls }
    requires some { 1 ≤ ask.now.workers }
    requires few { ask.now.workers ≤ 64 }
    requires budget { ask.now.budget ≤ GREATEST }
    requires halt { H.limited halt.now ≡ is_some ask.now.seconds }
    requires may { MayBegin network.now begin }
    ensures { Searches network.now (start_of network.now begin) (spoken_solve ask.now) (D.outside desk.old) (D.outside desk.new) result }
{
    if desk.open_out(ask.certificate.as_str()).is_err() {
        return ending(cfn_report::write_write_fault(desk), Status::Fault);
    }
    network.law_limits();
    let workers = u32::from(ask.workers);
    match search(
        rt,
        alloc,
        network,
        begin,
        workers,
        ask.budget,
        ask.progress,
        gate,
        halt,
    ) {
        Ok(found) => put_out(&found, workers, desk),
        Err(AllocError) => {
            desk.discard_out();
            ending(cfn_report::write_memory_fault(desk), Status::NoMemory)
        }
    }
}
