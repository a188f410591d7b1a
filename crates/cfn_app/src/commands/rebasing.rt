//! The command `rebase`.

ghost use Rattle.std.specs.Prelude.{◌≡◌, ◌≤◌, is_some, IfSome};
ghost use Rattle.cfn_model.specs.declared.limits.TheConstants.{GREATEST};
ghost use Rattle.cfn_desk.specs.Outside.{IsIdle};
ghost use Rattle.cfn_cli.specs.Request.Rebasing.{spoken_rebase};
ghost use Rattle.cfn_app.specs.Runs.Rebasing.{GoesOn, Rebases, part_of};
ghost use Rattle.cfn_machine.specs.Parts.{IsPart};

use crate::commands::solving::open_and_search;
use crate::loading::load_pair;
use crate::status::{Status, ending};
use cfn_cli::commands::RebaseArguments;
use cfn_desk::Desk;
use cfn_explore::Deadline;
use cfn_fault::FaultKind;
use cfn_machine::Part;
use cfn_net::Network;
use cfn_rebase::{Resumed, resume};
use cfn_solve::{Gate, Halt};
use std::alloc::{AllocError, Global};
use std::sync::Wait;
use std::thread::Threads;
use std::time::Clock;

/// Loads the file and the old certificate that are asked for, reads both, and goes on from what is kept of the certificate, as
/// `solve` does. The first fault decides. A limit of time counts from here on, by `clock`.
pub fn rebase_file<R: Threads + Wait + Sync, D: Desk, G: Gate + Sync, C: Clock + Sync>(
    rt: &R,
    alloc: Global,
    ask: &RebaseArguments,
    desk: &mut D,
    gate: &G,
    clock: &C,
) -> Status
    requires idle { IsIdle (D.outside desk.old).calls }
    requires some { 1 ≤ ask.now.solve.workers }
    requires few { ask.now.solve.workers ≤ 64 }
    requires budget { ask.now.solve.budget ≤ GREATEST }
    requires first { 1 ≤ ask.now.part }
    requires last { ask.now.part ≤ ask.now.parts }
    ensures { Rebases (spoken_rebase ask.now) (D.outside desk.old) (D.outside desk.new) result }
{
    let solve = &ask.solve;
    let deadline = Deadline::after(clock, solve.seconds);
    match load_pair(
        alloc,
        solve.format,
        solve.file.as_str(),
        ask.old.as_str(),
        desk,
    ) {
        Ok(pair) => go_on(
            rt,
            alloc,
            &pair.network,
            &pair.text,
            ask,
            desk,
            gate,
            &deadline,
        ),
        Err(status) => status,
    }
}

/// Goes on from what is kept of a certificate's text, or says its first line that is none of a certificate.
fn go_on<R: Threads + Wait + Sync, D: Desk, G: Gate + Sync, H: Halt + Sync>(
    rt: &R,
    alloc: Global,
    network: &Network,
    text: &[u8],
    ask: &RebaseArguments,
    desk: &mut D,
    gate: &G,
    halt: &H,
) -> Status
    requires idle { IsIdle (D.outside desk.old).calls }
    requires some { 1 ≤ ask.now.solve.workers }
    requires few { ask.now.solve.workers ≤ 64 }
    requires budget { ask.now.solve.budget ≤ GREATEST }
    requires first { 1 ≤ ask.now.part }
    requires last { ask.now.part ≤ ask.now.parts }
    requires halt { H.limited halt.now ≡ is_some ask.now.solve.seconds }
    ensures { GoesOn network.now text.now (spoken_rebase ask.now) (D.outside desk.old) (D.outside desk.new) result }
{
    match resume(alloc, network, text, part_of(ask)) {
        Ok(Resumed::Goes(begin)) => {
            open_and_search(rt, alloc, network, begin, &ask.solve, desk, gate, halt)
        }
        Ok(Resumed::Refused { line }) => ending(
            cfn_report::write_refused(FaultKind::Text, line, desk),
            Status::Disproved,
        ),
        Err(AllocError) => ending(cfn_report::write_memory_fault(desk), Status::NoMemory),
    }
}

/// The part of the open leaves that is worked on, where it is not all.
fn part_of(ask: &RebaseArguments) -> Option<Part>
    requires first { 1 ≤ ask.now.part }
    requires last { ask.now.part ≤ ask.now.parts }
    ensures part { result ≡ part_of (spoken_rebase ask.now) }
    ensures is { IfSome result IsPart }
{
    if ask.parts == 1 {
        return None;
    }
    Some(Part {
        number: ask.part - 1,
        parts: ask.parts,
    })
}
