//! A whole run, from the words of the command line to the status.

ghost use Rattle.std.specs.Prelude.{◌≡◌, map};
ghost use Rattle.cfn_desk.specs.Outside.{IsIdle};
ghost use Rattle.cfn_cli.specs.Request.{request_of};
ghost use Rattle.cfn_app.specs.Runs.{Returns, Runs, Statuses};

use crate::commands::do_command;
use crate::status::{Status, ending};
use cfn_cli::CliFault;
use cfn_desk::Desk;
use cfn_solve::Gate;
use std::alloc::Global;
use std::sync::Wait;
use std::thread::Threads;
use std::time::Clock;

/// Does all that the program does, and answers the status that it ends with.
///
/// `words` begins with the program's name. `rt` is the runtime, in whose threads workers search, and `gate` is what these
/// pass, and what is told how far a search is. Such bounds hold, and the gate is told of nothing else (`cfn_explore`). `clock` tells
/// when a limit of time is past, which counts from the call on.
pub fn run<R: Threads + Wait + Sync, D: Desk, G: Gate + Sync, C: Clock + Sync>(
    rt: &R,
    alloc: Global,
    words: &[&str],
    desk: &mut D,
    gate: &G,
    clock: &C,
) -> Status
    requires { IsIdle (D.outside desk.old).calls }
    // How the run may end, in full.
    ensures runs { Runs (request_of (map (λ w. w.now) words.now))
        (D.outside desk.old) (D.outside desk.new) result }
    // What each status says, and which one comes.
    ensures statuses { Statuses (request_of (map (λ w. w.now) words.now))
        (D.outside desk.old) (D.outside desk.new) result }
    // A recorded run's certificate comes again from its record.
    ensures again { Returns (request_of (map (λ w. w.now) words.now))
        (D.outside desk.old) (D.outside desk.new) result }
{
    end_of(rt, alloc, words, desk, gate, clock)
}

/// Does what the words ask for.
fn end_of<R: Threads + Wait + Sync, D: Desk, G: Gate + Sync, C: Clock + Sync>(
    rt: &R,
    alloc: Global,
    words: &[&str],
    desk: &mut D,
    gate: &G,
    clock: &C,
) -> Status
    requires { IsIdle (D.outside desk.old).calls }
    ensures { Runs (request_of (map (λ w. w.now) words.now))
        (D.outside desk.old) (D.outside desk.new) result }
{
    match cfn_cli::parse(alloc, words) {
        Ok(command) => do_command(rt, alloc, &command, desk, gate, clock),
        Err(CliFault::Usage) => ending(cfn_report::write_usage(desk), Status::Usage),
        Err(CliFault::Memory) => ending(cfn_report::write_memory_fault(desk), Status::NoMemory),
    }
}
