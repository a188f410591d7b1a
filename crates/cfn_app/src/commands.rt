//! The commands, each of which has a file of its own, and what is done for the one that the words ask for.

ghost use Rattle.cfn_desk.specs.Outside.{IsIdle};
ghost use Rattle.cfn_cli.specs.Request.{IsWithin, request};
ghost use Rattle.cfn_app.specs.Runs.{RunsOf};

mod checking;
mod checking_best;
mod costing;
mod listing;
mod merging;
mod migrating;
mod normalizing;
mod rebasing;
mod recording;
mod replaying;
mod solving;
mod trying;

use crate::status::Status;
use cfn_cli::Command;
use cfn_desk::Desk;
use cfn_solve::Gate;
use checking::check_file;
use checking_best::check_best_file;
use costing::cost_file;
use listing::list_file;
use merging::merge_files;
use migrating::migrate_file;
use normalizing::normalize_file;
use rebasing::rebase_file;
use recording::record_file;
use replaying::replay_file;
use solving::solve_file;
use std::alloc::Global;
use std::sync::Wait;
use std::thread::Threads;
use std::time::Clock;
use trying::try_drawn;

/// Does what a command asks.
pub(crate) fn do_command<R: Threads + Wait + Sync, D: Desk, G: Gate + Sync, C: Clock + Sync>(
    rt: &R,
    alloc: Global,
    command: &Command,
    desk: &mut D,
    gate: &G,
    clock: &C,
) -> Status
    requires idle { IsIdle (D.outside desk.old).calls }
    requires within { IsWithin command.now }
    ensures { RunsOf (request command.now) (D.outside desk.old) (D.outside desk.new) result }
{
    match command {
        Command::Solve(ask) => solve_file(rt, alloc, ask, desk, gate, clock),
        Command::Recorded(ask) => record_file(rt, alloc, ask, desk, gate, clock),
        Command::Check(ask) => check_file(alloc, ask, desk),
        Command::Cost(ask) => cost_file(alloc, ask, desk),
        Command::Normal(ask) => normalize_file(alloc, ask, desk),
        Command::Trial(ask) => try_drawn(rt, alloc, ask, desk, gate),
        Command::Migrate(ask) => migrate_file(alloc, ask, desk),
        Command::Rebase(ask) => rebase_file(rt, alloc, ask, desk, gate, clock),
        Command::Merge(ask) => merge_files(alloc, ask, desk),
        Command::KBest(ask) => list_file(alloc, ask, desk, clock),
        Command::CheckBest(ask) => check_best_file(alloc, ask, desk),
        Command::Replay(ask) => replay_file(alloc, ask, desk),
    }
}
