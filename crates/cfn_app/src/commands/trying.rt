//! The command `trial`.

ghost use Rattle.std.specs.Prelude.{◌≡◌, ℕ, ◌<◌, ◌≤◌, List, IfOk};
ghost use Rattle.cfn_model.specs.Network.{Least, cost};
ghost use Rattle.cfn_cli.specs.Request.Trying.{spoken_trial};
ghost use Rattle.cfn_app.specs.Runs.Trying.{Tries};

use crate::searching::search;
use crate::status::{Status, ending};
use cfn_cli::commands::TrialArguments;
use cfn_desk::Desk;
use cfn_gen::{instance, law_allowing};
use cfn_low::Stop;
use cfn_model::GREATEST;
use cfn_net::Network;
use cfn_solve::{Begin, Gate, Never};
use std::alloc::{AllocError, Global};
use std::sync::Wait;
use std::thread::Threads;

/// Draws the network that is asked for, solves it by as many workers as are asked for, and says its least cost, or that
/// memory was refused.
pub fn try_drawn<R: Threads + Wait + Sync, D: Desk, G: Gate + Sync>(
    rt: &R,
    alloc: Global,
    ask: &TrialArguments,
    desk: &mut D,
    gate: &G,
) -> Status
    requires seed { ask.now.seed ≤ 65536 }
    requires some { 1 ≤ ask.now.size }
    requires few { ask.now.size ≤ 200 }
    requires worker { 1 ≤ ask.now.workers }
    requires crew { ask.now.workers ≤ 64 }
    ensures ends { Tries (spoken_trial ask.now) (D.outside desk.old).calls (D.outside desk.new).calls result }
    ensures files { (D.outside desk.new).files ≡ (D.outside desk.old).files }
{
    let Ok(network) = instance(alloc, ask.seed, ask.size) else {
        return ending(cfn_report::write_memory_fault(desk), Status::NoMemory);
    };
    law_allowing();
    let workers = u32::from(ask.workers);
    let Ok(least) = least_cost(rt, alloc, &network, workers, gate) else {
        return ending(cfn_report::write_memory_fault(desk), Status::NoMemory);
    };
    let (variables, functions) = (network.variables(), network.functions());
    ending(
        cfn_report::write_trial(variables, functions, least, desk),
        Status::Done,
    )
}

/// The least cost of a network, each of whose assignments is allowed. An `Err` is want of memory: no search spends the
/// greatest budget, 2^63 - 1 nodes.
fn least_cost<R: Threads + Wait + Sync, G: Gate + Sync>(
    rt: &R,
    alloc: Global,
    network: &Network,
    workers: u32,
    gate: &G,
) -> Result<u64, AllocError>
    requires allowed { (values : List ℕ) → cost network.now values < network.now.upper }
    requires some { 1 ≤ workers }
    requires few { workers ≤ 64 }
    ensures { IfOk result (λ least. Least network.now least) }
{
    network.law_limits();
    let begin = Begin::fresh(alloc, network, false)?;
    let found = search(
        rt, alloc, network, begin, workers, GREATEST, false, gate, &Never,
    )?;
    match found.outcome.stop {
        Stop::Done => Ok(found.outcome.certificate.lower),
        Stop::Budget | Stop::Time | Stop::Part | Stop::Memory => Err(AllocError),
    }
}
