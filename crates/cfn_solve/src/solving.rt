//! The search of a network, by divers whose splits are named by weighted degree.

ghost use Rattle.std.specs.Prelude.{◌≡◌, ◌≤◌, All, length, is_some, None, IfOk, IfSome};
ghost use Rattle.cfn_model.specs.Certificate.{threshold};
ghost use Rattle.cfn_model.specs.declared.limits.TheConstants.{GREATEST};
ghost use Rattle.cfn_proof.specs.Certificates.{certificate_of};
ghost use Rattle.cfn_low.specs.Outcome.{IsOutcome, fresh, nodes_alone, timed_nodes};
ghost use Rattle.cfn_search.specs.Beginning.{MayBegin, start_of};
ghost use Rattle.cfn_search.specs.Recording.{IsRecorded};

use cfn_dive::Divers;
use cfn_explore::{Gate, Halt, Problem};
use cfn_low::Outcome;
use cfn_net::{Network, Tables};
use cfn_search::{Begin, Teamwork};
use std::alloc::{AllocError, Global};
use std::sync::Wait;
use std::thread::Threads;

/// Searches a network on the caller's thread, making at most `budget` nodes, 0 to 2^63 - 1 (Allouche et al. 2015). An `Err` is
/// want of memory before the search stands.
pub fn solve(alloc: Global, network: &Network, budget: u64) -> Result<Outcome, AllocError>
    requires { budget ≤ GREATEST }
    ensures { IfOk result (IsOutcome network.now (fresh network.now) (nodes_alone budget)) }
{
    let tables = Tables::expand(alloc, network)?;
    let divers = Divers::over(network, &tables);
    let problem = Problem::of(network, &divers);
    cfn_search::solve(alloc, &problem, budget)
}

/// Searches as `solve` does, by 1 to 64 workers, each in a thread of its own; a single one works on the caller's thread.
///
/// Which nodes are made depends on how the threads run, so two calls may answer different nodes, rows and assignments; each
/// answer keeps the whole contract. Once `halt` is past each worker ends behind the node that it is at; the outcome's cause is then
/// that time is past, where a leaf is open and nodes are left. A worker that is refused memory for a dive ends, and the others go
/// on with its leaf. A gate that asks for it is told, after each piece, how far the search is.
///
/// The certificate's threshold is at most each threshold at which a worker made a piece.
pub fn solve_together<R: Threads + Wait + Sync, G: Gate + Sync, H: Halt + Sync>(
    rt: &R,
    alloc: Global,
    network: &Network,
    workers: u32,
    budget: u64,
    gate: &G,
    halt: &H,
) -> Result<Teamwork, AllocError>
    requires some { 1 ≤ workers }
    requires few { workers ≤ 64 }
    requires budget { budget ≤ GREATEST }
    ensures outcome { IfOk result (λ found. IsOutcome network.now (fresh network.now) (timed_nodes budget (H.limited halt.now)) found.outcome) }
    ensures unasked { IfOk result (λ found. found.history ≡ None) }
    ensures count { IfOk result (λ found. length found.thresholds.items ≡ workers) }
    ensures most { IfOk result (λ found. All (λ k. k ≤ network.now.upper) found.thresholds.items) }
    ensures least { IfOk result (λ found. All (λ k. threshold (certificate_of found.outcome.certificate) ≤ k) found.thresholds.items) }
{
    let begin = Begin::fresh(alloc, network, false)?;
    solve_from(rt, alloc, network, begin, workers, budget, gate, halt)
}

/// Goes on so from the tree and the assignment of an earlier search. The nodes are those that it makes itself. What is done to the pool is
/// recorded exactly where the beginning asks for it; a leaf that can't be recorded is not taken, and a piece that can't be is not placed,
/// as where memory is refused for these.
pub fn solve_from<R: Threads + Wait + Sync, G: Gate + Sync, H: Halt + Sync>(
    rt: &R,
    alloc: Global,
    network: &Network,
    begin: Begin,
    workers: u32,
    budget: u64,
    gate: &G,
    halt: &H,
) -> Result<Teamwork, AllocError>
    requires may { MayBegin network.now begin }
    requires some { 1 ≤ workers }
    requires few { workers ≤ 64 }
    requires budget { budget ≤ GREATEST }
    ensures outcome { IfOk result (λ found. IsOutcome network.now (start_of network.now begin) (timed_nodes budget (H.limited halt.now)) found.outcome) }
    ensures history { IfOk result (λ found. IfSome found.history (IsRecorded network.now budget (certificate_of found.outcome.certificate))) }
    ensures recorded { IfOk result (λ found. is_some found.history ≡ begin.recorded) }
    ensures count { IfOk result (λ found. length found.thresholds.items ≡ workers) }
    ensures most { IfOk result (λ found. All (λ k. k ≤ network.now.upper) found.thresholds.items) }
    ensures least { IfOk result (λ found. All (λ k. threshold (certificate_of found.outcome.certificate) ≤ k) found.thresholds.items) }
{
    let tables = Tables::expand(alloc, network)?;
    let divers = Divers::over(network, &tables);
    let problem = Problem::of(network, &divers);
    cfn_search::solve_from(rt, alloc, &problem, begin, workers, budget, gate, halt)
}
