//! A search whose gate is told when it begins and when it has ended.

ghost use Rattle.std.specs.Prelude.{◌≡◌, ◌≤◌, All, length, is_some, IfOk, IfSome};
ghost use Rattle.cfn_model.specs.Certificate.{threshold};
ghost use Rattle.cfn_model.specs.declared.limits.TheConstants.{GREATEST};
ghost use Rattle.cfn_proof.specs.Certificates.{certificate_of};
ghost use Rattle.cfn_low.specs.Outcome.{IsOutcome, timed_nodes};
ghost use Rattle.cfn_search.specs.Beginning.{MayBegin, start_of};
ghost use Rattle.cfn_search.specs.Recording.{IsRecorded};

use cfn_net::Network;
use cfn_solve::{Begin, Gate, Halt, Teamwork, solve_from};
use std::alloc::{AllocError, Global};
use std::sync::Wait;
use std::thread::Threads;

/// Goes on from a beginning by as many workers as are asked for, until `halt` is past. `asked` is whether the words ask to be told how far the search is.
pub fn search<R: Threads + Wait + Sync, G: Gate + Sync, H: Halt + Sync>(
    rt: &R,
    alloc: Global,
    network: &Network,
    begin: Begin,
    workers: u32,
    budget: u64,
    asked: bool,
    gate: &G,
    halt: &H,
) -> Result<Teamwork, AllocError>
    requires may { MayBegin network.now begin }
    requires some { 1 ≤ workers }
    requires few { workers ≤ 64 }
    requires budget { budget ≤ GREATEST }
    ensures outcome { IfOk result (λ found. IsOutcome network.now (start_of network.now begin) (timed_nodes budget (H.limited halt.now)) found.outcome) }
    ensures history { IfOk result (λ found. IfSome found.history (IsRecorded network.now budget (certificate_of found.outcome.certificate))) }
    ensures recorded { IfOk result (λ found. is_some found.history ≡ begin.recorded) }
    ensures count { IfOk result (λ found. length found.thresholds.items ≡ workers) }
    ensures least { IfOk result (λ found. All (λ k. threshold (certificate_of found.outcome.certificate) ≤ k) found.thresholds.items) }
{
    gate.begin(asked);
    let found = solve_from(rt, alloc, network, begin, workers, budget, gate, halt);
    gate.end();
    found
}
