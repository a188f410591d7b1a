//! Several workers, each in a thread of its own.

ghost use Rattle.std.specs.Prelude.{◌≡◌, ◌+◌, ◌<◌, ◌≤◌, [], ◌∷◌, ◌++◌, All, map, reverse, length, vec_capacity, is_some, None, IfOk, IfSome, OnOk};
ghost use Rattle.cfn_model.specs.declared.limits.TheConstants.{GREATEST};
ghost use Rattle.cfn_model.specs.Certificate.{threshold};
ghost use Rattle.cfn_proof.specs.Certificates.{certificate_of};
ghost use Rattle.cfn_low.specs.Outcome.{IsOutcome, fresh, timed_nodes};
ghost use Rattle.cfn_machine.specs.Word.{all_shares};
ghost use Rattle.cfn_pool.specs.Recorded.{HasSpare};
ghost use Rattle.cfn_pool.specs.Views.{pool};
ghost use Rattle.cfn_rota.specs.Values.{AreAll, access};
ghost use Rattle.cfn_search.specs.Accounts.{least_of, reach};
ghost use Rattle.cfn_search.specs.Boards.{IsBoard};
ghost use Rattle.cfn_search.specs.Searching.{IsSearch, StaysReady};
ghost use Rattle.cfn_search.specs.Beginning.{MayBegin, start_of};
ghost use Rattle.cfn_search.specs.Recording.{IsRecorded};

use crate::account::Threshold;
use crate::begin::Begin;
use crate::board::{Board, Crew};
use crate::lanes::{LaneTasks, Lanes, ROOM};
use crate::outcome::{conclude, meet, wind_up};
use crate::search::{know, open, solve_alone};
use crate::worker::{Shared, Worker};
use cfn_explore::{Explorers, Gate, Halt, Problem, Task};
use cfn_low::{Holder, Incumbent, Low, Outcome, Unnamed};
use cfn_net::{Network, Scored};
use cfn_pool::Pool;
use cfn_record::History;
use cfn_rota::{Ends, deal};
use std::alloc::{AllocError, Global};
use std::marker::Brand;
use std::sync::{Condvar, Mutex, Wait};
use std::thread;
use std::thread::Threads;

/// What several workers answer.
#[derive(Drop)]
pub struct Teamwork {
    pub outcome: Outcome,
    /// Of each worker the least threshold at which it made a piece; where it made none, what it had seen at first.
    pub thresholds: Vec<Threshold>,
    /// What was done to the pool, where that was asked for.
    pub history: Option<History>,
}

/// Searches as `solve` does, by 1 to 64 workers, each in a thread of its own; a single one works on the caller's thread.
///
/// Which nodes are made depends on how the threads run, so two calls may answer different nodes, rows and assignments; each
/// answer keeps the whole contract. Once `halt` is past each worker ends behind the node that it is at; the outcome's cause is then
/// that time is past, where a leaf is open and nodes are left. A worker that is refused memory for a dive ends, and the others go
/// on with its leaf. A gate that asks for it is told, after each piece, how far the search is.
///
/// The certificate's threshold is at most each threshold at which a worker made a piece.
pub fn solve_together<
    X: Explorers + Sync,
    R: Threads + Wait + Sync,
    G: Gate + Sync,
    H: Halt + Sync,
>(
    rt: &R,
    alloc: Global,
    network: &Problem<'_, X>,
    workers: u32,
    budget: u64,
    gate: &G,
    halt: &H,
) -> Result<Teamwork, AllocError>
    requires some { 1 ≤ workers }
    requires few { workers ≤ 64 }
    requires budget { budget ≤ GREATEST }
    ensures outcome { IfOk result (λ found. IsOutcome network.now (fresh network.now) (timed_nodes budget (H.limited halt.now)) found.outcome) }
    ensures unasked { IfOk result (λ found. found.history ≡ None) }
    ensures count { IfOk result (λ found. length found.thresholds.items ≡ workers) }
    ensures most { IfOk result (λ found. All (λ k. k ≤ network.now.upper) found.thresholds.items) }
    ensures least { IfOk result (λ found. All (λ k. threshold (certificate_of found.outcome.certificate) ≤ k) found.thresholds.items) }
{
    let begin = Begin::fresh(alloc, network.network(), false)?;
    solve_from(rt, alloc, network, begin, workers, budget, gate, halt)
}

/// Goes on so from the tree and the assignment of an earlier search. The nodes are those that it makes itself. What is done to the pool is
/// recorded exactly where the beginning asks for it; a leaf that can't be recorded is not taken, and a piece that can't be is not placed,
/// as where memory is refused for these.
pub fn solve_from<X: Explorers + Sync, R: Threads + Wait + Sync, G: Gate + Sync, H: Halt + Sync>(
    rt: &R,
    alloc: Global,
    network: &Problem<'_, X>,
    begin: Begin,
    workers: u32,
    budget: u64,
    gate: &G,
    halt: &H,
) -> Result<Teamwork, AllocError>
    requires may { MayBegin network.now begin }
    requires some { 1 ≤ workers }
    requires few { workers ≤ 64 }
    requires budget { budget ≤ GREATEST }
    ensures outcome { IfOk result (λ found. IsOutcome network.now (start_of network.now begin) (timed_nodes budget (H.limited halt.now)) found.outcome) }
    ensures history { IfOk result (λ found. IfSome found.history (IsRecorded network.now budget (certificate_of found.outcome.certificate))) }
    ensures recorded { IfOk result (λ found. is_some found.history ≡ begin.recorded) }
    ensures count { IfOk result (λ found. length found.thresholds.items ≡ workers) }
    ensures most { IfOk result (λ found. All (λ k. k ≤ network.now.upper) found.thresholds.items) }
    ensures least { IfOk result (λ found. All (λ k. threshold (certificate_of found.outcome.certificate) ≤ k) found.thresholds.items) }
{
    if workers == 1 {
        return solve_single(alloc, network, begin, budget, gate, halt);
    }
    let (network, explorers) = (network.network(), network.explorers());
    let unnamed = Unnamed::make(alloc, network)?;
    search::<Brand, X, R, G, H>(
        rt, alloc, network, explorers, unnamed, begin, workers, budget, gate, halt,
    )
}

/// The search by a single worker.
fn solve_single<X: Explorers, G: Gate, H: Halt>(
    alloc: Global,
    network: &Problem<'_, X>,
    begin: Begin,
    budget: u64,
    gate: &G,
    halt: &H,
) -> Result<Teamwork, AllocError>
    requires may { MayBegin network.now begin }
    requires budget { budget ≤ GREATEST }
    ensures outcome { IfOk result (λ found. IsOutcome network.now (start_of network.now begin) (timed_nodes budget (H.limited halt.now)) found.outcome) }
    ensures history { IfOk result (λ found. IfSome found.history (IsRecorded network.now budget (certificate_of found.outcome.certificate))) }
    ensures recorded { IfOk result (λ found. is_some found.history ≡ begin.recorded) }
    ensures count { IfOk result (λ found. length found.thresholds.items ≡ 1) }
    ensures most { IfOk result (λ found. All (λ k. k ≤ network.now.upper) found.thresholds.items) }
    ensures least { IfOk result (λ found. All (λ k. threshold (certificate_of found.outcome.certificate) ≤ k) found.thresholds.items) }
{
    let mut thresholds = Vec::with_capacity(alloc, 1)?;
    let (outcome, history, own) = solve_alone(alloc, network, begin, budget, gate, halt)?;
    thresholds.push_reserved(own);
    Ok(Teamwork {
        outcome,
        thresholds,
        history,
    })
}

/// The search, over a word by its name.
fn search<
    M: Incumbent + Crew + Send + Sync,
    X: Explorers + Sync,
    R: Threads + Wait + Sync,
    G: Gate + Sync,
    H: Halt + Sync,
>(
    rt: &R,
    alloc: Global,
    network: &Network,
    explorers: &X,
    unnamed: Unnamed,
    begin: Begin,
    workers: u32,
    budget: u64,
    gate: &G,
    halt: &H,
) -> Result<Teamwork, AllocError>
    requires table { M.table ≡ unnamed.table }
    requires network { M.network ≡ unnamed.network }
    requires may { MayBegin unnamed.network begin }
    requires start { M.start ≡ start_of unnamed.network begin }
    requires own { network.now ≡ unnamed.network }
    requires explorers { X.network explorers.now ≡ unnamed.network }
    requires budget { M.budget ≡ budget }
    requires crew { M.workers ≡ workers }
    requires recorded { M.recorded ≡ begin.recorded }
    requires some { 1 ≤ workers }
    requires few { workers ≤ 64 }
    requires most { budget ≤ GREATEST }
    ensures outcome { IfOk result (λ found. IsOutcome network.now (start_of network.now begin) (timed_nodes budget (H.limited halt.now)) found.outcome) }
    ensures history { IfOk result (λ found. IfSome found.history (IsRecorded network.now budget (certificate_of found.outcome.certificate))) }
    ensures recorded { IfOk result (λ found. is_some found.history ≡ begin.recorded) }
    ensures count { IfOk result (λ found. length found.thresholds.items ≡ workers) }
    ensures most { IfOk result (λ found. All (λ k. k ≤ network.now.upper) found.thresholds.items) }
    ensures least { IfOk result (λ found. All (λ k. threshold (certificate_of found.outcome.certificate) ≤ k) found.thresholds.items) }
{
    let thresholds = Vec::with_capacity(alloc, workers as usize)?;
    let (low, mut holder) = unnamed.named::<M>();
    let Begin {
        tree,
        best,
        part,
        recorded,
    } = begin;
    know(&low, &mut holder, &best);
    let (parts, ends) = supplies(alloc, network, &low, &mut holder, workers)?;
    let crew: Vec<Worker<M>> = Vec::with_capacity(alloc, workers as usize)?;
    let Ok(held) = open(alloc, network, &low, holder, tree, part, recorded, budget) else {
        crew.destroy_empty();
        return Err(AllocError);
    };
    let crew = start_workers(crew, parts, ends);
    let (held, crew) = run(rt, alloc, network, explorers, &low, held, crew, gate, halt);
    Ok(end_all(network, low, held, crew, thresholds, halt))
}

/// The pool and the workers once there is no leaf to take.
fn run<
    M: Incumbent + Crew + Send + Sync,
    X: Explorers + Sync,
    R: Threads + Wait + Sync,
    G: Gate + Sync,
    H: Halt + Sync,
>(
    rt: &R,
    alloc: Global,
    network: &Network,
    explorers: &X,
    low: &Low<M>,
    held: Pool<M>,
    crew: Vec<Worker<M>>,
    gate: &G,
    halt: &H,
) -> (Pool<M>, Vec<Worker<M>>)
    requires own { network.now ≡ M.network }
    requires explorers { X.network explorers.now ≡ M.network }
    requires board { IsBoard M.start M.budget M.workers M.recorded held }
    ensures board { IsBoard M.start M.budget M.workers M.recorded result.0 }
    ensures count { length result.1.items ≡ length crew.items }
    ensures same { map reach result.1.items ≡ map reach crew.items }
{
    let board = Mutex::new(Board::new(held));
    let crew = work_all(rt, alloc, network, explorers, low, &board, crew, gate, halt);
    (board.into_inner().into_pool(), crew)
}

/// Ends the workers and then the search. `thresholds` is empty, with room for one of each worker. It takes no memory.
fn end_all<M: Incumbent, H: Halt>(
    network: &Network,
    low: Low<M>,
    mut held: Pool<M>,
    crew: Vec<Worker<M>>,
    thresholds: Vec<Threshold>,
    halt: &H,
) -> Teamwork
    requires own { network.now ≡ M.network }
    requires search { IsSearch M.start (pool held) }
    requires spare { HasSpare 2 held.recorded }
    requires shares { (pool held).view.shares + length crew.items ≡ all_shares }
    requires all { AreAll (map reach crew.items) }
    requires none { thresholds.items ≡ [] }
    requires room { length crew.items ≤ vec_capacity thresholds }
    ensures outcome { IsOutcome network.now M.start (timed_nodes (pool held).budget (H.limited halt.now)) result.outcome }
    ensures history { IfSome result.history (IsRecorded network.now (pool held).budget (certificate_of result.outcome.certificate)) }
    ensures recorded { is_some result.history ≡ is_some held.recorded }
    ensures count { length result.thresholds.items ≡ length crew.items }
    ensures most { All (λ k. k ≤ network.now.upper) result.thresholds.items }
    ensures least { All (λ k. threshold (certificate_of result.outcome.certificate) ≤ k) result.thresholds.items }
{
    let thresholds = end_workers(&low, &mut held, crew, thresholds);
    let own = wind_up(&low, &mut held);
    let (outcome, history) = conclude(network, low, held, own, halt);
    Teamwork {
        outcome,
        thresholds,
        history,
    }
}

/// What each worker is made of: one share of the word, and its ends of the lanes. An `Err` is want of memory.
fn supplies<M: Incumbent>(
    alloc: Global,
    network: &Network,
    low: &Low<M>,
    holder: &mut Holder<M>,
    workers: u32,
) -> Result<(Vec<Holder<M>>, Vec<Ends<Task, LaneTasks<M>>>), AllocError>
    requires own { network.now ≡ M.network }
    requires all { holder.old.shares ≡ all_shares }
    requires few { workers ≤ 64 }
    ensures count { IfOk result (λ made. length made.0.items ≡ workers) }
    ensures ones { IfOk result (λ made. All (λ part. part.shares ≡ 1) made.0.items) }
    ensures ends { IfOk result (λ made. length made.1.items ≡ workers) }
    ensures all { IfOk result (λ made. AreAll (reverse (map access made.1.items))) }
    ensures shares { OnOk result (holder.new.shares + workers ≡ all_shares) }
    ensures held { holder.new.held ≡ holder.old.held }
    ensures seen { holder.new.seen ≡ holder.old.seen }
{
    let parts = split(alloc, network, low, holder, workers)?;
    let ends = deal(alloc, workers, ROOM)?;
    Ok((parts, ends))
}

/// One share of the word for each worker. An `Err` is want of memory.
fn split<M: Incumbent>(
    alloc: Global,
    network: &Network,
    low: &Low<M>,
    holder: &mut Holder<M>,
    workers: u32,
) -> Result<Vec<Holder<M>>, AllocError>
    requires own { network.now ≡ M.network }
    requires all { holder.old.shares ≡ all_shares }
    requires few { workers ≤ 64 }
    ensures count { IfOk result (λ parts. length parts.items ≡ workers) }
    ensures ones { IfOk result (λ parts. All (λ part. part.shares ≡ 1) parts.items) }
    ensures shares { OnOk result (holder.new.shares + workers ≡ all_shares) }
    ensures held { holder.new.held ≡ holder.old.held }
    ensures seen { holder.new.seen ≡ holder.old.seen }
{
    let mut parts = Vec::with_capacity(alloc, workers as usize)?;
    for _ in 0..workers {
        let empty = Scored::empty(alloc, network)?;
        parts.push_reserved(low.split(holder, empty));
    }
    Ok(parts)
}

/// Workers in the order of their numbers, each with one share of the word and its ends of all lanes. `crew` is empty, with room
/// for them. It takes no memory.
fn start_workers<M: Incumbent>(
    mut crew: Vec<Worker<M>>,
    mut parts: Vec<Holder<M>>,
    mut ends: Vec<Ends<Task, LaneTasks<M>>>,
) -> Vec<Worker<M>>
    requires none { crew.items ≡ [] }
    requires room { length parts.items ≤ vec_capacity crew }
    requires few { length parts.items ≤ 64 }
    requires count { length ends.items ≡ length parts.items }
    requires ones { All (λ part. part.shares ≡ 1) parts.items }
    requires all { AreAll (reverse (map access ends.items)) }
    ensures count { length result.items ≡ length parts.items }
    ensures all { AreAll (map reach result.items) }
{
    while let (Some(part), Some(own)) = (parts.pop(), ends.pop()) {
        let number = crew.len() as u32;
        crew.push_reserved(Worker::new(number, part, Lanes::of(own)));
    }
    crew
}

/// Lets all workers work until there is no leaf to take.
fn work_all<
    M: Incumbent + Crew + Send + Sync,
    X: Explorers + Sync,
    R: Threads + Wait + Sync,
    G: Gate + Sync,
    H: Halt + Sync,
>(
    rt: &R,
    alloc: Global,
    network: &Network,
    explorers: &X,
    low: &Low<M>,
    board: &Mutex<Board<M>>,
    mut crew: Vec<Worker<M>>,
    gate: &G,
    halt: &H,
) -> Vec<Worker<M>>
    requires own { network.now ≡ M.network }
    requires explorers { X.network explorers.now ≡ M.network }
    ensures count { length result.items ≡ length crew.items }
    ensures same { map reach result.items ≡ map reach crew.items }
{
    let changed = Condvar::new();
    let shared = Shared {
        network,
        explorers,
        low,
        board,
        changed: &changed,
        gate,
        halt,
    };
    work_each(rt, alloc, &shared, crew.as_mut_slice());
    crew
}

/// Lets each worker work in a thread of its own.
fn work_each<
    M: Incumbent + Crew + Send + Sync,
    X: Explorers + Sync,
    R: Threads + Wait + Sync,
    G: Gate + Sync,
    H: Halt + Sync,
>(rt: &R, alloc: Global, shared: &Shared<'_, M, X, G, H>, crew: &mut [Worker<M>])
    requires network { shared.now.network.now ≡ M.network }
    requires explorers { X.network shared.now.explorers.now ≡ M.network }
    ensures count { length crew.new ≡ length crew.old }
    ensures same { map reach crew.new ≡ map reach crew.old }
{
    let threads = crew.len();
    if threads > 0 {
        thread::for_each_mut(
            rt,
            crew,
            threads,
            &|_: usize, worker: &mut Worker<M>|
                requires network { shared.now.network.now ≡ M.network }
                requires explorers { X.network shared.now.explorers.now ≡ M.network }
                ensures { reach worker.exit.now ≡ reach worker.entry.now }
            { worker.work(rt, alloc, shared) },
        );
    }
}

/// Ends the workers once their threads have ended: gives back what is left in their lanes, and joins their parts of the word
/// into the pool's, which has then seen at most the threshold of each. `thresholds` is empty, with room for these.
fn end_workers<M: Incumbent>(
    low: &Low<M>,
    held: &mut Pool<M>,
    mut crew: Vec<Worker<M>>,
    mut thresholds: Vec<Threshold>,
) -> Vec<Threshold>
    requires search { IsSearch M.start (pool held.old) }
    requires spare { HasSpare 2 held.old.recorded }
    requires shares { (pool held.old).view.shares + length crew.items ≡ all_shares }
    requires all { AreAll (map reach crew.items) }
    requires none { thresholds.items ≡ [] }
    requires room { length crew.items ≤ vec_capacity thresholds }
    ensures search { IsSearch M.start (pool held.new) }
    ensures ready { StaysReady held.old held.new }
    ensures budget { (pool held.new).budget ≡ (pool held.old).budget }
    ensures shares { (pool held.new).view.shares ≡ all_shares }
    ensures told { result.items ≡ reverse (map least_of crew.items) }
    ensures most { All (λ k. k ≤ M.network.upper) result.items }
    ensures least { All (λ k. (pool held.new).view.seen ≤ k) result.items }
{
    while let Some(worker) = crew.pop() {
        let threshold = end(low, held, worker, crew.as_mut_slice());
        thresholds.push_reserved(threshold);
    }
    crew.destroy_empty();
    thresholds
}

/// Ends the last of some workers, whose ends are all of their lanes: the others' ends are all of theirs then. It answers the
/// least threshold at which that worker made a piece.
fn end<M: Incumbent>(
    low: &Low<M>,
    held: &mut Pool<M>,
    mut worker: Worker<M>,
    others: &mut [Worker<M>],
) -> Threshold
    requires search { IsSearch M.start (pool held.old) }
    requires spare { HasSpare 2 held.old.recorded }
    requires share { (pool held.old).view.shares + 1 ≤ all_shares }
    requires all { AreAll (map reach others.old ++ reach worker ∷ []) }
    ensures search { IsSearch M.start (pool held.new) }
    ensures ready { StaysReady held.old held.new }
    ensures budget { (pool held.new).budget ≡ (pool held.old).budget }
    ensures share { (pool held.new).view.shares ≡ (pool held.old).view.shares + 1 }
    ensures others { AreAll (map reach others.new) }
    ensures count { length others.new ≡ length others.old }
    ensures leasts { map least_of others.new ≡ map least_of others.old }
    ensures told { result ≡ worker.least }
    ensures most { result ≤ M.network.upper }
    ensures met { (pool held.new).view.seen ≤ result }
    ensures falls { (pool held.new).view.seen ≤ (pool held.old).view.seen }
{
    worker.gather(others);
    worker.give_left(held);
    let (part, threshold) = worker.close();
    meet(low, held, part);
    threshold
}
