//! What becomes of the tasks in a worker's lane: they are dived with, or given back to the pool once the worker ends.

ghost use Rattle.std.specs.Prelude.{◌≡◌, false, [], ◌∷◌, None, IfOk, IfSome};
ghost use Rattle.cfn_pool.specs.Recorded.{HasSpare};
ghost use Rattle.cfn_pool.specs.Views.{pool};
ghost use Rattle.cfn_rota.specs.Values.{AreAll, access};
ghost use Rattle.cfn_explore.specs.Values.{IsTaskOf};
ghost use Rattle.cfn_low.specs.Outcome.{fresh};
ghost use Rattle.cfn_search.specs.Accounts.{reach};
ghost use Rattle.cfn_search.specs.Boards.{IsBoard};
ghost use Rattle.cfn_search.specs.Searching.{IsSearch, GoesOn, StaysReady};

use crate::networks::tiny;
use cfn_dive::{Diver, Divers};
use cfn_explore::{Explorers, Never, OpenGate, Task};
use cfn_low::{Holder, Incumbent, Low, Unnamed};
use cfn_net::{Network, Scored, Tables};
use cfn_pool::{Pool, Taken};
use cfn_rota::{Ends, deal};
use cfn_search::{Asked, Board, Crew, LaneTasks, Lanes, ROOM, Shared, Worker, take};
use std::alloc::{AllocError, AllocGlobal, Global};
use std::marker::Brand;
use std::sync::{Condvar, Mutex, Wait};
use std::test::*;

/// How many nodes the search may make.
const BUDGET: u64 = 1_000;

/// The number of the one worker, and of another that has ended.
const WORKER: u32 = 0;

const OTHER: u32 = 1;

/// Makes divers, or wants memory.
#[derive(Drop)]
struct Making<'n> {
    divers: Divers<'n>,
    refused: bool,
}

impl<'n> Explorers for Making<'n> {
    type Explorer = Diver<'n>;

    ghost network = { λ m. m.divers };

    fn make(&self, alloc: Global) -> Result<Diver<'n>, AllocError> {
        if self.refused {
            return Err(AllocError);
        }
        self.divers.make(alloc)
    }
}

/// A pool at the beginning of a search. An `Err` is want of memory.
fn begin<M: Incumbent>(
    alloc: Global,
    network: &Network,
    holder: Holder<M>,
) -> Result<Pool<M>, AllocError>
    requires own { network.now ≡ M.network }
    requires start { M.start ≡ fresh M.network }
    requires none { holder.held ≡ None }
    requires seen { holder.seen ≡ M.network.upper }
    ensures search { IfOk result (λ held. IsSearch M.start (pool held)) }
    ensures budget { IfOk result (λ held. (pool held).budget ≡ 1000) }
    ensures shares { IfOk result (λ held. (pool held).view.shares ≡ holder.shares) }
    ensures recorded { IfOk result (λ held. held.recorded ≡ None) }
{
    match Pool::begin(alloc, network, holder, BUDGET) {
        Ok(held) => Ok(held),
        Err(_) => Err(AllocError),
    }
}

/// The ends of a single worker. An `Err` is want of memory.
fn own_ends<M: Incumbent>(alloc: Global) -> Result<Ends<Task, LaneTasks<M>>, AllocError>
    ensures { IfOk result (λ own. AreAll (access own ∷ [])) }
{
    let mut ends = deal(alloc, 1, ROOM)?;
    match ends.pop() {
        Some(own) => Ok(own),
        None => Err(AllocError),
    }
}

/// The task of a free leaf.
fn taken<M: Incumbent>(network: &Network, held: &mut Pool<M>, worker: u32) -> Option<Task>
    requires own { network.now ≡ M.network }
    requires search { IsSearch M.start (pool held.old) }
    requires spare { HasSpare 2 held.old.recorded }
    ensures goes { GoesOn M.start (pool held.old) (pool held.new) }
    ensures ready { StaysReady held.old held.new }
    ensures task { IfSome result (IsTaskOf M.network) }
{
    held.law_kept();
    match held.take(network, worker, 1) {
        Taken::Given { task } => Some(task),
        _ => None,
    }
}

/// Frees a task's leaf.
fn free<M: Incumbent>(held: &mut Pool<M>, task: &Task)
    requires search { IsSearch M.start (pool held.old) }
    requires spare { HasSpare 2 held.old.recorded }
    ensures goes { GoesOn M.start (pool held.old) (pool held.new) }
    ensures ready { StaysReady held.old held.new }
{
    held.law_kept();
    task.law_kept();
    held.back(task);
}

/// Whether the pool has a leaf that is free.
fn is_free<M: Incumbent>(network: &Network, held: &mut Pool<M>) -> bool
    requires own { network.now ≡ M.network }
    requires search { IsSearch M.start (pool held.old) }
    requires spare { HasSpare 2 held.old.recorded }
    ensures goes { GoesOn M.start (pool held.old) (pool held.new) }
    ensures ready { StaysReady held.old held.new }
{
    match take(network, held, WORKER, 1) {
        Asked::Task { task } => {
            task.back(held);
            true
        }
        Asked::Later | Asked::Done | Asked::Spent | Asked::Memory => false,
    }
}

/// Lays two tasks of the root in a worker's lane, and answers whether it did. The first was another worker's and was given back,
/// so a piece of it comes too late; the second is out.
fn lays_two<M: Incumbent>(
    network: &Network,
    held: &mut Pool<M>,
    own: &mut Ends<Task, LaneTasks<M>>,
) -> bool
    requires own { network.now ≡ M.network }
    requires search { IsSearch M.start (pool held.old) }
    requires spare { HasSpare 2 held.old.recorded }
    ensures goes { GoesOn M.start (pool held.old) (pool held.new) }
    ensures ready { StaysReady held.old held.new }
    ensures same { access own.new ≡ access own.old }
{
    let Some(late) = taken(network, held, OTHER) else {
        return false;
    };
    free(held, &late);
    let Some(task) = taken(network, held, WORKER) else {
        return false;
    };
    own.push(late).is_ok() && own.push(task).is_ok()
}

/// The pool after a worker has worked alone.
fn after_work<M: Incumbent + Crew, R: AllocGlobal + Wait>(
    rt: &R,
    network: &Network,
    explorers: &Making<'_>,
    low: &Low<M>,
    held: Pool<M>,
    worker: &mut Worker<M>,
) -> Pool<M>
    requires network { network.now ≡ M.network }
    requires explorers { explorers.now.divers ≡ M.network }
    requires board { IsBoard M.start M.budget M.workers M.recorded held }
    ensures board { IsBoard M.start M.budget M.workers M.recorded result }
    ensures same { reach worker.new ≡ reach worker.old }
{
    let board = Mutex::new(Board::new(held));
    let changed = Condvar::new();
    let shared = Shared {
        network,
        explorers,
        low,
        board: &board,
        changed: &changed,
        gate: &OpenGate,
        halt: &Never,
    };
    worker.work(rt, rt.alloc(), &shared);
    board.into_inner().into_pool()
}

/// Lets a single worker go: what is left in its lane is given back.
fn let_go<M: Incumbent>(alloc: Global, held: &mut Pool<M>, mut worker: Worker<M>)
    requires search { IsSearch M.start (pool held.old) }
    requires spare { HasSpare 2 held.old.recorded }
    requires all { AreAll (reach worker ∷ []) }
    ensures goes { GoesOn M.start (pool held.old) (pool held.new) }
    ensures ready { StaysReady held.old held.new }
{
    let mut others = Vec::new(alloc);
    worker.gather(others.as_mut_slice());
    others.destroy_empty();
    worker.give_left(held);
    let _retired = worker.close();
}

/// Whether the pool has a leaf after a worker has worked, before it is let go.
fn free_after_work<M: Incumbent + Crew, R: AllocGlobal + Wait>(
    rt: &R,
    network: &Network,
    explorers: &Making<'_>,
    low: &Low<M>,
    held: Pool<M>,
    mut worker: Worker<M>,
) -> bool
    requires network { network.now ≡ M.network }
    requires explorers { explorers.now.divers ≡ M.network }
    requires board { IsBoard M.start M.budget M.workers M.recorded held }
    requires all { AreAll (reach worker ∷ []) }
{
    let mut held = after_work(rt, network, explorers, low, held, &mut worker);
    let free = is_free(network, &mut held);
    let_go(rt.alloc(), &mut held, worker);
    free
}

/// Whether the pool has a leaf after a worker that has not worked was let go.
fn free_without_work<M: Incumbent>(
    alloc: Global,
    network: &Network,
    mut held: Pool<M>,
    worker: Worker<M>,
) -> bool
    requires own { network.now ≡ M.network }
    requires search { IsSearch M.start (pool held) }
    requires spare { HasSpare 2 held.recorded }
    requires all { AreAll (reach worker ∷ []) }
{
    let_go(alloc, &mut held, worker);
    is_free(network, &mut held)
}

/// The one worker, with these ends.
fn worker_of<M: Incumbent>(part: Holder<M>, own: Ends<Task, LaneTasks<M>>) -> Worker<M>
    requires share { part.shares ≡ 1 }
    requires all { AreAll (access own ∷ []) }
    ensures all { AreAll (reach result ∷ []) }
{
    Worker::new(WORKER, part, Lanes::of(own))
}

/// Whether tasks were laid in a worker's lane, and whether the pool has a leaf while the only one lies there, and once the worker
/// was let go, after its work or without. Where it is refused, its work ends before it has an explorer.
fn asked<M: Incumbent + Crew, R: AllocGlobal + Wait>(
    rt: &R,
    network: &Network,
    unnamed: Unnamed,
    works: bool,
    refused: bool,
) -> Result<(bool, bool, bool), AllocError>
    requires table { M.table ≡ unnamed.table }
    requires network { M.network ≡ unnamed.network }
    requires start { M.start ≡ fresh unnamed.network }
    requires own { network.now ≡ unnamed.network }
    requires budget { M.budget ≡ 1000 }
    requires crew { M.workers ≡ 1 }
    requires recorded { M.recorded ≡ false }
{
    let tables = Tables::expand(rt.alloc(), network)?;
    let explorers = Making {
        divers: Divers::over(network, &tables),
        refused,
    };
    let asked = asked_by::<M, R>(rt, network, &explorers, unnamed, works);
    drop(explorers);
    drop(tables);
    asked
}

/// The same of a worker with such an explorer.
fn asked_by<M: Incumbent + Crew, R: AllocGlobal + Wait>(
    rt: &R,
    network: &Network,
    explorers: &Making<'_>,
    unnamed: Unnamed,
    works: bool,
) -> Result<(bool, bool, bool), AllocError>
    requires table { M.table ≡ unnamed.table }
    requires network { M.network ≡ unnamed.network }
    requires start { M.start ≡ fresh unnamed.network }
    requires own { network.now ≡ unnamed.network }
    requires explorers { explorers.now.divers ≡ unnamed.network }
    requires budget { M.budget ≡ 1000 }
    requires crew { M.workers ≡ 1 }
    requires recorded { M.recorded ≡ false }
{
    let empty = Scored::empty(rt.alloc(), network)?;
    let mut own = own_ends(rt.alloc())?;
    let (low, mut holder) = unnamed.named::<M>();
    let part = low.split(&mut holder, empty);
    let mut held = begin(rt.alloc(), network, holder)?;
    let laid = lays_two(network, &mut held, &mut own);
    let before = is_free(network, &mut held);
    let worker = worker_of(part, own);
    let after = if works {
        free_after_work(rt, network, explorers, &low, held, worker)
    } else {
        free_without_work(rt.alloc(), network, held, worker)
    };
    Ok((laid, before, after))
}

/// The same in a network of one variable.
fn in_two<R: AllocGlobal + Wait>(
    rt: &R,
    works: bool,
    refused: bool,
) -> Result<(bool, bool, bool), AllocError> {
    let network = tiny(rt.alloc())?;
    let unnamed = Unnamed::make(rt.alloc(), &network)?;
    asked::<Brand, R>(rt, &network, unnamed, works, refused)
}

#[test]
fn worker_that_ends_gives_its_lane_back(rt: HostRuntime) -> Result<(), Fail> {
    assert!(rt; in_two(&rt, true, true)? == (true, false, true));
    Ok(())
}

#[test]
fn what_is_left_in_a_lane_is_given_back(rt: HostRuntime) -> Result<(), Fail> {
    assert!(rt; in_two(&rt, false, false)? == (true, false, true));
    Ok(())
}

/// The first piece comes too late and is let go; by the second the search is done.
#[test]
fn worker_goes_on_after_a_piece_that_comes_too_late(rt: HostRuntime) -> Result<(), Fail> {
    assert!(rt; in_two(&rt, true, false)? == (true, false, false));
    Ok(())
}
