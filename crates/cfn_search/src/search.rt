//! The search, and one dive of it.

ghost use Rattle.std.specs.Prelude.{◌≡◌, ℕ, ◌+◌, ◌<◌, ◌≤◌, ◌^◌, [], length, is_some, None, IfOk, IfSome, IsTrue, OnOk};
ghost use Rattle.cfn_model.specs.Tree.{Open, count, open_leaves};
ghost use Rattle.cfn_model.specs.declared.limits.TheConstants.{GREATEST};
ghost use Rattle.cfn_model.specs.Certificate.{threshold};
ghost use Rattle.cfn_proof.specs.Certificates.{certificate_of};
ghost use Rattle.cfn_proof.specs.Nodes.{tree_of};
ghost use Rattle.cfn_low.specs.Outcome.{IsOutcome, fresh, nodes_alone, timed_nodes};
ghost use Rattle.cfn_machine.specs.Parts.{IsPart, others_of};
ghost use Rattle.cfn_machine.specs.Pool as machine;
ghost use Rattle.cfn_machine.specs.Pool.{IsKept, opening_pool, price, row_of};
ghost use Rattle.cfn_machine.specs.Word.{all_shares};
ghost use Rattle.cfn_pool.specs.Recorded.{HasSpare};
ghost use Rattle.cfn_pool.specs.Views.{pool, values_of};
ghost use Rattle.cfn_search.specs.Searching.{IsSearch, GoesOn, HasMore, StaysReady};
ghost use Rattle.cfn_search.specs.Granting.{IsLimit};
ghost use Rattle.cfn_search.specs.Beginning.{MayBegin, start_of};
ghost use Rattle.cfn_search.specs.Recording.{IsRecorded};

use crate::account::{Account, Threshold};
use crate::begin::Begin;
use crate::grants::{FEWEST_BACKTRACKS, wanted};
use crate::hand::Unplaced;
use crate::outcome::{conclude, meet, wind_up};
use crate::steps::{Asked, hand_in, news, sweep, take};
use cfn_explore::{Explore, Explorers, Gate, Halt, Never, OpenGate, Problem};
use cfn_low::{Holder, Incumbent, Low, Outcome, Unnamed};
use cfn_machine::Part;
use cfn_machine::laws::law_parts;
use cfn_net::{Network, Scored};
use cfn_pool::Pool;
use cfn_proof::Tree;
use cfn_record::History;
use std::alloc::{AllocError, Global};
use std::marker::Brand;

/// The number of the one worker.
const WORKER: u32 = 0;

/// Searches a network for an assignment of least cost, making at most `budget` nodes: splits and closed leaves.
///
/// A dive begins at the open leaf of least floor, and goes on below it as its explorer does; what it made takes the place of
/// the leaf. Where memory is refused the search stops with the leaf still open, and hands out what it has; an `Err` is want
/// of memory before the search stands.
pub fn solve<X: Explorers>(
    alloc: Global,
    network: &Problem<'_, X>,
    budget: u64,
) -> Result<Outcome, AllocError>
    requires { budget ≤ GREATEST }
    ensures { IfOk result (IsOutcome network.now (fresh network.now) (nodes_alone budget)) }
{
    let begin = Begin::fresh(alloc, network.network(), false)?;
    let (outcome, _, _) = solve_alone(alloc, network, begin, budget, &OpenGate, &Never)?;
    Ok(outcome)
}

/// Goes on from a beginning until `halt` is past, and tells the least threshold at which a piece was made too. A gate that asks for it is told
/// how far the search is.
pub(crate) fn solve_alone<X: Explorers, G: Gate, H: Halt>(
    alloc: Global,
    network: &Problem<'_, X>,
    begin: Begin,
    budget: u64,
    gate: &G,
    halt: &H,
) -> Result<(Outcome, Option<History>, Threshold), AllocError>
    requires may { MayBegin network.now begin }
    requires budget { budget ≤ GREATEST }
    ensures outcome { IfOk result (λ found. IsOutcome network.now (start_of network.now begin) (timed_nodes budget (H.limited halt.now)) found.0) }
    ensures history { IfOk result (λ found. IfSome found.1 (IsRecorded network.now budget (certificate_of found.0.certificate))) }
    ensures recorded { IfOk result (λ found. is_some found.1 ≡ begin.recorded) }
    ensures most { IfOk result (λ found. found.2 ≤ network.now.upper) }
    ensures least { IfOk result (λ found. threshold (certificate_of found.0.certificate) ≤ found.2) }
{
    let (network, explorers) = (network.network(), network.explorers());
    let unnamed = Unnamed::make(alloc, network)?;
    let empty = Scored::empty(alloc, network)?;
    search::<Brand, X, G, H>(
        alloc, network, explorers, unnamed, empty, begin, budget, gate, halt,
    )
}

/// The search, over a word by its name.
fn search<M: Incumbent, X: Explorers, G: Gate, H: Halt>(
    alloc: Global,
    network: &Network,
    explorers: &X,
    unnamed: Unnamed,
    empty: Scored,
    begin: Begin,
    budget: u64,
    gate: &G,
    halt: &H,
) -> Result<(Outcome, Option<History>, Threshold), AllocError>
    requires table { M.table ≡ unnamed.table }
    requires network { M.network ≡ unnamed.network }
    requires may { MayBegin unnamed.network begin }
    requires start { M.start ≡ start_of unnamed.network begin }
    requires own { network.now ≡ unnamed.network }
    requires explorers { X.network explorers.now ≡ unnamed.network }
    requires empty { empty ≡ record { network = unnamed.network; held = None } }
    requires most { budget ≤ GREATEST }
    ensures outcome { IfOk result (λ found. IsOutcome network.now (start_of network.now begin) (timed_nodes budget (H.limited halt.now)) found.0) }
    ensures history { IfOk result (λ found. IfSome found.1 (IsRecorded network.now budget (certificate_of found.0.certificate))) }
    ensures recorded { IfOk result (λ found. is_some found.1 ≡ begin.recorded) }
    ensures most { IfOk result (λ found. found.2 ≤ network.now.upper) }
    ensures least { IfOk result (λ found. threshold (certificate_of found.0.certificate) ≤ found.2) }
{
    let (low, mut holder) = unnamed.named::<M>();
    let Begin {
        tree,
        best,
        part,
        recorded,
    } = begin;
    know(&low, &mut holder, &best);
    let mut account = Account::open(low.split(&mut holder, empty));
    let mut held = open(alloc, network, &low, holder, tree, part, recorded, budget)?;
    work(
        alloc,
        network,
        explorers,
        &low,
        &mut held,
        &mut account,
        gate,
        halt,
    );
    Ok(ended(network, low, held, account, halt))
}

/// Lets all of the word know an assignment: its price is seen then. It takes no memory.
pub(crate) fn know<M: Incumbent>(low: &Low<M>, holder: &mut Holder<M>, best: &Scored)
    requires own { best.now.network ≡ M.network }
    requires below { IfSome best.now.held (λ best. best.cost < M.network.upper) }
    requires all { holder.old.shares ≡ all_shares }
    requires none { holder.old.held ≡ None }
    ensures held { holder.new.held ≡ best.now.held }
    ensures seen { holder.new.seen ≡ price M.network (values_of best.now.held) }
    ensures shares { holder.new.shares ≡ holder.old.shares }
{
    best.law_priced();
    low.lower(holder, best);
    low.look(holder);
}

/// A pool at the beginning of a search, with a tree, of which a part of a search has not all open leaves, and a part of the word that
/// has seen the price of what it keeps. What is done to it is recorded exactly where that is asked for. An `Err` is want of memory.
pub(crate) fn open<M: Incumbent>(
    alloc: Global,
    network: &Network,
    low: &Low<M>,
    holder: Holder<M>,
    tree: Tree,
    part: Option<Part>,
    recorded: bool,
    budget: u64,
) -> Result<Pool<M>, AllocError>
    requires own { network.now ≡ M.network }
    requires part { IfSome part IsPart }
    requires few { count (tree_of tree) < 2 ^ 64 }
    requires kept { IsKept M.network (tree_of tree) (values_of holder.held) }
    requires seen { holder.seen ≡ price M.network (values_of holder.held) }
    requires begun { M.start.begun ≡ count (tree_of tree) }
    requires first { M.start.first ≡ row_of M.network (tree_of tree) (price M.network (values_of holder.held)) }
    requires aside { M.start.aside ≡ others_of part (tree_of tree) }
    requires fresh { IsTrue recorded → (tree_of tree ≡ Open []) × (holder.held ≡ None) × (part ≡ None) }
    requires most { budget ≤ GREATEST }
    ensures search { IfOk result (λ made. IsSearch M.start (pool made)) }
    ensures budget { IfOk result (λ made. (pool made).budget ≡ budget) }
    ensures shares { IfOk result (λ made. (pool made).view.shares ≡ holder.shares) }
    ensures recorded { IfOk result (λ made. is_some made.recorded ≡ recorded) }
    ensures spare { IfOk result (λ made. HasSpare 2 made.recorded) }
{
    law_parts();
    let Ok(mut held) = Pool::begin_with(alloc, network, holder, budget, tree, part) else {
        return Err(AllocError);
    };
    record_if(recorded, alloc, network, &mut held)?;
    sweep(low, &mut held);
    Ok(held)
}

/// Begins a record of what is done to a pool from its usual opening on, where that is asked for. An `Err` is want of memory.
fn record_if<M: Incumbent>(
    recorded: bool,
    alloc: Global,
    network: &Network,
    held: &mut Pool<M>,
) -> Result<(), AllocError>
    requires own { network.now ≡ M.network }
    requires opening { IsTrue recorded → (shares : ℕ) × (pool held.old ≡ opening_pool M.network shares (pool held.old).budget) }
    requires budget { (pool held.old).budget ≤ GREATEST }
    requires none { held.old.recorded ≡ None }
    ensures pool { pool held.new ≡ pool held.old }
    ensures recorded { OnOk result (is_some held.new.recorded ≡ recorded) }
    ensures spare { OnOk result (HasSpare 3 held.new.recorded) }
{
    if recorded {
        held.begin_record(alloc, network)?;
    }
    Ok(())
}

/// The outcome of a search once its one worker has ended, and the least threshold at which that made a piece.
fn ended<M: Incumbent, H: Halt>(
    network: &Network,
    low: Low<M>,
    mut held: Pool<M>,
    account: Account<M>,
    halt: &H,
) -> (Outcome, Option<History>, Threshold)
    requires own { network.now ≡ M.network }
    requires search { IsSearch M.start (pool held) }
    requires spare { HasSpare 2 held.recorded }
    requires shares { (pool held).view.shares + account.part.shares ≡ all_shares }
    ensures outcome { IsOutcome network.now M.start (timed_nodes (pool held).budget (H.limited halt.now)) result.0 }
    ensures history { IfSome result.1 (IsRecorded network.now (pool held).budget (certificate_of result.0.certificate)) }
    ensures recorded { is_some result.1 ≡ is_some held.recorded }
    ensures told { result.2 ≡ account.least }
    ensures most { result.2 ≤ network.now.upper }
    ensures least { threshold (certificate_of result.0.certificate) ≤ result.2 }
{
    let (part, threshold) = account.close();
    meet(&low, &mut held, part);
    let own = wind_up(&low, &mut held);
    let (outcome, history) = conclude(network, low, held, own, halt);
    (outcome, history, threshold)
}

/// Makes its explorer, and dives until there is no leaf to take, memory is refused, be it for the explorer, or `halt` is past.
fn work<M: Incumbent, X: Explorers, G: Gate, H: Halt>(
    alloc: Global,
    network: &Network,
    explorers: &X,
    low: &Low<M>,
    held: &mut Pool<M>,
    account: &mut Account<M>,
    gate: &G,
    halt: &H,
)
    requires own { network.now ≡ M.network }
    requires explorers { X.network explorers.now ≡ M.network }
    requires search { IsSearch M.start (pool held.old) }
    requires spare { HasSpare 2 held.old.recorded }
    ensures goes { GoesOn M.start (pool held.old) (pool held.new) }
    ensures ready { StaysReady held.old held.new }
    ensures shares { account.new.part.shares ≡ account.old.part.shares }
    ensures falls { account.new.least ≤ account.old.least }
{
    held.law_kept();
    if let Ok(mut explorer) = explorers.make(alloc) {
        dive_all(
            alloc,
            network,
            low,
            held,
            account,
            &mut explorer,
            gate,
            halt,
        );
        drop(explorer);
    }
}

/// Dives until there is no leaf to take, memory is refused, or `halt` is past.
fn dive_all<M: Incumbent, E: Explore, G: Gate, H: Halt>(
    alloc: Global,
    network: &Network,
    low: &Low<M>,
    held: &mut Pool<M>,
    account: &mut Account<M>,
    explorer: &mut E,
    gate: &G,
    halt: &H,
)
    requires own { network.now ≡ M.network }
    requires explorer { E.made_of explorer.old ≡ M.network }
    requires search { IsSearch M.start (pool held.old) }
    requires spare { HasSpare 2 held.old.recorded }
    ensures goes { GoesOn M.start (pool held.old) (pool held.new) }
    ensures ready { StaysReady held.old held.new }
    ensures shares { account.new.part.shares ≡ account.old.part.shares }
    ensures falls { account.new.least ≤ account.old.least }
{
    held.law_kept();
    let mut limit = FEWEST_BACKTRACKS;
    while let Some(next) = dive(
        alloc, network, low, held, account, explorer, limit, gate, halt,
    ) {
        limit = next;
    }
}

/// One dive, of at most `limit` backtracks, and how many the next one may make: as many where its piece came too late, which no
/// piece of a single worker does. `None` where the search ends: there is no leaf to take, memory is refused or `halt` is past.
fn dive<M: Incumbent, E: Explore, G: Gate, H: Halt>(
    alloc: Global,
    network: &Network,
    low: &Low<M>,
    held: &mut Pool<M>,
    account: &mut Account<M>,
    explorer: &mut E,
    limit: u64,
    gate: &G,
    halt: &H,
) -> Option<u64>
    requires own { network.now ≡ M.network }
    requires explorer { E.made_of explorer.old ≡ M.network }
    requires search { IsSearch M.start (pool held.old) }
    requires spare { HasSpare 2 held.old.recorded }
    requires limit { IsLimit limit }
    ensures goes { GoesOn M.start (pool held.old) (pool held.new) }
    ensures ready { StaysReady held.old held.new }
    ensures shares { account.new.part.shares ≡ account.old.part.shares }
    ensures falls { account.new.least ≤ account.old.least }
    ensures explorer { E.made_of explorer.new ≡ E.made_of explorer.old }
    ensures next { IfSome result IsLimit }
    ensures more { IfSome result (λ next. HasMore (pool held.old) (pool held.new)) }
{
    if halt.past().is_some() {
        return None;
    }
    let known = account.knows();
    let want = wanted(held.nodes() == 0, known, limit, network.variables());
    let task = match take(network, held, WORKER, want) {
        Asked::Task { task } => task,
        Asked::Later | Asked::Done | Asked::Spent | Asked::Memory => return None,
    };
    match task.dive(alloc, network, explorer, low, account, limit, halt) {
        Ok(made) => {
            let before = held.seen();
            let handed = hand_in(network, low, held, account, made, limit);
            tell(network, held, gate, before);
            match handed {
                Ok(next) => Some(next),
                Err(Unplaced::Late) => Some(limit),
                Err(Unplaced::Memory) => None,
            }
        }
        Err(task) => {
            task.back(held);
            None
        }
    }
}

/// Tells a gate how far the search is, where it asks for it; before the last piece was handed in, the pool had seen `before`.
fn tell<M: Incumbent, G: Gate>(network: &Network, held: &Pool<M>, gate: &G, before: u64)
    requires own { network.now ≡ M.network }
{
    if let Some(news) = news(network, held, gate, before) {
        gate.tell(network, news);
    }
}
