//! What a search that stopped hands out.

ghost use Rattle.std.specs.Prelude.{◌≡◌, ◌≤◌, ◌+◌, min, IfSome, IsTrue, is_some};
ghost use Rattle.std.specs.Option.{ForSome};
ghost use Rattle.cfn_model.specs.Certificate.{IsBest, threshold, threshold_of};
ghost use Rattle.cfn_net.specs.Scoring.{IsPriced};
ghost use Rattle.cfn_proof.specs.Certificates.{certificate_of, solution_of};
ghost use Rattle.cfn_low.specs.Outcome.{IsOutcome, timed_nodes};
ghost use Rattle.cfn_machine.specs.Parts.{TellsOwn};
ghost use Rattle.cfn_machine.specs.Pool.{tree_of};
ghost use Rattle.cfn_machine.specs.Word.{all_shares};
ghost use Rattle.cfn_pool.specs.Recorded.{HasSpare, IsExactRecordOf};
ghost use Rattle.cfn_pool.specs.Views.{pool};
ghost use Rattle.cfn_search.specs.Searching.{IsSearch};
ghost use Rattle.cfn_search.specs.Recording.{IsRecorded};
ghost use Rattle.cfn_search.specs.Stopping.{IsEnded, IsLast, IsStop};

use cfn_explore::Halt;
use cfn_low::{Holder, Incumbent, Low, Outcome, Stop};
use cfn_net::{Network, Scored};
use cfn_pool::Pool;
use cfn_proof::Certificate;
use cfn_record::History;

/// Joins a worker's part of the word into the pool's, which has seen the lesser of both then. It takes no memory.
pub(crate) fn meet<M: Incumbent>(low: &Low<M>, held: &mut Pool<M>, part: Holder<M>)
    requires search { IsSearch M.start (pool held.old) }
    requires shares { (pool held.old).view.shares + part.shares ≤ all_shares }
    ensures search { IsSearch M.start (pool held.new) }
    ensures budget { (pool held.new).budget ≡ (pool held.old).budget }
    ensures shares { (pool held.new).view.shares ≡ (pool held.old).view.shares + part.shares }
    ensures seen { (pool held.new).view.seen ≡ min (pool held.old).view.seen part.seen }
    ensures recorded { held.new.recorded ≡ held.old.recorded }
{
    held.meet(low, part);
}

/// Calls back what is out, and closes what need not be searched, where all parts of the word were met; and answers whether some leaf
/// that is open then is not one that was left to others. It takes no memory: where a record is kept, there has to be room for two
/// entries.
pub(crate) fn wind_up<M: Incumbent>(low: &Low<M>, held: &mut Pool<M>) -> bool
    requires search { IsSearch M.start (pool held.old) }
    requires shares { (pool held.old).view.shares ≡ all_shares }
    requires spare { HasSpare 2 held.old.recorded }
    ensures ended { IsEnded M.start (pool held.new) }
    ensures budget { (pool held.new).budget ≡ (pool held.old).budget }
    ensures last { IsLast M.network (pool held.new) }
    ensures own { TellsOwn result M.start.aside (tree_of (pool held.new).tree) }
    ensures falls { (pool held.new).view.seen ≤ (pool held.old).view.seen }
    ensures recorded { IfSome held.new.recorded (λ r. IsExactRecordOf M.network (pool held.new) r.told) }
    ensures kept { is_some held.new.recorded ≡ is_some held.old.recorded }
{
    held.law_kept();
    let own = held.has_own();
    held.recall();
    held.sweep(low);
    own
}

/// The outcome of a search that was wound up; `own` is whether some open leaf is not one that was left to others. The certificate's
/// threshold is what the pool has seen. Beside it is what was done to the pool, where that is recorded. It takes no memory.
pub(crate) fn conclude<M: Incumbent, H: Halt>(
    network: &Network,
    low: Low<M>,
    held: Pool<M>,
    own: bool,
    halt: &H,
) -> (Outcome, Option<History>)
    requires own { network.now ≡ M.network }
    requires ended { IsEnded M.start (pool held) }
    requires tells { TellsOwn own M.start.aside (tree_of (pool held).tree) }
    requires last { IsLast M.network (pool held) }
    requires recorded { IfSome held.recorded (λ r. IsExactRecordOf M.network (pool held) r.told) }
    ensures outcome { IsOutcome network.now M.start (timed_nodes (pool held).budget (H.limited halt.now)) result.0 }
    ensures threshold { threshold (certificate_of result.0.certificate) ≡ (pool held).view.seen }
    ensures history { IfSome result.1 (IsRecorded network.now (pool held).budget (certificate_of result.0.certificate)) }
    ensures kept { is_some result.1 ≡ is_some held.recorded }
{
    network.law_limits();
    held.law_kept();
    let lower = held.bound();
    let leaves = held.open_leaves();
    let stop = stop_of(leaves, own, held.nodes(), held.budget(), halt);
    let finished = held.finish();
    finished.tree.law_linked();
    let (best, _) = low.end(finished.holder);
    let outcome = Outcome {
        certificate: Certificate {
            variables: network.variables(),
            functions: network.functions(),
            upper: network.ub(),
            best: below(best, network.ub()),
            lower,
            tree: finished.tree,
        },
        rows: finished.rows,
        nodes: finished.nodes,
        stop,
    };
    (outcome, finished.history)
}

/// Why a search stopped: where leaves are open, all are others'; or one is its own, and the budget is spent, or time is past, or else
/// memory was refused.
fn stop_of<H: Halt>(leaves: u64, own: bool, nodes: u64, budget: u64, halt: &H) -> Stop
    ensures { IsStop result leaves own nodes budget (H.limited halt.now) }
{
    if leaves == 0 {
        return Stop::Done;
    }
    if !own {
        return Stop::Part;
    }
    if nodes == budget {
        return Stop::Budget;
    }
    match halt.past() {
        Some(_) => Stop::Time,
        None => Stop::Memory,
    }
}

/// A buffer that holds an assignment whose cost is below the upper bound, or nothing. It takes no memory.
fn below(best: Scored, upper: u64) -> Option<Scored>
    requires top { upper ≡ best.network.upper }
    requires most { threshold_of best.network.upper best.held ≤ upper }
    ensures priced { IsPriced best.network best.held }
    ensures best { IsBest best.network (solution_of result) }
    ensures price { threshold_of best.network.upper (solution_of result) ≡ threshold_of best.network.upper best.held }
    ensures held { ForSome result (λ scored. IsTrue (is_some scored.held)) }
{
    best.law_priced();
    if best.price() < upper {
        Some(best)
    } else {
        None
    }
}
