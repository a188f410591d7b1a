//! What lies under the lock: the pool, a count of its changes, and whether the search has to stop.

ghost use Rattle.std.specs.Prelude.{◌≡◌, ◌+◌, ◌≤◌, ◌^◌, ◌%◌, ◌==◌, true, false, None, is_some, length, IfSome, IsTrue, IsFalse};
ghost use Rattle.cfn_model.specs.declared.limits.TheConstants.{GREATEST};
ghost use Rattle.cfn_explore.specs.Telling.{AreBounds};
ghost use Rattle.cfn_pool.specs.Views.{pool};
ghost use Rattle.cfn_rota.specs.Values.{access};
ghost use Rattle.cfn_search.specs.Searching.{IsReturned};
ghost use Rattle.cfn_search.specs.Granting.{IsLimit, wanted as wish};
ghost use Rattle.cfn_search.specs.Boards.{IsBoard, IsHanded, IsLaid, IsOffered, Lays, Offers};

use crate::account::Account;
use crate::grants::wanted;
use crate::hand::{InHand, Made, Unplaced};
use crate::lanes::Lanes;
use crate::steps::{Asked, hand_in, news, take};
use cfn_explore::{Gate, News};
use cfn_low::{Incumbent, Low};
use cfn_net::Network;
use cfn_pool::Pool;
use std::marker::{Brand, Model};

/// Which search it is: how many nodes may be made, how many shares of the word its workers have, and whether it is recorded. No value of
/// it is made.
pub trait Crew {
    ghost use Rattle.std.specs.Prelude.{ℕ, Bool};

    ghost budget: { ℕ };

    ghost workers: { ℕ };

    ghost recorded: { Bool };
}

/// The name that one call picks for a search: at such a call the members are those that the caller says, and these are never
/// read.
impl Crew for Brand {
    ghost use Rattle.std.specs.Prelude.{false};

    ghost budget = { 0 };

    ghost workers = { 0 };

    ghost recorded = { false };
}

/// How many tasks a worker takes for its lane beside the one that it begins with.
const MORE_TASKS: u32 = 3;

/// The pool of a search, for all its workers.
#[derive(Drop)]
pub struct Board<M: Incumbent + Crew> {
    held: Pool<M>,
    /// How often it changed so that there may be a leaf to take, modulo 2^64.
    changes: u64,
    /// Whether memory was refused for a piece. Then no leaf is handed out any more.
    stopped: bool,
}

impl<M: Incumbent + Crew> Model for Board<M> {
    ghost use Rattle.cfn_search.specs.Boards.{BoardValue, IsBoard};

    ghost Value = { BoardValue };

    ghost view = { λ b. record { held = b.held; changes = b.changes; stopped = b.stopped } };

    ghost invariant = { λ b. IsBoard M.start M.budget M.workers M.recorded b.held };
}

/// The answer to a worker that asks for a leaf.
pub(crate) enum Offer {
    /// A task, and whether others were laid in the worker's lane.
    Task { task: InHand, more: bool },
    /// None now: no leaf is free, or all that the budget has left is granted. The count of changes is this.
    Later { changes: u64 },
    /// None any more: memory was refused for a piece.
    Stopped,
    /// None any more: no leaf is open.
    Done,
    /// None any more: the budget is spent.
    Spent,
    /// There is no memory for a leaf's path.
    Memory,
}

/// What a worker has of a piece that it gave.
#[derive(Clone, Copy)]
pub(crate) struct Given {
    /// How many backtracks its next dive may make. `None` where memory was refused for this piece or another, or for
    /// its dive.
    pub next: Option<u64>,
    /// How far the search is, where the gate asked for it.
    pub news: Option<News>,
}

impl<M: Incumbent + Crew> Board<M> {
    /// A pool at the beginning of a search.
    pub fn new(held: Pool<M>) -> Board<M>
        requires { IsBoard M.start M.budget M.workers M.recorded held }
        ensures { result ≡ record { held = held; changes = 0; stopped = false } }
    {
        Board {
            held,
            changes: 0,
            stopped: false,
        }
    }

    /// The pool again.
    pub fn into_pool(self) -> Pool<M>
        ensures same { result ≡ self.held }
        ensures board { IsBoard M.start M.budget M.workers M.recorded result }
    {
        let Board { held, .. } = self;
        held
    }

    /// How often it changed, modulo 2^64.
    pub(crate) fn changes(&self) -> u64
        ensures { result ≡ self.now.changes }
    {
        self.changes
    }

    /// Counts a change.
    pub(crate) fn tell(&mut self)
        ensures { self.new ≡ record self.old { changes = (self.old.changes + 1) % 2 ^ 64 } }
    {
        self.changes = self.changes.wrapping_add(1);
    }

    /// Asks for a leaf. Where there is one, up to three more go to the worker's lane, which counts as a change. Else nothing
    /// changes.
    pub(crate) fn take(
        &mut self,
        network: &Network,
        worker: u32,
        known: bool,
        limit: u64,
        lanes: &mut Lanes<M>,
    ) -> Offer
        requires own { network.now ≡ M.network }
        requires limit { IsLimit limit }
        ensures task { IsOffered M.network result }
        ensures offers { Offers M.network worker (wish ((pool self.old.held).nodes == 0) known limit (length M.network.sizes)) self.old lanes.old result self.new lanes.new }
        ensures same { access lanes.new ≡ access lanes.old }
    {
        if self.stopped {
            return Offer::Stopped;
        }
        let want = wanted(self.held.nodes() == 0, known, limit, network.variables());
        match take(network, &mut self.held, worker, want) {
            Asked::Task { task } => {
                let more = self.fill(network, worker, want, lanes);
                Offer::Task { task, more }
            }
            Asked::Later => Offer::Later {
                changes: self.changes,
            },
            Asked::Done => Offer::Done,
            Asked::Spent => Offer::Spent,
            Asked::Memory => Offer::Memory,
        }
    }

    /// Takes more leaves for a worker's lane, up to three and up to the first answer other than a task; whether there were some.
    fn fill(&mut self, network: &Network, worker: u32, want: u64, lanes: &mut Lanes<M>) -> bool
        requires own { network.now ≡ M.network }
        requires wants { 1 ≤ want }
        requires most { want ≤ GREATEST }
        ensures lays { Lays M.network worker want 3 (pool self.old.held) lanes.old result (pool self.new.held) lanes.new }
        ensures stopped { self.new.stopped ≡ self.old.stopped }
    {
        let mut more = false;
        for _ in 0..MORE_TASKS {
            if !self.lay(network, worker, want, lanes) {
                break;
            }
            more = true;
        }
        if more {
            self.tell();
        }
        more
    }

    /// Takes one leaf for a worker's lane; whether there was one, and room for it. If not, the pool and the lane are as before.
    fn lay(&mut self, network: &Network, worker: u32, want: u64, lanes: &mut Lanes<M>) -> bool
        requires own { network.now ≡ M.network }
        requires wants { 1 ≤ want }
        requires most { want ≤ GREATEST }
        ensures lays { IsTrue result → IsLaid M.network worker want (pool self.old.held) lanes.old (pool self.new.held) lanes.new }
        ensures none { IsFalse result → (pool self.new.held ≡ pool self.old.held) × (lanes.new ≡ lanes.old) }
        ensures stopped { self.new.stopped ≡ self.old.stopped }
    {
        self.held.law_kept();
        let task = match take(network, &mut self.held, worker, want) {
            Asked::Task { task } => task,
            Asked::Later | Asked::Done | Asked::Spent | Asked::Memory => return false,
        };
        match task.lay(lanes) {
            Ok(()) => true,
            Err(task) => {
                self.back(task);
                false
            }
        }
    }

    /// Puts a piece in its leaf's place. Where there is no memory for it, the search stops; where its leaf is not out any more, it
    /// is let go. A gate that asks for it gets to know how far the search is.
    pub(crate) fn give<G: Gate>(
        &mut self,
        network: &Network,
        low: &Low<M>,
        account: &mut Account<M>,
        made: Made,
        limit: u64,
        gate: &G,
    ) -> Given
        requires network { network.now ≡ M.network }
        requires own { made.network ≡ M.network }
        requires least { account.old.least ≤ made.threshold }
        requires limit { IsLimit limit }
        ensures account { account.new ≡ account.old }
        ensures handed { IsHanded M.network self.old made account.old.part.seen self.new }
        ensures stops { IsTrue self.new.stopped → result.next ≡ None }
        ensures goes { IsFalse self.new.stopped → is_some result.next ≡ true }
        ensures next { IfSome result.next IsLimit }
        ensures news { IfSome result.news (λ news. AreBounds M.network news.bounds) }
    {
        self.tell();
        let before = self.held.seen();
        let next = self.put(network, low, account, made, limit);
        Given {
            next: if self.stopped { None } else { Some(next) },
            news: news(network, &self.held, gate, before),
        }
    }

    /// Puts a piece in its leaf's place, and stops the search where there is no memory for it. It answers how many backtracks the
    /// next dive may make: as many as before where the piece is not in its leaf's place.
    fn put(
        &mut self,
        network: &Network,
        low: &Low<M>,
        account: &mut Account<M>,
        made: Made,
        limit: u64,
    ) -> u64
        requires network { network.now ≡ M.network }
        requires own { made.network ≡ M.network }
        requires least { account.old.least ≤ made.threshold }
        requires limit { IsLimit limit }
        ensures account { account.new ≡ account.old }
        ensures handed { IsHanded M.network self.old made account.old.part.seen self.new }
        ensures next { IsLimit result }
    {
        match hand_in(network, low, &mut self.held, account, made, limit) {
            Ok(next) => next,
            Err(Unplaced::Late) => limit,
            Err(Unplaced::Memory) => {
                self.stopped = true;
                limit
            }
        }
    }

    /// Frees the leaf of a task whose worker ends before it has dived there, for another worker.
    pub(crate) fn back(&mut self, task: InHand)
        ensures back { IsReturned self.old.held task.task self.new.held }
        ensures stopped { self.new.stopped ≡ self.old.stopped }
    {
        self.tell();
        task.back(&mut self.held);
    }
}
