//! One worker: it takes tasks from its lane, from those of others or from the pool, dives, and gives back what it made, until
//! there is no leaf to take. Then it gives back what its lane holds.

ghost use Rattle.std.specs.Prelude.{◌≡◌, ◌≤◌, [], ◌∷◌, ◌++◌, map, length, IfSome, MatchOption};
ghost use Rattle.cfn_rota.specs.Balances.{AreWhole, AreWithin};
ghost use Rattle.cfn_rota.specs.Values.{AreAll, EndsWith, Meets, lanes_of};
ghost use Rattle.cfn_explore.specs.Telling.{AreBounds};
ghost use Rattle.cfn_pool.specs.Recorded.{HasSpare};
ghost use Rattle.cfn_pool.specs.Views.{pool};
ghost use Rattle.cfn_explore.specs.Values.{IsTaskOf};
ghost use Rattle.cfn_search.specs.Accounts.{least_of, reach};
ghost use Rattle.cfn_search.specs.Boards.{IsOffered};
ghost use Rattle.cfn_search.specs.Searching.{IsSearch, GoesOn, StaysReady};

use crate::account::{Account, Threshold};
use crate::board::{Board, Crew, Given, Offer};
use crate::grants::FEWEST_BACKTRACKS;
use crate::hand::InHand;
use crate::lanes::Lanes;
use cfn_explore::{Explore, Explorers, Gate, Halt, News, Point};
use cfn_low::{Holder, Incumbent, Low};
use cfn_net::Network;
use cfn_pool::Pool;
use std::alloc::Global;
use std::marker::Model;
use std::sync::{Condvar, Mutex, Wait};

/// A worker: its number, how many backtracks its next dive may make, its account of the word, whose part has one share, and
/// its ends of the lanes of tasks. Contracts see these ends, and the least threshold at which it made a piece.
///
/// It is not `Drop`, so no worker can be let go but by `close`, once nothing is left in its lane.
pub struct Worker<M: Incumbent> {
    number: u32,
    limit: u64,
    account: Account<M>,
    lanes: Lanes<M>,
}

impl<M: Incumbent> Model for Worker<M> {
    ghost use Rattle.std.specs.Prelude.{◌≡◌};
    ghost use Rattle.cfn_search.specs.Accounts.{WorkerValue};
    ghost use Rattle.cfn_search.specs.Granting.{IsLimit};

    ghost Value = { WorkerValue };

    ghost view = { λ w. record { ends = w.lanes; least = w.account.least } };

    ghost invariant = { λ w. (w.account.part.shares ≡ 1) × IsLimit w.limit };
}

/// What all workers share.
#[derive(Drop)]
pub struct Shared<'a, M: Incumbent + Crew, X, G, H> {
    pub network: &'a Network,
    /// What makes explorers for the network.
    pub explorers: &'a X,
    pub low: &'a Low<M>,
    pub board: &'a Mutex<Board<M>>,
    /// Told at each change of the board.
    pub changed: &'a Condvar,
    pub gate: &'a G,
    /// When no worker takes a leaf any more, and each ends its dive.
    pub halt: &'a H,
}

impl<M: Incumbent> Worker<M> {
    /// A worker that has not dived.
    pub fn new(number: u32, part: Holder<M>, lanes: Lanes<M>) -> Worker<M>
        requires { part.shares ≡ 1 }
        ensures { result ≡ record { ends = lanes; least = part.seen } }
    {
        Worker {
            number,
            limit: FEWEST_BACKTRACKS,
            account: Account::open(part),
            lanes,
        }
    }

    /// Puts its own lane together with all thieves of it, and gives the workers before it back the thieves of theirs.
    pub fn gather(&mut self, others: &mut [Worker<M>])
        requires all { AreAll (map reach others.old ++ reach self.old ∷ []) }
        ensures whole { self.new.ends.lane.parts ≡ 128 }
        ensures others { AreAll (map reach others.new) }
        ensures count { length others.new ≡ length others.old }
        ensures least { self.new.least ≡ self.old.least }
        ensures leasts { map least_of others.new ≡ map least_of others.old }
    {
        self.lanes.absorb_own();
        let mut left = others.len();
        while left > 0 {
            left -= 1;
            self.exchange(&mut others[left]);
        }
    }

    /// Two workers absorb each other's last thieves, which are of each other's lanes.
    fn exchange(&mut self, other: &mut Worker<M>)
        requires mine { EndsWith (lanes_of self.old.ends.thieves) other.old.ends.lane.lane }
        requires theirs { EndsWith (lanes_of other.old.ends.thieves) self.old.ends.lane.lane }
        ensures meets { Meets (reach self.old) (reach self.new) other.old.ends.lane.lane }
        ensures other_meets { Meets (reach other.old) (reach other.new) self.old.ends.lane.lane }
        ensures least { self.new.least ≡ self.old.least }
        ensures other_least { other.new.least ≡ other.old.least }
    {
        self.lanes.exchange(&mut other.lanes);
    }

    /// Gives back all that is left in its whole lane.
    pub fn give_left(&mut self, held: &mut Pool<M>)
        requires search { IsSearch M.start (pool held.old) }
        requires spare { HasSpare 2 held.old.recorded }
        requires whole { self.old.ends.lane.parts ≡ 128 }
        ensures goes { GoesOn M.start (pool held.old) (pool held.new) }
        ensures ready { StaysReady held.old held.new }
        ensures whole { self.new.ends.lane.parts ≡ 128 }
        ensures empty { AreWhole self.new.ends.lane.pushed self.new.ends.lane.taken [] }
        ensures least { self.new.least ≡ self.old.least }
    {
        while let Some(task) = self.take_left() {
            task.back(held);
        }
    }

    /// Takes a task that is left in its lane.
    fn take_left(&mut self) -> Option<InHand>
        ensures { MatchOption result
            ((self.new ≡ self.old) × (self.old.ends.lane.parts ≡ 128 → AreWhole self.old.ends.lane.pushed self.old.ends.lane.taken []))
            (λ task. (self.new ≡ record self.old { ends = record self.old.ends { lane = record self.old.ends.lane { taken = self.old.ends.lane.taken ++ task ∷ [] } } }) × (task.network ≡ M.network) × (self.old.ends.lane.parts ≡ 128 → AreWithin self.new.ends.lane.taken self.old.ends.lane.pushed)) }
    {
        self.lanes.pop()
    }

    /// Its part of the word, and the least threshold at which it made a piece, where its lane is whole and all that was pushed
    /// there was taken.
    pub fn close(self) -> (Holder<M>, Threshold)
        requires whole { self.ends.lane.parts ≡ 128 }
        requires empty { AreWhole self.ends.lane.pushed self.ends.lane.taken [] }
        ensures share { result.0.shares ≡ 1 }
        ensures least { result.1 ≡ self.least }
        ensures seen { result.0.seen ≤ result.1 }
        ensures most { result.1 ≤ M.network.upper }
    {
        let Worker {
            number: _,
            limit: _,
            account,
            lanes: _,
        } = self;
        account.close()
    }
}

impl<M: Incumbent + Crew> Worker<M> {
    /// Takes leaves and dives until there is no leaf to take, memory is refused or the halt is past, and gives back what its lane
    /// holds then.
    /// Its explorer it makes itself, so that its memory is its own thread's.
    pub fn work<X: Explorers, R: Wait, G: Gate, H: Halt>(
        &mut self,
        rt: &R,
        alloc: Global,
        shared: &Shared<'_, M, X, G, H>,
    )
        requires network { shared.now.network.now ≡ M.network }
        requires explorers { X.network shared.now.explorers.now ≡ M.network }
        ensures same { reach self.new ≡ reach self.old }
        ensures falls { self.new.least ≤ self.old.least }
    {
        if let Ok(mut explorer) = shared.explorers.make(alloc) {
            self.dive_all(rt, alloc, shared, &mut explorer);
            drop(explorer);
        }
        self.give_up(rt, shared);
        shared.board.lock(rt).tell();
        shared.changed.notify_all();
        shared.gate.pass(self.number, Point::Ended);
    }

    /// Takes leaves and dives until there is no leaf to take, memory is refused or the halt is past.
    fn dive_all<E: Explore, X, R: Wait, G: Gate, H: Halt>(
        &mut self,
        rt: &R,
        alloc: Global,
        shared: &Shared<'_, M, X, G, H>,
        explorer: &mut E,
    )
        requires network { shared.now.network.now ≡ M.network }
        requires explorer { E.made_of explorer.old ≡ M.network }
        ensures same { reach self.new ≡ reach self.old }
        ensures falls { self.new.least ≤ self.old.least }
    {
        for _ in rt.forever() {
            let Some(task) = self.ask(rt, shared) else {
                break;
            };
            shared.gate.pass(self.number, Point::Taken);
            if !self.explore(rt, alloc, shared, explorer, task) {
                break;
            }
        }
    }

    /// Finds a task, and waits while others may still bring one; `None` where there is none any more, or the halt is past.
    fn ask<X, R: Wait, G: Gate, H: Halt>(
        &mut self,
        rt: &R,
        shared: &Shared<'_, M, X, G, H>,
    ) -> Option<InHand>
        requires { shared.now.network.now ≡ M.network }
        ensures task { IfSome result (IsTaskOf M.network) }
        ensures same { reach self.new ≡ reach self.old }
        ensures least { self.new.least ≡ self.old.least }
    {
        for _ in rt.forever() {
            if shared.halt.past().is_some() {
                return None;
            }
            if let Some(task) = self.lanes.find() {
                return Some(task);
            }
            match self.ask_board(rt, shared) {
                Offer::Task { task, more } => {
                    if more {
                        shared.changed.notify_all();
                    }
                    return Some(task);
                }
                Offer::Later { changes } => {
                    if let Some(task) = self.lanes.steal() {
                        return Some(task);
                    }
                    self.wait(rt, shared, changes);
                }
                Offer::Stopped | Offer::Done | Offer::Spent | Offer::Memory => return None,
            }
        }
        None
    }

    /// Asks the board for a leaf, and for more for its lane.
    fn ask_board<X, R: Wait, G: Gate, H>(
        &mut self,
        rt: &R,
        shared: &Shared<'_, M, X, G, H>,
    ) -> Offer
        requires { shared.now.network.now ≡ M.network }
        ensures offer { IsOffered M.network result }
        ensures same { reach self.new ≡ reach self.old }
        ensures least { self.new.least ≡ self.old.least }
    {
        let known = self.account.knows();
        shared.board.lock(rt).take(
            shared.network,
            self.number,
            known,
            self.limit,
            &mut self.lanes,
        )
    }

    /// Waits while the board has changed so often.
    fn wait<X, R: Wait, G: Gate, H>(&self, rt: &R, shared: &Shared<'_, M, X, G, H>, changes: u64) {
        shared.gate.pass(self.number, Point::Waiting);
        let board = shared.board.lock(rt);
        let _board = shared
            .changed
            .wait_while(rt, board, |board| board.changes() == changes);
    }

    /// Gives back what its lane holds, for other workers.
    fn give_up<X, R: Wait, G: Gate, H>(&mut self, rt: &R, shared: &Shared<'_, M, X, G, H>)
        ensures same { reach self.new ≡ reach self.old }
        ensures least { self.new.least ≡ self.old.least }
    {
        for _ in rt.forever() {
            let Some(task) = self.lanes.pop() else {
                break;
            };
            shared.board.lock(rt).back(task);
        }
    }

    /// Dives below a task's leaf, and gives back what was made; whether the worker goes on.
    fn explore<E: Explore, X, R: Wait, G: Gate, H: Halt>(
        &mut self,
        rt: &R,
        alloc: Global,
        shared: &Shared<'_, M, X, G, H>,
        explorer: &mut E,
        task: InHand,
    ) -> bool
        requires network { shared.now.network.now ≡ M.network }
        requires explorer { E.made_of explorer.old ≡ M.network }
        requires task { IsTaskOf M.network task }
        ensures explorer { E.made_of explorer.new ≡ E.made_of explorer.old }
        ensures same { reach self.new ≡ reach self.old }
        ensures falls { self.new.least ≤ self.old.least }
    {
        let dived = task.dive(
            alloc,
            shared.network,
            explorer,
            shared.low,
            &mut self.account,
            self.limit,
            shared.halt,
        );
        shared.gate.pass(self.number, Point::BeforeGive);
        let given = match dived {
            Ok(made) => shared.board.lock(rt).give(
                shared.network,
                shared.low,
                &mut self.account,
                made,
                self.limit,
                shared.gate,
            ),
            Err(task) => {
                shared.board.lock(rt).back(task);
                Given {
                    next: None,
                    news: None,
                }
            }
        };
        shared.changed.notify_all();
        tell(shared, given.news);
        match given.next {
            Some(limit) => {
                self.limit = limit;
                true
            }
            None => false,
        }
    }
}

/// Tells the gate how far the search is, where it asked for it.
fn tell<M: Incumbent + Crew, X, G: Gate, H>(shared: &Shared<'_, M, X, G, H>, news: Option<News>)
    requires network { shared.now.network.now ≡ M.network }
    requires hold { IfSome news (λ news. AreBounds M.network news.bounds) }
{
    if let Some(news) = news {
        shared.gate.tell(shared.network, news);
    }
}
