//! What a worker has in hand: a task, or the piece that it made of one.
//!
//! A worker can't lose what it has in hand. Neither type is `Drop`, so no value of it can be let go, and no other module sees
//! its field. The ways out are those of this module: a task is laid in the worker's own lane, dived with or given back, and a
//! piece is given to the pool.

ghost use Rattle.std.specs.Prelude.{◌≡◌, [], ◌∷◌, ◌++◌, ◌<◌, ◌≤◌, min, length, IfOk, IfErr, OnOk};
ghost use Rattle.cfn_explore.specs.Falling.{HasFallen};
ghost use Rattle.cfn_pool.specs.Answers.{IsGiven};
ghost use Rattle.cfn_pool.specs.Recorded.{HasSpare};
ghost use Rattle.cfn_pool.specs.Views.{pool};
ghost use Rattle.cfn_explore.specs.Values.{IsTaskOf};
ghost use Rattle.cfn_search.specs.Searching.{IsSearch, GoesOn, IsMadeOf, IsReturned, IsUnplaced, StaysReady};

use crate::account::Account;
use crate::lanes::Lanes;
use cfn_explore::{Explore, Halt, Piece, Task};
use cfn_low::{Incumbent, Low};
use cfn_net::Network;
use cfn_pool::{Handed, Pool};
use std::alloc::Global;
use std::marker::Model;

/// A task that a worker has in hand.
pub struct InHand {
    task: Task,
}

impl Model for InHand {
    ghost use Rattle.cfn_explore.specs.Values.{TaskValue};

    ghost Value = { TaskValue };

    ghost view = { λ h. h.task };
}

impl InHand {
    /// A task that a worker takes in hand.
    pub(crate) fn of(task: Task) -> InHand
        ensures { result ≡ task }
    {
        InHand { task }
    }

    /// Lays it in the worker's own lane. An `Err` gives it back, with the lane as it was, and comes only after as many pushes as
    /// the lane has room for.
    pub(crate) fn lay<M: Incumbent>(self, lanes: &mut Lanes<M>) -> Result<(), InHand>
        requires own { IsTaskOf M.network self }
        ensures laid { IfOk result (λ none. lanes.new ≡ record lanes.old { lane = record lanes.old.lane { pushed = lanes.old.lane.pushed ++ self ∷ [] } }) }
        ensures back { IfErr result (λ given. (given ≡ self) × (lanes.new ≡ lanes.old)) }
        ensures room { IfErr result (λ given. lanes.old.lane.room ≤ length lanes.old.lane.pushed) }
    {
        let InHand { task } = self;
        lanes.push(task).map_err(InHand::of)
    }

    /// Dives below its leaf, with at most `backtracks`, at least 1, and until `halt` is past, and lowers the account's least
    /// threshold to the piece's. An `Err`, want of memory, gives it back.
    pub fn dive<M: Incumbent, E: Explore, H: Halt>(
        self,
        alloc: Global,
        network: &Network,
        explorer: &mut E,
        low: &Low<M>,
        account: &mut Account<M>,
        backtracks: u64,
        halt: &H,
    ) -> Result<Made, InHand>
        requires network { network.now ≡ E.made_of explorer.old }
        requires task { self.network ≡ E.made_of explorer.old }
        requires word { M.network ≡ E.made_of explorer.old }
        requires some { 1 ≤ backtracks }
        ensures falls { HasFallen M.network account.old.part account.new.part }
        ensures made { IfOk result (IsMadeOf E.keeps self backtracks (H.limited halt.now) account.new.part.seen) }
        ensures least { IfOk result (λ made. account.new.least ≡ min account.old.least made.threshold) }
        ensures same { IfErr result (λ given. account.new.least ≡ account.old.least) }
        ensures back { IfErr result (λ given. given ≡ self) }
        ensures explorer { E.made_of explorer.new ≡ E.made_of explorer.old }
    {
        let InHand { task } = self;
        match account.dive(alloc, network, explorer, task, low, backtracks, halt) {
            Ok(piece) => Ok(Made { piece }),
            Err(task) => Err(InHand { task }),
        }
    }

    /// Gives it back to the pool: its leaf is free again, if it was out to the task's worker. It takes no memory.
    pub fn back<M: Incumbent>(self, held: &mut Pool<M>)
        requires search { IsSearch M.start (pool held.old) }
        requires spare { HasSpare 2 held.old.recorded }
        ensures ready { StaysReady held.old held.new }
        ensures back { IsReturned held.old self.task held.new }
        ensures goes { GoesOn M.start (pool held.old) (pool held.new) }
    {
        let InHand { task } = self;
        held.law_kept();
        task.law_kept();
        held.back(&task);
    }
}

/// Why a piece is not in its leaf's place.
#[derive(Clone, Copy, PartialEq, Eq)]
pub enum Unplaced {
    /// Its leaf was not out any more, and the piece was let go.
    Late,
    /// There was no memory for it, or for its record, and its leaf is free again.
    Memory,
}

/// A piece that a worker made of a task.
pub struct Made {
    piece: Piece,
}

impl Model for Made {
    ghost use Rattle.cfn_explore.specs.Values.{PieceValue};

    ghost Value = { PieceValue };

    ghost view = { λ m. m.piece };
}

impl Made {
    /// Gives it to the pool with an account whose least threshold is at most its own. Where it is in its leaf's place, there are
    /// more nodes than before, and the pool has seen no more than the threshold at which it was made.
    ///
    /// An `Err` tells why it is not: its leaf was not out at the end of its task's path, and nothing changes; or there was no memory
    /// for it, and its leaf is free again, if it was out to the task's worker.
    pub(crate) fn give<M: Incumbent>(
        self,
        low: &Low<M>,
        held: &mut Pool<M>,
        account: &mut Account<M>,
    ) -> Result<(), Unplaced>
        requires own { self.network ≡ M.network }
        requires least { account.old.least ≤ self.threshold }
        requires search { IsSearch M.start (pool held.old) }
        requires spare { HasSpare 2 held.old.recorded }
        ensures goes { GoesOn M.start (pool held.old) (pool held.new) }
        ensures ready { StaysReady held.old held.new }
        ensures spare { OnOk result (HasSpare 3 held.new.recorded) }
        ensures gives { OnOk result (IsGiven M.network (pool held.old) self account.old.part.seen (pool held.new)) }
        ensures more { OnOk result ((pool held.old).nodes < (pool held.new).nodes) }
        ensures seen { OnOk result ((pool held.new).view.seen ≤ self.threshold) }
        ensures unplaced { IfErr result (λ why. IsUnplaced held.old self.task why held.new) }
        ensures account { account.new ≡ account.old }
    {
        let Made { piece } = self;
        held.law_kept();
        piece.law_kept();
        piece.task().law_kept();
        let note = account.note(low);
        match held.give(low, piece, note) {
            Handed::Done => Ok(()),
            Handed::Gone { .. } => Err(Unplaced::Late),
            Handed::Memory { piece, note: _ } => {
                held.back(piece.task());
                Err(Unplaced::Memory)
            }
        }
    }
}
