//! Which tasks lie in the workers' lanes, and a worker's ends of these.

ghost use Rattle.std.specs.Prelude.{◌≡◌, ◌≤◌, [], ◌∷◌, ◌++◌, length, IfOk, IfErr, IfSome, MatchOption};
ghost use Rattle.cfn_rota.specs.Balances.{AreWhole, AreWithin};
ghost use Rattle.cfn_rota.specs.Values.{Meets, EndsWith, access, lanes_of};
ghost use Rattle.cfn_explore.specs.Values.{IsTaskOf};

use crate::hand::InHand;
use cfn_explore::Task;
use cfn_low::Incumbent;
use cfn_rota::{Ends, Kind};
use std::marker::{Model, PhantomData};

/// For how many pushes a lane has room that no want of memory can refuse. A worker pushes at most three tasks at once, and only
/// where its lane is empty.
pub const ROOM: u32 = 64;

/// Tasks of the network of the search.
pub struct LaneTasks<M> {
    word: PhantomData<M>,
}

impl<M: Incumbent> Kind<Task> for LaneTasks<M> {
    ghost use Rattle.cfn_explore.specs.Values.{IsTaskOf};

    ghost fits = { IsTaskOf M.network };
}

/// A worker's ends of all lanes. What comes out of a lane is in the worker's hand.
#[derive(Drop)]
pub struct Lanes<M: Incumbent> {
    ends: Ends<Task, LaneTasks<M>>,
}

impl<M: Incumbent> Model for Lanes<M> {
    ghost use Rattle.cfn_rota.specs.Values.{EndsValue};
    ghost use Rattle.cfn_explore.specs.Values.{TaskValue};

    ghost Value = { EndsValue TaskValue };

    ghost view = { λ e. e.ends };
}

impl<M: Incumbent> Lanes<M> {
    /// The lanes of these ends.
    pub fn of(ends: Ends<Task, LaneTasks<M>>) -> Lanes<M>
        ensures { result ≡ ends }
    {
        Lanes { ends }
    }

    /// Pushes a task to its own lane. An `Err` gives it back, with the lane as it was, and comes only after as many pushes as
    /// the lane has room for.
    pub(crate) fn push(&mut self, task: Task) -> Result<(), Task>
        requires fits { IsTaskOf M.network task }
        ensures pushed { IfOk result (λ none. self.new ≡ record self.old { lane = record self.old.lane { pushed = self.old.lane.pushed ++ task ∷ [] } }) }
        ensures back { IfErr result (λ given. (given ≡ task) × (self.new ≡ self.old)) }
        ensures room { IfErr result (λ given. self.old.lane.room ≤ length self.old.lane.pushed) }
    {
        self.ends.push(task)
    }

    /// Takes the first task of its own lane. `None` comes only where the lane was empty at one moment: where its own end has
    /// all parts, it has taken all that was pushed.
    pub(crate) fn pop(&mut self) -> Option<InHand>
        ensures { MatchOption result
            ((self.new ≡ self.old) × (self.old.lane.parts ≡ 128 → AreWhole self.old.lane.pushed self.old.lane.taken []))
            (λ task. (self.new ≡ record self.old { lane = record self.old.lane { taken = self.old.lane.taken ++ task ∷ [] } }) × IsTaskOf M.network task × (self.old.lane.parts ≡ 128 → AreWithin self.new.lane.taken self.old.lane.pushed)) }
    {
        self.ends.pop().map(InHand::of)
    }

    /// Takes the first task of its own lane. Where none is there it steals one.
    pub(crate) fn find(&mut self) -> Option<InHand>
        ensures same { access self.new ≡ access self.old }
        ensures task { IfSome result (IsTaskOf M.network) }
    {
        self.ends.find().map(InHand::of)
    }

    /// Steals a task from the lanes of the others.
    pub(crate) fn steal(&mut self) -> Option<InHand>
        ensures same { access self.new ≡ access self.old }
        ensures task { IfSome result (IsTaskOf M.network) }
    {
        self.ends.steal().map(InHand::of)
    }

    /// Absorbs its own last thief, which is of its own lane.
    pub(crate) fn absorb_own(&mut self)
        requires last { EndsWith (lanes_of self.old.thieves) self.old.lane.lane }
        ensures meets { Meets (access self.old) (access self.new) self.old.lane.lane }
    {
        self.ends.absorb_own();
    }

    /// Two workers absorb each other's last thieves, which are of each other's lanes.
    pub(crate) fn exchange(&mut self, other: &mut Lanes<M>)
        requires mine { EndsWith (lanes_of self.old.thieves) other.old.lane.lane }
        requires theirs { EndsWith (lanes_of other.old.thieves) self.old.lane.lane }
        ensures meets { Meets (access self.old) (access self.new) other.old.lane.lane }
        ensures other_meets { Meets (access other.old) (access other.new) self.old.lane.lane }
    {
        self.ends.exchange(&mut other.ends);
    }
}
