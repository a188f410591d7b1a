//! What the workers do with the pool's leaves: they take one, or give one back, and the pool calls leaves back and closes
//! them. Each is a call on the leaves (cfn_leaves).

ghost use Rattle.std.specs.Prelude.{◌≡◌, ◌↔◌, IfOk, OnErr, IsTrue};
ghost use Rattle.cfn_core.specs.Actions.{Acts, CanTake, IsThere, Take, Back, Recall, Sweep};
ghost use Rattle.cfn_core.specs.Machine.{IsReplyOf, reply_of, world_of};

use crate::action::Reply;
use crate::hands::{Hand, let_go};
use crate::world::World;
use cfn_explore::Task;
use cfn_leaves::Taken;
use std::alloc::AllocError;

impl World<'_> {
    /// A worker asks for a leaf. An `Err`, want of memory, leaves the world as it was.
    pub(crate) fn take(&mut self, worker: u32, want: u64) -> Result<Reply, AllocError>
        ensures network { self.new.network ≡ self.old.network }
        ensures acts { IfOk result (λ reply. Acts self.old.network (world_of self.old) (Take worker want) (reply_of reply) (world_of self.new)) }
        ensures of { IfOk result (IsReplyOf self.old.network) }
        ensures err { OnErr result (self.new ≡ self.old) }
    {
        if !self.has_worker(worker) || want == 0 {
            return Ok(Reply::Idle);
        }
        self.take_leaf(worker, want)
    }

    /// Whether a worker is there. One whose view was met is there too.
    pub(crate) fn has_worker(&self, worker: u32) -> bool
        ensures { IsTrue result ↔ IsThere (world_of self.now) worker }
    {
        (worker as usize) < self.seats.len()
    }

    /// A worker that is there asks for a leaf, to make nodes below it. An `Err`, want of memory, leaves the world as it was.
    fn take_leaf(&mut self, worker: u32, want: u64) -> Result<Reply, AllocError>
        requires { CanTake (world_of self.old) worker want }
        ensures network { self.new.network ≡ self.old.network }
        ensures acts { IfOk result (λ reply. Acts self.old.network (world_of self.old) (Take worker want) (reply_of reply) (world_of self.new)) }
        ensures of { IfOk result (IsReplyOf self.old.network) }
        ensures err { OnErr result (self.new ≡ self.old) }
    {
        self.hands.reserve(1)?;
        match self.leaves.take(self.network, worker, want) {
            Taken::Given { task } => {
                self.hands.push_reserved(Hand::of(&task));
                Ok(Reply::Given { task })
            }
            Taken::Empty => Ok(Reply::Empty),
            Taken::Spent => Ok(Reply::Spent),
            Taken::Again => Ok(Reply::Again),
            Taken::Memory => Err(AllocError),
        }
    }

    /// A worker gives a task back. It takes no memory.
    pub(crate) fn back(&mut self, task: &Task) -> Reply
        ensures network { self.new.network ≡ self.old.network }
        ensures acts { Acts self.old.network (world_of self.old) (Back task.now.task) (reply_of result) (world_of self.new) }
        ensures of { IsReplyOf self.old.network result }
    {
        if !self.has_worker(task.worker()) {
            return Reply::Idle;
        }
        if !self.leaves.back(task) {
            return Reply::NotOut;
        }
        let_go(&mut self.hands, task.leaf());
        Reply::Done
    }

    /// Every leaf that is out is called back. It takes no memory.
    pub(crate) fn call_back(&mut self) -> Reply
        ensures network { self.new.network ≡ self.old.network }
        ensures acts { Acts self.old.network (world_of self.old) Recall (reply_of result) (world_of self.new) }
        ensures of { IsReplyOf self.old.network result }
    {
        self.leaves.recall();
        Reply::Done
    }

    /// The pool reads the word, and closes the free leaves whose floor reaches it. It takes no memory.
    pub(crate) fn close_free(&mut self) -> Reply
        ensures network { self.new.network ≡ self.old.network }
        ensures acts { Acts self.old.network (world_of self.old) Sweep (reply_of result) (world_of self.new) }
        ensures of { IsReplyOf self.old.network result }
    {
        self.leaves.sweep(self.word);
        self.seen = self.word;
        Reply::Done
    }
}
