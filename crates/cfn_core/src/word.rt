//! What the workers do with the word: they look at it, lower it, note what they have seen of it, and are met.

ghost use Rattle.std.specs.Prelude.{◌≡◌, IfOk, OnErr};
ghost use Rattle.cfn_core.specs.Actions.{Acts, Look, Lower, Note, Meet};
ghost use Rattle.cfn_core.specs.Machine.{IsReplyOf, found_of, reply_of, world_of};

use crate::action::Reply;
use crate::seat::{is_there, keep_cheaper, offer, set_met, set_seen};
use crate::world::World;
use cfn_net::Scored;
use std::alloc::AllocError;

impl World<'_> {
    /// A worker reads the word. It takes no memory.
    pub(crate) fn look(&mut self, worker: u32) -> Reply
        ensures network { self.new.network ≡ self.old.network }
        ensures acts { Acts self.old.network (world_of self.old) (Look worker) (reply_of result) (world_of self.new) }
        ensures of { IsReplyOf self.old.network result }
    {
        if !is_there(self.seats.as_slice(), worker) {
            return Reply::Idle;
        }
        let word = self.word;
        set_seen(&mut self.seats, worker, word);
        Reply::Seen { threshold: word }
    }

    /// A worker has found an assignment, and lowers the word to its cost. It takes no memory.
    pub(crate) fn lower(&mut self, worker: u32, found: &Scored) -> Reply
        requires { found.now.network ≡ self.old.network }
        ensures network { self.new.network ≡ self.old.network }
        ensures acts { Acts self.old.network (world_of self.old) (Lower worker (found_of found.now.held)) (reply_of result) (world_of self.new) }
        ensures of { IsReplyOf self.old.network result }
    {
        if !is_there(self.seats.as_slice(), worker) {
            return Reply::Idle;
        }
        found.law_priced();
        let word = self.word.min(found.price());
        self.word = word;
        offer(&mut self.seats, worker, found, word);
        Reply::Seen { threshold: word }
    }

    /// A worker makes a note of what it has seen. An `Err`, want of memory, leaves the world as it was.
    pub(crate) fn note(&mut self, worker: u32) -> Result<Reply, AllocError>
        ensures network { self.new.network ≡ self.old.network }
        ensures acts { IfOk result (λ reply. Acts self.old.network (world_of self.old) (Note worker) (reply_of reply) (world_of self.new)) }
        ensures of { IfOk result (IsReplyOf self.old.network) }
        ensures err { OnErr result (self.new ≡ self.old) }
    {
        if !is_there(self.seats.as_slice(), worker) {
            return Ok(Reply::Idle);
        }
        let note = self.notes.len() as u64;
        let seen = self.seats[worker as usize].seen;
        self.notes.push(Some(seen))?;
        Ok(Reply::Noted { note })
    }

    /// A worker's view is joined into the pool's, and ends. It takes no memory.
    pub(crate) fn meet(&mut self, worker: u32) -> Reply
        ensures network { self.new.network ≡ self.old.network }
        ensures acts { Acts self.old.network (world_of self.old) (Meet worker) (reply_of result) (world_of self.new) }
        ensures of { IsReplyOf self.old.network result }
    {
        if !is_there(self.seats.as_slice(), worker) {
            return Reply::Idle;
        }
        let seat = &self.seats[worker as usize];
        keep_cheaper(&mut self.best, &seat.best);
        self.seen = self.seen.min(seat.seen);
        self.shares += 1;
        set_met(&mut self.seats, worker);
        Reply::Done
    }
}
