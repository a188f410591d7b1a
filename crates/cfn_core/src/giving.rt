//! What a worker has made of a task takes the place of the task's leaf.

ghost use Rattle.std.specs.Prelude.{◌≡◌, ◌↔◌, ◌≤◌, MatchOption, IfOk, OnErr, IsTrue};
ghost use Rattle.cfn_core.specs.World.{note_at};
ghost use Rattle.cfn_core.specs.Actions.{Acts, CanGive, Give};
ghost use Rattle.cfn_core.specs.Machine.{IsReplyOf, reply_of, world_of};
ghost use Rattle.cfn_explore.specs.Values.{piece_of};

use crate::action::Reply;
use crate::copying::piece_copy;
use crate::hands::let_go;
use crate::world::World;
use cfn_explore::Piece;
use cfn_leaves::Handed;
use std::alloc::AllocError;

impl World<'_> {
    /// A worker gives what it has made of a task. An `Err`, want of memory, leaves the world as it was.
    pub(crate) fn give(&mut self, piece: &Piece, note: u64) -> Result<Reply, AllocError>
        requires { piece.now.network ≡ self.old.network }
        ensures network { self.new.network ≡ self.old.network }
        ensures acts { IfOk result (λ reply. Acts self.old.network (world_of self.old) (Give (piece_of piece.now) note) (reply_of reply) (world_of self.new)) }
        ensures of { IfOk result (IsReplyOf self.old.network) }
        ensures err { OnErr result (self.new ≡ self.old) }
    {
        if !self.has_worker(piece.task().worker()) {
            return Ok(Reply::Idle);
        }
        if !can_heed(self.notes.as_slice(), note, piece.threshold()) {
            return Ok(Reply::Idle);
        }
        self.put_piece(piece, note)
    }

    /// Puts a piece in the place of its leaf, and heeds its note. An `Err`, want of memory, leaves the world as it was.
    fn put_piece(&mut self, piece: &Piece, note: u64) -> Result<Reply, AllocError>
        requires network { piece.now.network ≡ self.old.network }
        requires can { CanGive (world_of self.old) (piece_of piece.now) note }
        ensures network { self.new.network ≡ self.old.network }
        ensures acts { IfOk result (λ reply. Acts self.old.network (world_of self.old) (Give (piece_of piece.now) note) (reply_of reply) (world_of self.new)) }
        ensures of { IfOk result (IsReplyOf self.old.network) }
        ensures err { OnErr result (self.new ≡ self.old) }
    {
        piece.law_kept();
        let given = piece_copy(*self.notes.allocator(), self.network, piece)?;
        match self.leaves.give(given) {
            Handed::Done => {
                self.seen = self.word;
                self.notes[note as usize] = None;
                let_go(&mut self.hands, piece.task().leaf());
                Ok(Reply::Done)
            }
            Handed::Gone { .. } => Ok(Reply::Gone),
            Handed::Memory { .. } => Err(AllocError),
        }
    }
}

/// Whether a note is there, and has seen at most a threshold.
fn can_heed(notes: &[Option<u64>], note: u64, threshold: u64) -> bool
    ensures { IsTrue result ↔ MatchOption (note_at notes.now note) ⊥ (λ seen. seen ≤ threshold) }
{
    match notes.get(note as usize) {
        Some(Some(seen)) => *seen <= threshold,
        Some(None) | None => false,
    }
}
