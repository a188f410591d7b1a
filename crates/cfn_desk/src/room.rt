//! Bytes in room that is taken once and never grows.

use std::alloc::{AllocError, Global};
use std::marker::Model;

/// The room has no place for all of the piece.
#[derive(Clone, Copy, Debug, PartialEq, Eq)]
pub struct Full;

/// Bytes, up to a limit for which memory was taken.
#[derive(Drop)]
pub(crate) struct Room {
    bytes: Vec<u8>,
    limit: usize,
}

impl Model for Room {
    ghost use Rattle.std.specs.Prelude.{◌≤◌, vec_len, vec_capacity};
    ghost use Rattle.cfn_desk.specs.Room.{Bounded};

    ghost Value = { Bounded };

    ghost view = { λ room. record { bytes = room.bytes.items; limit = room.limit } };

    ghost invariant = { λ room.
        (room.limit ≤ vec_capacity room.bytes) × (vec_len room.bytes ≤ room.limit) };
}

impl Room {
    ghost use Rattle.std.specs.Prelude.{◌≡◌, ◌+◌, ◌<◌, ◌↔◌, [], ◌++◌, length, IfOk, IsErr, OnOk, OnErr};

    /// Takes memory for `limit` bytes.
    pub(crate) fn make(alloc: Global, limit: usize) -> Result<Room, AllocError>
        ensures { IfOk result (λ room. room ≡ record { bytes = []; limit = limit }) }
    {
        Ok(Room {
            bytes: Vec::with_capacity(alloc, limit)?,
            limit,
        })
    }

    pub(crate) fn as_slice(&self) -> &[u8]
        ensures { result.now ≡ self.now.bytes }
    {
        self.bytes.as_slice()
    }

    pub(crate) fn clear(&mut self)
        ensures { self.new ≡ record self.old { bytes = [] } }
    {
        self.bytes.clear();
    }

    /// Adds a piece, all of it or nothing.
    #[inline(always)]
    pub(crate) fn add(&mut self, piece: &[u8]) -> Result<(), Full>
        ensures full { IsErr result ↔ (self.old.limit < length self.old.bytes + length piece.now) }
        ensures ok { OnOk result
            (self.new ≡ record self.old { bytes = self.old.bytes ++ piece.now }) }
        ensures err { OnErr result (self.new ≡ self.old) }
    {
        if piece.len() > self.limit - self.bytes.len() {
            return Err(Full);
        }
        self.bytes.extend_from_slice(piece).map_err(|_| Full)
    }
}
