//! A name in room that is taken once.

use crate::room::Full;
use std::alloc::{AllocError, Global};
use std::marker::Model;

/// A name of up to `limit` bytes.
#[derive(Drop)]
pub struct NameRoom {
    text: String,
    limit: usize,
}

impl Model for NameRoom {
    ghost use Rattle.std.specs.Prelude.{string_bytes};
    ghost use Rattle.cfn_desk.specs.Room.{Bounded};

    ghost Value = { Bounded };

    ghost view = { λ name. record { bytes = string_bytes name.text; limit = name.limit } };
}

impl NameRoom {
    ghost use Rattle.std.specs.Prelude.{◌≡◌, ◌≤◌, [], ◌++◌, length, IfOk, OnOk};

    /// Takes memory for a name of `limit` bytes.
    pub(crate) fn make(alloc: Global, limit: usize) -> Result<NameRoom, AllocError>
        ensures { IfOk result (λ name. name ≡ record { bytes = []; limit = limit }) }
    {
        Ok(NameRoom {
            text: String::with_capacity(alloc, limit)?,
            limit,
        })
    }

    pub(crate) fn as_str(&self) -> &str
        ensures { result.now ≡ self.now.bytes }
    {
        self.text.as_str()
    }

    /// Holds the two parts, one behind the other, in place of what it had. An `Err` says that they are longer than the
    /// limit, or is want of memory, and leaves no more than a front of them.
    pub fn set(&mut self, front: &str, back: &str) -> Result<(), Full>
        ensures ok { OnOk result (self.new.bytes ≡ front.now ++ back.now) }
        ensures within { OnOk result (length (front.now ++ back.now) ≤ self.old.limit) }
        ensures limit { self.new.limit ≡ self.old.limit }
    {
        self.text.clear();
        if front.len() > self.limit || back.len() > self.limit - front.len() {
            return Err(Full);
        }
        self.text.push_str(front).map_err(|_| Full)?;
        self.text.push_str(back).map_err(|_| Full)
    }
}
