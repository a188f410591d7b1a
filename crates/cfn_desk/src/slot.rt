//! Room for one file that is written.

use crate::room::Room;
use std::alloc::{AllocError, Global};

/// How many bytes a name of a written file may have.
pub const NAME_ROOM: usize = 4096;

/// What the room for one written file has.
#[derive(Clone, Copy, PartialEq, Eq)]
pub(crate) enum Stage {
    /// No file, or one that was dropped.
    Empty,
    /// A file that is being written.
    Begun,
    /// A file of which a piece failed.
    Cut,
    /// A file that was closed.
    Kept,
}

/// Room for a file: for its name and for its bytes.
#[derive(Drop)]
pub(crate) struct Slot {
    pub(crate) stage: Stage,
    pub(crate) name: Room,
    pub(crate) bytes: Room,
}

impl Slot {
    ghost use Rattle.std.specs.Prelude.{◌≡◌, ◌≤◌, [], length, IfOk, option_copied};
    ghost use Rattle.cfn_desk.specs.Slot.{file_in, slot_of};
    ghost use Rattle.cfn_desk.specs.NamedFiles.{file_named};

    /// Takes memory for a name and for `limit` bytes.
    pub(crate) fn make(alloc: Global, limit: usize) -> Result<Slot, AllocError>
        ensures { IfOk result (λ slot. slot ≡ slot_of limit) }
    {
        Ok(Slot {
            stage: Stage::Empty,
            name: Room::make(alloc, NAME_ROOM)?,
            bytes: Room::make(alloc, limit)?,
        })
    }

    /// Begins a file of that name, in place of what is there.
    pub(crate) fn begin(&mut self, name: &str)
        requires { length name.now ≤ self.old.name.limit }
        ensures { self.new ≡ record {
          stage = Stage.Begun;
          name = record { bytes = name.now; limit = self.old.name.limit };
          bytes = record { bytes = []; limit = self.old.bytes.limit };
        } }
    {
        self.name.clear();
        self.bytes.clear();
        let _ = self.name.add(name.as_bytes());
        self.stage = Stage::Begun;
    }

    /// The bytes of the file that was closed, where it has that name.
    pub(crate) fn file(&self, name: &[u8]) -> Option<&[u8]>
        ensures { option_copied result ≡ file_named (file_in self.now) name.now }
    {
        if self.stage == Stage::Kept && self.name.as_slice() == name {
            return Some(self.bytes.as_slice());
        }
        None
    }
}
