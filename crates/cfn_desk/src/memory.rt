//! A desk in memory, which fails where it is told to.

use crate::interface::{Desk, Failed, LoadFault};
use crate::named::{NamedFile, copy_files, find_file};
use crate::room::Room;
use crate::slot::{NAME_ROOM, Slot, Stage};
use crate::trace::Trace;
use std::alloc::{AllocError, Global};
use std::marker::Model;
use std::mem;

/// What the room that is not in use is for.
#[derive(Clone, Copy, PartialEq, Eq)]
enum Second {
    /// Nothing: the desk keeps one written file.
    Absent,
    /// A second file, behind the one in the room in use.
    Later,
    /// The first file. The second one has the room in use.
    Earlier,
}

/// A desk whose files and said bytes are in memory, all of which it takes when it is made. It tells its files. The calls
/// that it was told to fail do so, and keep nothing of their piece.
#[derive(Drop)]
pub struct MemoryDesk {
    given: Vec<NamedFile>,
    slot: Slot,
    other: Slot,
    second: Second,
    text: Room,
    failing: Vec<u64>,
    made: u64,
    trace: Trace,
}

impl Model for MemoryDesk {
    ghost use Rattle.std.specs.Prelude.{◌≡◌};
    ghost use Rattle.cfn_desk.specs.NamedFiles.{kept_files};
    ghost use Rattle.cfn_desk.specs.MemoryDesk.{InMemory, IsWaiting, first_room, later_room, stored_in};
    ghost use Rattle.cfn_desk.specs.Outside.{said, written};
    ghost use Rattle.cfn_desk.specs.Slot.{written_in};
    ghost use Rattle.cfn_desk.specs.declared.slot.TheConstants.{NAME_ROOM};

    ghost Value = { InMemory };

    ghost view = { λ desk. record {
      given = kept_files desk.given.items;
      stored = stored_in desk.second desk.slot desk.other;
      calls = desk.trace.calls;
      made = desk.made;
      failing = desk.failing.items;
      out_room = first_room desk.second desk.slot desk.other;
      second_room = later_room desk.second desk.slot desk.other;
      said_room = desk.text.limit;
    } };

    ghost invariant = { λ desk. (desk.slot.name.limit ≡ NAME_ROOM)
        × ((written desk.trace.calls ≡ written_in desk.slot)
        × ((said desk.trace.calls ≡ desk.text.bytes)
        × IsWaiting desk.second desk.other)) };
}

impl MemoryDesk {
    ghost use Rattle.std.specs.Prelude.{◌≡◌, [], None, Some, map, IfOk, option_copied};
    ghost use Rattle.cfn_desk.specs.MemoryDesk.{bytes_of, files_of, fails_next, later_room};
    ghost use Rattle.cfn_desk.specs.Outside.{said, written};
    ghost use Rattle.cfn_desk.specs.Slot.{slot_of};
    ghost use Rattle.cfn_desk.specs.SureDesk.{counted};

    /// Takes all the memory that the desk will use: copies of the files, and room for one written file of `out_room` bytes
    /// and for `said_room` bytes said. Where a name is given twice, the first counts. `failing` has the ordinals of the
    /// calls that are to fail, counted from 1 over all methods but `discard_out`, which can't fail.
    pub fn make(
        alloc: Global,
        files: &[(&str, &[u8])],
        out_room: usize,
        said_room: usize,
        failing: &[u64],
    ) -> Result<MemoryDesk, AllocError>
        ensures { IfOk result (λ desk. desk ≡ record {
          given = map (λ file. (file.0.now, file.1.now)) files.now;
          stored = [];
          calls = [];
          made = 0;
          failing = failing.now;
          out_room = out_room;
          second_room = None;
          said_room = said_room;
        }) }
    {
        MemoryDesk::over(
            alloc,
            files,
            (out_room, 0),
            Second::Absent,
            said_room,
            failing,
        )
    }

    /// The same with room for a second written file of `second_room` bytes, which may be opened once the first is closed.
    pub fn make_two(
        alloc: Global,
        files: &[(&str, &[u8])],
        out_room: usize,
        second_room: usize,
        said_room: usize,
        failing: &[u64],
    ) -> Result<MemoryDesk, AllocError>
        ensures { IfOk result (λ desk. desk ≡ record {
          given = map (λ file. (file.0.now, file.1.now)) files.now;
          stored = [];
          calls = [];
          made = 0;
          failing = failing.now;
          out_room = out_room;
          second_room = Some second_room;
          said_room = said_room;
        }) }
    {
        MemoryDesk::over(
            alloc,
            files,
            (out_room, second_room),
            Second::Later,
            said_room,
            failing,
        )
    }

    /// A desk with no written file yet, whose two rooms for files have these sizes.
    fn over(
        alloc: Global,
        files: &[(&str, &[u8])],
        rooms: (usize, usize),
        second: Second,
        said_room: usize,
        failing: &[u64],
    ) -> Result<MemoryDesk, AllocError>
        requires { second ≡ Second.Earlier → ⊥ }
        ensures { IfOk result (λ desk. desk ≡ record {
          given = map (λ file. (file.0.now, file.1.now)) files.now;
          stored = [];
          calls = [];
          made = 0;
          failing = failing.now;
          out_room = rooms.0;
          second_room = later_room second (slot_of rooms.0) (slot_of rooms.1);
          said_room = said_room;
        }) }
    {
        Ok(MemoryDesk {
            given: copy_files(alloc, files)?,
            slot: Slot::make(alloc, rooms.0)?,
            other: Slot::make(alloc, rooms.1)?,
            second,
            text: Room::make(alloc, said_room)?,
            failing: Vec::from_slice(alloc, failing)?,
            made: 0,
            trace: Trace::new(),
        })
    }

    /// The bytes said so far.
    pub fn said_bytes(&self) -> &[u8]
        ensures { result.now ≡ said self.now.calls }
    {
        self.text.as_slice()
    }

    /// The bytes of the file being written, or nothing where none is, or where a piece of it failed.
    pub fn out_bytes(&self) -> &[u8]
        ensures { result.now ≡ bytes_of (written self.now.calls) }
    {
        match self.slot.stage {
            Stage::Begun => self.slot.bytes.as_slice(),
            Stage::Empty | Stage::Cut | Stage::Kept => &[],
        }
    }

    /// The bytes of the file of that name: the last that was written and closed, or else the first that was given.
    pub fn file(&self, name: &str) -> Option<&[u8]>
        ensures { option_copied result ≡ files_of self.now name.now }
    {
        let name = name.as_bytes();
        if let Some(bytes) = self.slot.file(name) {
            return Some(bytes);
        }
        if let Some(bytes) = self.other.file(name) {
            return Some(bytes);
        }
        find_file(&self.given, name)
    }

    /// Counts the call that begins, and answers whether it is to fail.
    fn begin_call(&mut self) -> bool
        ensures due { result ≡ fails_next self.old }
        ensures counted { self.new ≡ record self.old { made = counted self.old.made 1 } }
    {
        let _ = &self.slot;
        self.made = self.made.saturating_add(1);
        self.failing.contains(&self.made)
    }
}

impl MemoryDesk {
    ghost use Rattle.std.specs.Prelude.{◌≡◌, ◌≤◌, ◌⊎◌, ◌↔◌, [], ◌∷◌, true, None, Some, IsErrOf, IsSome, IsTrue, OnOk, OnErr, length};
    ghost use Rattle.cfn_desk.specs.MemoryDesk.{files_of, fails_next, room_left};
    ghost use Rattle.cfn_desk.specs.Outside.{Open, IsIdle};
    ghost use Rattle.cfn_desk.specs.SureDesk.{counted};
    ghost use Rattle.cfn_desk.specs.declared.slot.TheConstants.{NAME_ROOM};

    /// Reads the file of that name into `into`, which is empty, or fails where that was told.
    fn read(&mut self, name: &str, into: &mut Vec<u8>) -> Result<(), LoadFault>
        requires { into.old.items ≡ [] }
        ensures fails { IsErrOf result LoadFault.Failed
            ↔ (IsTrue (fails_next self.old) ⊎ (files_of self.old name.now ≡ None)) }
        ensures read { OnOk result (files_of self.old name.now ≡ Some into.new.items) }
        ensures emptied { OnErr result (into.new.items ≡ []) }
        ensures same { self.new ≡ record self.old { made = counted self.old.made 1 } }
    {
        if self.begin_call() {
            return Err(LoadFault::Failed);
        }
        let Some(bytes) = self.file(name) else {
            return Err(LoadFault::Failed);
        };
        into.extend_from_slice(bytes).map_err(|_| LoadFault::Memory)
    }

    /// Whether a file may be opened, where none is being written.
    fn has_room(&self) -> bool
        requires { IsIdle self.now.calls }
        ensures { IsTrue result ↔ IsSome (room_left self.now) }
    {
        self.slot.stage != Stage::Kept || self.second == Second::Later
    }

    /// Begins a file: in the room in use, or in the other where that one has its file.
    fn begin_file(&mut self, name: &str)
        requires idle { IsIdle self.old.calls }
        requires room { IsSome (room_left self.old) }
        requires short { length name.now ≤ NAME_ROOM }
        ensures { self.new ≡ record self.old { calls = Open name.now true ∷ self.old.calls } }
    {
        if self.slot.stage == Stage::Kept {
            mem::swap(&mut self.slot, &mut self.other);
            self.second = Second::Earlier;
        }
        self.slot.begin(name);
        self.trace.open(name, true);
    }
}

impl Desk for MemoryDesk {
    ghost use Rattle.std.specs.Prelude.{◌≡◌, ◌+◌, ◌<◌, ◌⊎◌, ◌↔◌, [], ◌∷◌, length, None, Some, true, false, is_ok, IsErr, IsErrOf, IsSomeAnd, IsTrue, OnOk, OnErr, ◌++◌};
    ghost use Rattle.cfn_desk.specs.Outside.{Load, Open, Close, Discard, Idle, IsIdle, IsWriting, Stored, answer_of, after_put, after_say, said, written};
    ghost use Rattle.cfn_desk.specs.MemoryDesk.{files_of, files_in, fails_next, after_call, bytes_of, room_left};
    ghost use Rattle.cfn_desk.specs.declared.slot.TheConstants.{NAME_ROOM};

    ghost outside = { λ desk. record { calls = desk.calls; files = Some (files_of desk) } };

    fn load(&mut self, name: &str, into: &mut Vec<u8>) -> Result<(), LoadFault>
        // It fails where it was told to, and where the file is not there.
        ensures fails { IsErrOf result LoadFault.Failed
            ↔ (IsTrue (fails_next self.old) ⊎ (files_of self.old name.now ≡ None)) }
        ensures read { OnOk result (files_of self.old name.now ≡ Some into.new.items) }
        ensures emptied { OnErr result (into.new.items ≡ []) }
        ensures called { self.new ≡ after_call
            (Load name.now (answer_of result into.new.items) ∷ self.old.calls) self.old }
    {
        into.clear();
        let answer = self.read(name, into);
        self.trace.load(name, answer, into);
        answer
    }

    fn open_out(&mut self, name: &str) -> Result<(), Failed>
        requires { IsIdle self.old.calls }
        // It fails where it was told to, where each room has its file, and at a name past its room.
        ensures fails { IsErr result
            ↔ (IsTrue (fails_next self.old) ⊎ (room_left self.old ≡ None)
            ⊎ (NAME_ROOM < length name.now)) }
        ensures called { self.new
            ≡ after_call (Open name.now (is_ok result) ∷ self.old.calls) self.old }
    {
        if self.begin_call() || !self.has_room() || name.len() > NAME_ROOM {
            self.trace.open(name, false);
            return Err(Failed);
        }
        self.begin_file(name);
        Ok(())
    }

    fn put(&mut self, bytes: &[u8]) -> Result<(), Failed>
        requires { IsWriting self.old.calls }
        // It fails where it was told to, and where the room is full.
        ensures fails { IsErr result ↔ (IsTrue (fails_next self.old)
            ⊎ IsSomeAnd (room_left self.old) (λ room.
            room < length (bytes_of (written self.old.calls)) + length bytes.now)) }
        ensures called { self.new
            ≡ after_call (after_put bytes.now result self.old.calls) self.old }
    {
        if !self.begin_call() && self.slot.bytes.add(bytes).is_ok() {
            self.trace.put(bytes, Ok(()));
            return Ok(());
        }
        self.slot.stage = Stage::Cut;
        self.trace.put(bytes, Err(Failed));
        Err(Failed)
    }

    fn close_out(&mut self) -> Result<(), Failed>
        requires { IsWriting self.old.calls }
        // It fails where it was told to, and drops the file.
        ensures fails { IsErr result ↔ IsTrue (fails_next self.old) }
        ensures ok { OnOk result (self.new ≡ record (after_call (Close true ∷ self.old.calls) self.old) {
          stored = files_in (written self.old.calls) ++ self.old.stored;
        }) }
        ensures err { OnErr result
            (self.new ≡ after_call (Close false ∷ self.old.calls) self.old) }
        ensures stored { OnOk result (Stored (Some (files_of self.old))
            (written self.old.calls) (Some (files_of self.new))) }
    {
        if self.begin_call() {
            self.slot.stage = Stage::Empty;
            self.trace.close(false);
            return Err(Failed);
        }
        self.slot.stage = Stage::Kept;
        self.trace.close(true);
        Ok(())
    }

    fn discard_out(&mut self)
        requires { written self.old.calls ≡ Idle → ⊥ }
        ensures called { self.new ≡ record self.old { calls = Discard ∷ self.old.calls } }
    {
        self.slot.stage = Stage::Empty;
        self.trace.discard();
    }

    fn say(&mut self, bytes: &[u8]) -> Result<(), Failed>
        // It fails where it was told to, and where the room is full.
        ensures fails { IsErr result ↔ (IsTrue (fails_next self.old)
            ⊎ (self.old.said_room < length (said self.old.calls) + length bytes.now)) }
        ensures called { self.new
            ≡ after_call (after_say bytes.now result self.old.calls) self.old }
    {
        if !self.begin_call() && self.text.add(bytes).is_ok() {
            self.trace.say(bytes, Ok(()));
            return Ok(());
        }
        self.trace.say(bytes, Err(Failed));
        Err(Failed)
    }
}
