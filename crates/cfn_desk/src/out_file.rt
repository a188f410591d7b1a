//! One file that is written beside the file whose name it will have.
//!
//! What is put goes through a buffer into a new file, which takes the name only once it is whole and on the disk. So the
//! file that had the name before stays until then, whatever fails, and where the program is killed. What is there and is no
//! regular file, as a device or a pipe, is written in place.

ghost use Rattle.std.specs.Prelude.{◌≡◌, [], ◌++◌, None, OnOk, OnErr, option_map};
ghost use Rattle.cfn_desk.specs.Storage.{grown, name_of};

use crate::interface::{Failed, LoadFault};
use crate::names::NameRoom;
use crate::room::Room;
use crate::storage::{Entry, ReadFault, Storage};
use std::alloc::{AllocError, Global};
use std::io;
use std::io::ErrorKind;
use std::marker::Model;

/// How many bytes of a written file wait for one write.
const BUFFER_SIZE: usize = 65536;

/// How many bytes the name of a written file may have, its suffix while it is new included.
const NAME_SIZE: usize = 4096;

/// What a new file has behind its name until it is stored. Each run that is killed leaves one of them taken.
const SUFFIXES: [&str; 16] = [
    ".part", ".part1", ".part2", ".part3", ".part4", ".part5", ".part6", ".part7", ".part8",
    ".part9", ".part10", ".part11", ".part12", ".part13", ".part14", ".part15",
];

#[derive(Drop)]
pub(crate) struct OutFile<S: Storage> {
    storage: S,
    /// The name that the file will have. A link was followed to the name that it leads to.
    target: NameRoom,
    /// The name that the new file has so far.
    beside: NameRoom,
    /// Whether the file is new, and not one that is written in place.
    is_new: bool,
    buffer: Room,
}

impl<S: Storage> Model for OutFile<S> {
    ghost use Rattle.cfn_desk.specs.OutFile.{Pending, IsBeside};

    ghost Value = { Pending S };

    ghost view = { λ out. record {
      storage = out.storage;
      target = out.target;
      waiting = out.buffer;
    } };

    ghost invariant = { λ out. IsBeside (S.new_file out.storage) out.beside out.is_new };
}

impl<S: Storage> OutFile<S> {
    ghost use Rattle.std.specs.Prelude.{◌≡◌, [], None, Some, IfSome, IfOk, OnOk, OnErr, IsSome, option_map};
    ghost use Rattle.cfn_desk.specs.OutFile.{IsPending, StoresFile, file_of};
    ghost use Rattle.cfn_desk.specs.Storage.{grown};

    /// Takes all the memory that a file being written will use.
    pub(crate) fn make(alloc: Global, storage: S) -> Result<OutFile<S>, AllocError>
        requires { S.new_file storage ≡ None }
        ensures { IfOk result (λ out.
            (out.storage ≡ storage) × (file_of S.new_file out ≡ None)) }
    {
        Ok(OutFile {
            storage,
            target: NameRoom::make(alloc, NAME_SIZE)?,
            beside: NameRoom::make(alloc, NAME_SIZE)?,
            is_new: false,
            buffer: Room::make(alloc, BUFFER_SIZE)?,
        })
    }

    /// Reads the named file into `into`, which is empty.
    pub(crate) fn read(&mut self, name: &str, into: &mut Vec<u8>) -> Result<(), LoadFault>
        requires { into.old.items ≡ [] }
        ensures read { OnOk result
            (IfSome (S.files self.old.storage) (λ told. told name.now ≡ Some into.new.items)) }
        ensures emptied { OnErr result (into.new.items ≡ []) }
        ensures same_files { S.files self.new.storage ≡ S.files self.old.storage }
        ensures same_file { file_of S.new_file self.new ≡ file_of S.new_file self.old }
    {
        match self.storage.read(name, into) {
            Ok(()) => Ok(()),
            Err(ReadFault::Memory) => {
                into.clear();
                Err(LoadFault::Memory)
            }
            Err(ReadFault::Failed(error)) => {
                into.clear();
                self.report(name, &error);
                Err(LoadFault::Failed)
            }
        }
    }

    /// Begins a file that will have this name.
    pub(crate) fn open(&mut self, name: &str) -> Result<(), Failed>
        requires { file_of S.new_file self.old ≡ None }
        ensures opened { OnOk result
            ((file_of S.new_file self.new) ≡ option_map (λ _. (name.now, [])) (S.files self.old.storage)) }
        ensures none { OnErr result ((file_of S.new_file self.new) ≡ None) }
        ensures same_files { S.files self.new.storage ≡ S.files self.old.storage }
    {
        match self.try_open(name) {
            Ok(()) => Ok(()),
            Err(error) => {
                self.report(name, &error);
                Err(Failed)
            }
        }
    }

    fn try_open(&mut self, name: &str) -> io::Result<()>
        requires { file_of S.new_file self.old ≡ None }
        ensures opened { OnOk result
            ((file_of S.new_file self.new) ≡ option_map (λ _. (name.now, [])) (S.files self.old.storage)) }
        ensures none { OnErr result ((file_of S.new_file self.new) ≡ None) }
        ensures same_files { S.files self.new.storage ≡ S.files self.old.storage }
    {
        self.buffer.clear();
        if self.storage.entry(name)? == Entry::Other {
            self.is_new = false;
            self.target.set(name, "").map_err(|_| long_name())?;
            return self.storage.open_in_place(name);
        }
        self.storage.follow(name, &mut self.target)?;
        self.is_new = true;
        create_beside(&mut self.storage, &self.target, &mut self.beside)
    }

    /// Puts a piece behind what the file got.
    #[inline(always)]
    pub(crate) fn put(&mut self, piece: &[u8]) -> Result<(), Failed>
        ensures put { OnOk result ((file_of S.new_file self.new) ≡ grown piece.now (file_of S.new_file self.old)) }
        ensures still { IsSome (file_of S.new_file self.old) → IsSome (file_of S.new_file self.new) }
        ensures same_files { S.files self.new.storage ≡ S.files self.old.storage }
    {
        if self.buffer.add(piece).is_ok() {
            return Ok(());
        }
        self.put_through(piece)
    }

    /// The same, where the buffer has to be written first.
    #[inline(never)]
    fn put_through(&mut self, piece: &[u8]) -> Result<(), Failed>
        ensures put { OnOk result ((file_of S.new_file self.new) ≡ grown piece.now (file_of S.new_file self.old)) }
        ensures still { IsSome (file_of S.new_file self.old) → IsSome (file_of S.new_file self.new) }
        ensures same_files { S.files self.new.storage ≡ S.files self.old.storage }
    {
        match write_piece(&mut self.storage, &mut self.buffer, piece) {
            Ok(()) => Ok(()),
            Err(error) => {
                self.storage.report(self.target.as_str(), &error);
                Err(Failed)
            }
        }
    }

    /// Gives the file its name, or drops it.
    pub(crate) fn close(&mut self) -> Result<(), Failed>
        requires { IsPending (S.files self.old.storage) (file_of S.new_file self.old) }
        ensures stored { OnOk result (StoresFile (S.files self.old.storage)
            (file_of S.new_file self.old) (S.files self.new.storage)) }
        ensures same_files { OnErr result ((S.files self.new.storage) ≡ (S.files self.old.storage)) }
        ensures none { file_of S.new_file self.new ≡ None }
    {
        match self.store() {
            Ok(()) => Ok(()),
            Err(error) => {
                self.storage.report(self.target.as_str(), &error);
                self.discard();
                Err(Failed)
            }
        }
    }

    fn store(&mut self) -> io::Result<()>
        requires { IsPending (S.files self.old.storage) (file_of S.new_file self.old) }
        ensures stored { OnOk result (StoresFile (S.files self.old.storage)
            (file_of S.new_file self.old) (S.files self.new.storage)) }
        ensures none { OnOk result ((file_of S.new_file self.new) ≡ None) }
        ensures same_files { OnErr result ((S.files self.new.storage) ≡ (S.files self.old.storage)) }
        ensures still { OnErr result (IsPending (S.files self.new.storage) (file_of S.new_file self.new)) }
    {
        empty_buffer(&mut self.storage, &mut self.buffer)?;
        if !self.is_new {
            self.storage.close();
            return Ok(());
        }
        self.storage
            .store(self.beside.as_str(), self.target.as_str())
    }

    /// Drops the file. Where its removal fails it is left behind, under the name that it had while it was new.
    pub(crate) fn discard(&mut self)
        requires { IsPending (S.files self.old.storage) (file_of S.new_file self.old) }
        ensures none { file_of S.new_file self.new ≡ None }
        ensures same_files { S.files self.new.storage ≡ S.files self.old.storage }
    {
        if !self.is_new {
            self.storage.close();
            return;
        }
        if let Err(error) = self.storage.remove(self.beside.as_str()) {
            self.storage.report(self.beside.as_str(), &error);
        }
    }

    /// Says a fault to whoever runs the program.
    pub(crate) fn report(&self, name: &str, error: &io::Error) {
        self.storage.report(name, error);
    }
}

fn long_name() -> io::Error {
    io::Error::from(ErrorKind::InvalidFilename)
}

/// Makes a new file beside the target, under the first suffix that is free.
fn create_beside<S: Storage>(
    storage: &mut S,
    target: &NameRoom,
    beside: &mut NameRoom,
) -> io::Result<()>
    requires { S.new_file storage.old ≡ None }
    ensures created { OnOk result (S.new_file storage.new
        ≡ option_map (λ _. (beside.new.bytes, [])) (S.files storage.old)) }
    ensures none { OnErr result (S.new_file storage.new ≡ None) }
    ensures same_files { S.files storage.new ≡ S.files storage.old }
{
    for suffix in SUFFIXES {
        beside
            .set(target.as_str(), suffix)
            .map_err(|_| long_name())?;
        match storage.create(beside.as_str(), target.as_str()) {
            Err(error) if error.kind() == ErrorKind::AlreadyExists => {}
            created => return created,
        }
    }
    Err(io::Error::from(ErrorKind::AlreadyExists))
}

/// Writes what waits in the buffer, and puts a piece there, or writes it where it is larger than the buffer. After an `Err`
/// bytes may be lost.
fn write_piece<S: Storage>(storage: &mut S, buffer: &mut Room, piece: &[u8]) -> io::Result<()>
    // What the file holds and what waits got the piece at their end.
    ensures ok { OnOk result (grown buffer.new.bytes (S.new_file storage.new)
        ≡ grown (buffer.old.bytes ++ piece.now) (S.new_file storage.old)) }
    ensures same_name { name_of (S.new_file storage.new) ≡ name_of (S.new_file storage.old) }
    ensures same_files { S.files storage.new ≡ S.files storage.old }
{
    empty_buffer(storage, buffer)?;
    if buffer.add(piece).is_ok() {
        return Ok(());
    }
    storage.write(piece)
}

/// Writes what waits in the buffer. After an `Err` bytes may be lost.
fn empty_buffer<S: Storage>(storage: &mut S, buffer: &mut Room) -> io::Result<()>
    ensures ok { OnOk result
        (S.new_file storage.new ≡ grown buffer.old.bytes (S.new_file storage.old)) }
    ensures emptied { buffer.new.bytes ≡ [] }
    ensures same_name { name_of (S.new_file storage.new) ≡ name_of (S.new_file storage.old) }
    ensures same_files { S.files storage.new ≡ S.files storage.old }
{
    let written = storage.write(buffer.as_slice());
    buffer.clear();
    written
}
