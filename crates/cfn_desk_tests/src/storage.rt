//! A storage in memory that tells its files, and a writer that prints nothing.

ghost use Rattle.std.specs.Prelude.{◌≡◌, map, option_copied};
ghost use Rattle.cfn_desk.specs.NamedFiles.{file_named};

use cfn_desk::{Entry, NameRoom, ReadFault, Storage};
use std::alloc::{AllocError, Global};
use std::io;
use std::io::{ErrorKind, Write};

/// A file by its name.
#[derive(Drop)]
struct NamedFile {
    name: Vec<u8>,
    bytes: Vec<u8>,
}

/// A file with copies of this name and these bytes.
fn copy_file(alloc: Global, name: &str, bytes: &[u8]) -> Result<NamedFile, AllocError> {
    let name = Vec::from_slice(alloc, name.as_bytes())?;
    let bytes = Vec::from_slice(alloc, bytes)?;
    Ok(NamedFile { name, bytes })
}

/// Copies of the files, in their order.
fn copy_files(alloc: Global, files: &[(&str, &[u8])]) -> Result<Vec<NamedFile>, AllocError> {
    let mut kept = Vec::new(alloc);
    for (name, bytes) in files {
        kept.push(copy_file(alloc, name, bytes)?)?;
    }
    Ok(kept)
}

/// The bytes of the first file of that name.
fn find_file<'a>(files: &'a [NamedFile], name: &[u8]) -> Option<&'a [u8]>
    ensures { option_copied result ≡ file_named (map (λ file. (file.name.items, file.bytes.items)) files.now) name.now }
{
    for file in files {
        if file.name.as_slice() == name {
            return Some(file.bytes.as_slice());
        }
    }
    None
}

/// Named files in memory, of which one call that creates, writes, stores or removes fails.
#[derive(Drop)]
pub(crate) struct MemoryStorage {
    alloc: Global,
    files: Vec<NamedFile>,
    new_file: Option<NamedFile>,
    calls: u64,
    failing: u64,
}

impl MemoryStorage {
    ghost use Rattle.std.specs.Prelude.{None, IfOk};

    /// Copies of these files. The call with the ordinal `failing`, from 1, is the one that fails.
    pub(crate) fn make(
        alloc: Global,
        files: &[(&str, &[u8])],
        failing: u64,
    ) -> Result<MemoryStorage, AllocError>
        ensures { IfOk result (λ storage. storage.new_file ≡ None) }
    {
        Ok(MemoryStorage {
            alloc,
            files: copy_files(alloc, files)?,
            new_file: None,
            calls: 0,
            failing,
        })
    }

    /// Counts a call, and fails where it is the one that is to.
    fn begin_call(&mut self) -> io::Result<()>
        ensures files { self.new.files ≡ self.old.files }
        ensures new_file { self.new.new_file ≡ self.old.new_file }
    {
        self.calls = self.calls.saturating_add(1);
        if self.calls == self.failing {
            return Err(io::Error::from(ErrorKind::StorageFull));
        }
        Ok(())
    }
}

/// Want of memory as an error of a call on files.
fn no_memory(_error: AllocError) -> io::Error {
    io::Error::from(ErrorKind::OutOfMemory)
}

impl Storage for MemoryStorage {
    ghost use Rattle.std.specs.Prelude.{Some, option_map};

    ghost files = { λ storage. Some (file_named (map (λ file. (file.name.items, file.bytes.items)) storage.files.items)) };

    ghost new_file = { λ storage. option_map (λ file. (file.name.items, file.bytes.items)) storage.new_file };

    fn read(&mut self, name: &str, into: &mut Vec<u8>) -> Result<(), ReadFault> {
        match find_file(&self.files, name.as_bytes()) {
            None => Err(ReadFault::Failed(io::Error::from(ErrorKind::NotFound))),
            Some(bytes) => into.extend_from_slice(bytes).map_err(|_| ReadFault::Memory),
        }
    }

    fn entry(&mut self, name: &str) -> io::Result<Entry> {
        match find_file(&self.files, name.as_bytes()) {
            None => Ok(Entry::Nothing),
            Some(_) => Ok(Entry::Regular),
        }
    }

    fn follow(&mut self, name: &str, target: &mut NameRoom) -> io::Result<()> {
        target
            .set(name, "")
            .map_err(|_| io::Error::from(ErrorKind::InvalidFilename))
    }

    fn create(&mut self, name: &str, _like: &str) -> io::Result<()> {
        self.new_file = None;
        self.begin_call()?;
        if find_file(&self.files, name.as_bytes()).is_some() {
            return Err(io::Error::from(ErrorKind::AlreadyExists));
        }
        let name = Vec::from_slice(self.alloc, name.as_bytes()).map_err(no_memory)?;
        let bytes = Vec::new(self.alloc);
        self.new_file = Some(NamedFile { name, bytes });
        Ok(())
    }

    fn open_in_place(&mut self, _name: &str) -> io::Result<()> {
        self.new_file = None;
        Ok(())
    }

    fn write(&mut self, piece: &[u8]) -> io::Result<()> {
        self.begin_call()?;
        match &mut self.new_file {
            None => Err(io::Error::from(ErrorKind::NotFound)),
            Some(file) => file.bytes.extend_from_slice(piece).map_err(no_memory),
        }
    }

    fn store(&mut self, _name: &str, to: &str) -> io::Result<()> {
        self.begin_call()?;
        let name = Vec::from_slice(self.alloc, to.as_bytes()).map_err(no_memory)?;
        self.files.reserve(1).map_err(no_memory)?;
        match self.new_file.take() {
            None => Err(io::Error::from(ErrorKind::NotFound)),
            Some(file) => {
                let stored = NamedFile {
                    name,
                    bytes: file.bytes,
                };
                self.files
                    .insert(0, stored)
                    .map_err(|_| io::Error::from(ErrorKind::OutOfMemory))
            }
        }
    }

    fn close(&mut self) {
        self.new_file = None;
    }

    fn remove(&mut self, _name: &str) -> io::Result<()> {
        self.new_file = None;
        self.begin_call()
    }

    fn report(&self, _name: &str, _error: &io::Error) {}
}

/// A writer that takes nothing.
#[derive(Drop)]
pub(crate) struct NoOutput;

impl Write for NoOutput {
    fn write(&mut self, _buf: &[u8]) -> io::Result<usize> {
        Err(io::Error::from(ErrorKind::BrokenPipe))
    }

    fn flush(&mut self) -> io::Result<()> {
        Ok(())
    }
}
