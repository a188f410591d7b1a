//! The file system and the standard output of a runtime. This is the trusted edge: no contract can say what the system
//! reads and writes, so each method here is a call or two on it.

use crate::file_desk::FileDesk;
use crate::names::NameRoom;
use crate::read::read_all;
use crate::storage::{Entry, ReadFault, Storage};
use std::alloc::{AllocError, Global};
use std::fs::{Files, OpenFile, OpenOptions};
use std::io::{Eprint, ErrorKind, Print, Write};
use std::{fs, io};

/// A desk over the files, the standard output and the standard error of a runtime. It tells no contents.
pub type HostDesk<'a, R> = FileDesk<HostStorage<'a, R>, HostOutput<'a, R>>;

impl<'a, R: Files + Print + Eprint> FileDesk<HostStorage<'a, R>, HostOutput<'a, R>> {
    ghost use Rattle.std.specs.Prelude.{◌≡◌, [], IfOk};

    /// A desk over this runtime. It takes all the memory that it will use, but for what a load reads and for the name that
    /// a link leads to.
    pub fn make(rt: &'a R) -> Result<HostDesk<'a, R>, AllocError>
    where
        R: AllocGlobal,
        ensures { IfOk result (λ desk. desk.calls ≡ []) }
    {
        let alloc = rt.alloc();
        let storage = HostStorage {
            rt,
            alloc,
            file: None,
        };
        FileDesk::over(alloc, storage, HostOutput { rt })
    }
}

/// The files of a runtime, of which one may be open for writing.
#[derive(Drop)]
pub struct HostStorage<'a, R: Files> {
    rt: &'a R,
    alloc: Global,
    file: Option<R::File>,
}

impl<'a, R: Files + Eprint> Storage for HostStorage<'a, R> {
    ghost use Rattle.std.specs.Prelude.{None};

    ghost files = { λ _. None };

    ghost new_file = { λ _. None };

    fn read(&mut self, name: &str, into: &mut Vec<u8>) -> Result<(), ReadFault> {
        let mut file = fs::open(self.rt, name).map_err(ReadFault::Failed)?;
        read_all(&mut file, into)
    }

    /// A name of an open stream is no regular file, whatever the stream leads to.
    fn entry(&mut self, name: &str) -> io::Result<Entry> {
        match fs::metadata(self.rt, name) {
            Ok(found) if found.is_file() && !is_stream(name) => Ok(Entry::Regular),
            Ok(_) => Ok(Entry::Other),
            Err(error) if error.kind() == ErrorKind::NotFound => Ok(Entry::Nothing),
            Err(error) => Err(error),
        }
    }

    fn follow(&mut self, name: &str, target: &mut NameRoom) -> io::Result<()> {
        match fs::symlink_metadata(self.rt, name) {
            Ok(found) if found.is_symlink() => {
                let path = self.rt.canonicalize(self.alloc, name)?;
                target.set(path.as_path().as_str(), "")
            }
            _ => target.set(name, ""),
        }
        .map_err(|_| io::Error::from(ErrorKind::InvalidFilename))
    }

    fn create(&mut self, name: &str, like: &str) -> io::Result<()> {
        let file = OpenOptions::new()
            .write(true)
            .create_new(true)
            .open(self.rt, name)?;
        if let Ok(found) = fs::metadata(self.rt, like) {
            let _ = file.set_permissions(found.permissions());
        }
        self.file = Some(file);
        Ok(())
    }

    fn open_in_place(&mut self, name: &str) -> io::Result<()> {
        self.file = Some(OpenOptions::new().append(true).open(self.rt, name)?);
        Ok(())
    }

    fn write(&mut self, piece: &[u8]) -> io::Result<()> {
        match &mut self.file {
            Some(file) => file.write_all(piece),
            None => Err(io::Error::from(ErrorKind::NotFound)),
        }
    }

    fn store(&mut self, name: &str, to: &str) -> io::Result<()> {
        if let Some(file) = self.file.take() {
            file.sync_all()?;
        }
        fs::rename(self.rt, name, to)
    }

    fn close(&mut self) {
        self.file = None;
    }

    fn remove(&mut self, name: &str) -> io::Result<()> {
        self.file = None;
        fs::remove_file(self.rt, name)
    }

    fn report(&self, name: &str, error: &io::Error) {
        let _ = eprintln!(self.rt; "wcspsolve: {name}: {error}");
    }
}

/// Whether a name is one by which the system gives a stream that is open.
fn is_stream(name: &str) -> bool {
    name == "/dev/stdout"
        || name == "/dev/stderr"
        || name.starts_with("/dev/fd/")
        || name.starts_with("/proc/")
}

/// The standard output of a runtime.
#[derive(Drop)]
pub struct HostOutput<'a, R> {
    rt: &'a R,
}

impl<'a, R: Print> Write for HostOutput<'a, R> {
    fn write(&mut self, buf: &[u8]) -> io::Result<usize> {
        self.rt.write_some(buf)
    }

    fn flush(&mut self) -> io::Result<()> {
        Ok(())
    }
}
