//! A desk on which only a load can fail, for want of memory, and which keeps no text: for a fuzzer and for measuring.

use crate::interface::{Desk, Failed, LoadFault};
use crate::named::{NamedFile, copy_files, find_file};
use crate::trace::Trace;
use std::alloc::{AllocError, Global};
use std::marker::Model;

/// A desk over given files on which only a load can fail, for want of memory. It tells no files, and keeps only counts
/// of bytes.
#[derive(Drop)]
pub struct SureDesk {
    files: Vec<NamedFile>,
    put: u64,
    said: u64,
    trace: Trace,
}

impl Model for SureDesk {
    ghost use Rattle.cfn_desk.specs.NamedFiles.{kept_files};
    ghost use Rattle.cfn_desk.specs.SureDesk.{Counts};

    ghost Value = { Counts };

    ghost view = { λ desk. record {
      files = kept_files desk.files.items;
      calls = desk.trace.calls;
      put = desk.put;
      said = desk.said;
    } };
}

impl SureDesk {
    ghost use Rattle.std.specs.Prelude.{◌≡◌, [], map, IfOk, OnOk, OnErr, IfErr, unwrap_or};
    ghost use Rattle.cfn_desk.specs.NamedFiles.{file_named};

    /// A desk with copies of these files. Where a name is given twice, the first counts.
    pub fn make(alloc: Global, files: &[(&str, &[u8])]) -> Result<SureDesk, AllocError>
        ensures { IfOk result (λ desk. desk ≡ record {
          files = map (λ file. (file.0.now, file.1.now)) files.now;
          calls = [];
          put = 0;
          said = 0;
        }) }
    {
        Ok(SureDesk {
            files: copy_files(alloc, files)?,
            put: 0,
            said: 0,
            trace: Trace::new(),
        })
    }

    /// How many bytes were put, up to the last value of a u64.
    pub fn put_count(&self) -> u64
        ensures { result ≡ self.now.put }
    {
        self.put
    }

    /// How many bytes were said, up to the last value of a u64.
    pub fn said_count(&self) -> u64
        ensures { result ≡ self.now.said }
    {
        self.said
    }

    /// Reads the file of that name into `into`, which is empty. A name that is not there is an empty file.
    fn read(&self, name: &str, into: &mut Vec<u8>) -> Result<(), LoadFault>
        requires { into.old.items ≡ [] }
        ensures read { OnOk result
            (into.new.items ≡ unwrap_or (file_named self.now.files name.now) []) }
        ensures emptied { OnErr result (into.new.items ≡ []) }
        ensures memory_only { IfErr result (λ fault. fault ≡ LoadFault.Memory) }
    {
        match find_file(&self.files, name.as_bytes()) {
            None => Ok(()),
            Some(bytes) => into.extend_from_slice(bytes).map_err(|_| LoadFault::Memory),
        }
    }
}

impl Desk for SureDesk {
    ghost use Rattle.std.specs.Prelude.{◌≡◌, [], ◌∷◌, length, None, true, IsOk, IsTrue, OnOk, OnErr, IfErr, unwrap_or, refl};
    ghost use Rattle.cfn_desk.specs.NamedFiles.{file_named};
    ghost use Rattle.cfn_desk.specs.Outside.{Load, Open, Close, Discard, puts, says, answer_of};
    ghost use Rattle.cfn_desk.specs.SureDesk.{counted};

    ghost outside = { λ desk. record { calls = desk.calls; files = None } };

    fn load(&mut self, name: &str, into: &mut Vec<u8>) -> Result<(), LoadFault>
        ensures read { OnOk result
            (into.new.items ≡ unwrap_or (file_named self.old.files name.now) []) }
        ensures emptied { OnErr result (into.new.items ≡ []) }
        ensures memory_only { IfErr result (λ fault. fault ≡ LoadFault.Memory) }
        ensures called { self.new ≡ record self.old {
          calls = Load name.now (answer_of result into.new.items) ∷ self.old.calls;
        } }
    {
        into.clear();
        let answer = self.read(name, into);
        self.trace.load(name, answer, into);
        answer
    }

    fn open_out(&mut self, name: &str) -> Result<(), Failed>
        ensures never_fails { IsOk result }
        ensures called { self.new ≡ record self.old { calls = Open name.now true ∷ self.old.calls } }
    {
        self.trace.open(name, true);
        Ok(())
    }

    fn put(&mut self, bytes: &[u8]) -> Result<(), Failed>
        ensures never_fails { IsOk result }
        ensures called { self.new ≡ record self.old {
          calls = puts bytes.now self.old.calls;
          put = counted self.old.put (length bytes.now);
        } }
    {
        self.put = self.put.saturating_add(bytes.len() as u64);
        self.trace.put(bytes, Ok(()));
        Ok(())
    }

    fn close_out(&mut self) -> Result<(), Failed>
        ensures never_fails { IsOk result }
        ensures called { self.new ≡ record self.old { calls = Close true ∷ self.old.calls } }
    {
        self.trace.close(true);
        Ok(())
    }

    fn discard_out(&mut self)
        ensures called { self.new ≡ record self.old { calls = Discard ∷ self.old.calls } }
    {
        self.trace.discard();
    }

    fn say(&mut self, bytes: &[u8]) -> Result<(), Failed>
        ensures never_fails { IsOk result }
        ensures called { self.new ≡ record self.old {
          calls = says bytes.now self.old.calls;
          said = counted self.old.said (length bytes.now);
        } }
    {
        self.said = self.said.saturating_add(bytes.len() as u64);
        self.trace.say(bytes, Ok(()));
        Ok(())
    }
}
