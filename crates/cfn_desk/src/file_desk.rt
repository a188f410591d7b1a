//! A desk over a storage of files and a writer.

use crate::interface::{Desk, Failed, LoadFault};
use crate::out_file::OutFile;
use crate::storage::Storage;
use crate::trace::Trace;
use std::alloc::{AllocError, Global};
use std::io::Write;
use std::marker::Model;

/// What is named where text could not be said.
const SPOKEN: &str = "standard output";

/// A desk that tells its files where its storage does. What is said is written at once.
#[derive(Drop)]
pub struct FileDesk<S: Storage, W: Write + Drop> {
    out: OutFile<S>,
    output: W,
    trace: Trace,
}

impl<S: Storage, W: Write + Drop> Model for FileDesk<S, W> {
    ghost use Rattle.cfn_desk.specs.FileDesk.{OverFiles, Agrees};
    ghost use Rattle.cfn_desk.specs.OutFile.{file_of};
    ghost use Rattle.cfn_desk.specs.Outside.{written};

    ghost Value = { OverFiles S W };

    ghost view = { λ desk. record {
      calls = desk.trace.calls;
      out = desk.out;
      output = desk.output;
    } };

    ghost invariant = { λ desk.
        Agrees (written desk.trace.calls) (S.files desk.out.storage) (file_of S.new_file desk.out) };
}

impl<S: Storage, W: Write + Drop> FileDesk<S, W> {
    ghost use Rattle.std.specs.Prelude.{◌≡◌, [], None, IfOk};

    /// A desk over this storage and this writer. It takes all the memory that it will use, but for what a load reads. An
    /// `Err` is want of it.
    pub fn over(alloc: Global, storage: S, output: W) -> Result<FileDesk<S, W>, AllocError>
        requires { S.new_file storage ≡ None }
        ensures calls { IfOk result (λ desk. desk.calls ≡ []) }
        ensures over { IfOk result (λ desk.
            (desk.out.storage ≡ storage) × (desk.output ≡ output)) }
    {
        Ok(FileDesk {
            out: OutFile::make(alloc, storage)?,
            output,
            trace: Trace::new(),
        })
    }
}

impl<S: Storage, W: Write + Drop> Desk for FileDesk<S, W> {
    ghost use Rattle.std.specs.Prelude.{◌≡◌, [], ◌∷◌, Some, IfSome, OnOk, OnErr, is_ok};
    ghost use Rattle.std.specs.Io.KnownBytes.{Appends};
    ghost use Rattle.cfn_desk.specs.Outside.{Load, Open, Close, Discard, Idle, HasFile, IsIdle, IsWriting, Stored, answer_of, after_put, after_say, written};

    ghost outside = { λ desk. record { calls = desk.calls; files = S.files desk.out.storage } };

    fn load(&mut self, name: &str, into: &mut Vec<u8>) -> Result<(), LoadFault>
        ensures read { OnOk result
            (IfSome (S.files self.old.out.storage) (λ told. told name.now ≡ Some into.new.items)) }
        ensures emptied { OnErr result (into.new.items ≡ []) }
        ensures called { self.new.calls
            ≡ Load name.now (answer_of result into.new.items) ∷ self.old.calls }
        ensures same { S.files self.new.out.storage ≡ S.files self.old.out.storage }
        ensures output { self.new.output ≡ self.old.output }
    {
        into.clear();
        let answer = self.out.read(name, into);
        self.trace.load(name, answer, into);
        answer
    }

    fn open_out(&mut self, name: &str) -> Result<(), Failed>
        requires { IsIdle self.old.calls }
        ensures called { self.new.calls ≡ Open name.now (is_ok result) ∷ self.old.calls }
        ensures same { S.files self.new.out.storage ≡ S.files self.old.out.storage }
        ensures output { self.new.output ≡ self.old.output }
    {
        let answer = self.out.open(name);
        self.trace.open(name, answer.is_ok());
        answer
    }

    #[inline(always)]
    fn put(&mut self, bytes: &[u8]) -> Result<(), Failed>
        requires { IsWriting self.old.calls }
        ensures called { self.new.calls ≡ after_put bytes.now result self.old.calls }
        ensures same { S.files self.new.out.storage ≡ S.files self.old.out.storage }
        ensures output { self.new.output ≡ self.old.output }
    {
        let answer = self.out.put(bytes);
        self.trace.put(bytes, answer);
        answer
    }

    fn close_out(&mut self) -> Result<(), Failed>
        requires { IsWriting self.old.calls }
        ensures called { self.new.calls ≡ Close (is_ok result) ∷ self.old.calls }
        ensures output { self.new.output ≡ self.old.output }
        ensures stored { OnOk result
            (Stored (S.files self.old.out.storage) (written self.old.calls) (S.files self.new.out.storage)) }
        // An error leaves the files as they were.
        ensures same { OnErr result
            (S.files self.new.out.storage ≡ S.files self.old.out.storage) }
    {
        let answer = self.out.close();
        self.trace.close(answer.is_ok());
        answer
    }

    fn discard_out(&mut self)
        requires { written self.old.calls ≡ Idle → ⊥ }
        ensures called { self.new.calls ≡ Discard ∷ self.old.calls }
        ensures same { S.files self.new.out.storage ≡ S.files self.old.out.storage }
        ensures output { self.new.output ≡ self.old.output }
    {
        self.out.discard();
        self.trace.discard();
    }

    fn say(&mut self, bytes: &[u8]) -> Result<(), Failed>
        ensures called { self.new ≡ record self.old {
          calls = after_say bytes.now result self.old.calls;
          output = self.new.output;
        } }
        // Ok printed the piece, where the writer tells what it got.
        ensures printed { OnOk result (Appends (W.contents self.old.output)
            (W.contents self.new.output) bytes.now) }
    {
        let answer = match self.output.write_all(bytes) {
            Ok(()) => Ok(()),
            Err(error) => {
                self.out.report(SPOKEN, &error);
                Err(Failed)
            }
        };
        self.trace.say(bytes, answer);
        answer
    }
}
