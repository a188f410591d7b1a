//! Named files: the few calls on a file system that a desk stands on.

use crate::names::NameRoom;
use std::io;

/// What stands at a name.
#[derive(Clone, Copy, Debug, PartialEq, Eq)]
pub enum Entry {
    Nothing,
    /// A regular file, or a link to one.
    Regular,
    /// A device, a pipe, a folder: what can't be replaced by a file.
    Other,
}

/// Why a file was not read.
#[derive(Debug, Drop)]
pub enum ReadFault {
    Failed(io::Error),
    Memory,
}

/// Named files, and one file that is open for writing.
///
/// A storage tells its files, or it doesn't. The new file that is being written is no named file until it is stored, and
/// one that could not be removed is none either.
pub trait Storage: Drop {
    ghost use Rattle.std.specs.Prelude.{◌≡◌, [], Option, None, Some, IfSome, IfOk, OnOk, OnErr, option_map};
    ghost use Rattle.cfn_desk.specs.Outside.{Files};
    ghost use Rattle.cfn_desk.specs.Storage.{Told, StandsAt, IsNamed, StoresUnder, grown, name_of};

    /// The named files, where they are told.
    ghost files: { Self → Option Files };

    /// The new file that is being written, by its name and its bytes, where the files are told.
    ghost new_file: { Self → Told };

    /// Reads the file of that name behind nothing.
    fn read(&mut self, name: &str, into: &mut Vec<u8>) -> Result<(), ReadFault>
        requires { into.old.items ≡ [] }
        ensures read { OnOk result
            (IfSome (files self.old) (λ told. told name.now ≡ Some into.new.items)) }
        ensures same_files { files self.new ≡ files self.old }
        ensures same_new { new_file self.new ≡ new_file self.old };

    /// What stands at that name.
    fn entry(&mut self, name: &str) -> io::Result<Entry>
        ensures entry { IfOk result (λ entry.
            IfSome (files self.old) (λ told. StandsAt told name.now entry)) }
        ensures same_files { files self.new ≡ files self.old }
        ensures same_new { new_file self.new ≡ new_file self.old };

    /// The name of the file that a link leads to, or the name itself where it is none. Files that are told have no links.
    fn follow(&mut self, name: &str, target: &mut NameRoom) -> io::Result<()>
        ensures target { OnOk result (IfSome (files self.old) (λ _. target.new.bytes ≡ name.now)) }
        ensures same_files { files self.new ≡ files self.old }
        ensures same_new { new_file self.new ≡ new_file self.old };

    /// Makes a new file of that name, which nothing may have, with the mode of `like` where that is there and its mode can
    /// be had. `AlreadyExists` says that the name is taken.
    fn create(&mut self, name: &str, like: &str) -> io::Result<()>
        ensures free { OnOk result (IfSome (files self.old) (λ told. told name.now ≡ None)) }
        ensures created { OnOk result
            (new_file self.new ≡ option_map (λ _. (name.now, [])) (files self.old)) }
        ensures none { OnErr result (new_file self.new ≡ None) }
        ensures same_files { files self.new ≡ files self.old };

    /// Opens what stands at that name and is no regular file. Files that are told have no such thing.
    fn open_in_place(&mut self, name: &str) -> io::Result<()>
        ensures none { new_file self.new ≡ None }
        ensures same_files { files self.new ≡ files self.old };

    /// Writes a piece behind what was written. After an `Err` some of it may be.
    fn write(&mut self, piece: &[u8]) -> io::Result<()>
        ensures written { OnOk result (new_file self.new ≡ grown piece.now (new_file self.old)) }
        ensures same_name { name_of (new_file self.new) ≡ name_of (new_file self.old) }
        ensures same_files { files self.new ≡ files self.old };

    /// Brings the new file of that name to the disk, and gives it the name `to` in place of its own.
    fn store(&mut self, name: &str, to: &str) -> io::Result<()>
        requires { IsNamed (files self.old) (new_file self.old) name.now }
        ensures stored { OnOk result
            (StoresUnder (files self.old) (new_file self.old) to.now (files self.new)) }
        ensures none { OnOk result (new_file self.new ≡ None) }
        ensures same_files { OnErr result (files self.new ≡ files self.old) }
        ensures same_new { OnErr result (new_file self.new ≡ new_file self.old) };

    /// Ends what was opened in place.
    fn close(&mut self)
        ensures none { new_file self.new ≡ None }
        ensures same_files { files self.new ≡ files self.old };

    /// Removes the new file of that name. An `Err` may leave it behind, as no named file.
    fn remove(&mut self, name: &str) -> io::Result<()>
        requires { IsNamed (files self.old) (new_file self.old) name.now }
        ensures none { new_file self.new ≡ None }
        ensures same_files { files self.new ≡ files self.old };

    /// Says a fault to whoever runs the program. That can't fail.
    fn report(&self, name: &str, error: &io::Error);
}
