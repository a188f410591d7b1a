//! The contract of a desk: six calls, and what they leave of the outside.

/// Why a file was not loaded.
#[derive(Clone, Copy, Debug, PartialEq, Eq)]
pub enum LoadFault {
    /// The file could not be read to its end, or is not there.
    Failed,
    /// Memory ran out. That is no fault of the outside.
    Memory,
}

/// A call on the outside failed, and stands in the list of calls as one that did.
#[derive(Clone, Copy, Debug, PartialEq, Eq)]
pub struct Failed;

/// Named files, one file that is being written, and a place to say text.
///
/// Names and files are bytes. Only `load` takes memory, and the real desk to follow a link. Every desk tells the calls that were made, with their bytes and
/// answers; one that tells its files goes on telling them.
pub trait Desk {
    ghost use Rattle.std.specs.Prelude.{◌≡◌, [], ◌∷◌, OnOk, OnErr, is_ok};
    ghost use Rattle.cfn_desk.specs.Outside.{Outside, Load, Open, Close, Discard, Idle, HasFile, IsIdle, IsWriting, Stored, StoredOrSame, after, after_put, after_say, answer_of, written};

    /// The outside as this desk tells it.
    ghost outside: { Self → Outside };

    /// Reads the file of that name into `into`, in place of what it holds. An `Err` empties it.
    fn load(&mut self, name: &str, into: &mut Vec<u8>) -> Result<(), LoadFault>
        // One call more, with its answer, and nothing else is changed.
        ensures called { outside self.new
            ≡ after (Load name.now (answer_of result into.new.items)) (outside self.old) }
        // What was read is the file. A name that is not there gives no Ok.
        ensures read { OnOk result (HasFile (outside self.old) name.now into.new.items) }
        // An error leaves no bytes.
        ensures emptied { OnErr result (into.new.items ≡ []) };

    /// Begins a file of that name, with no bytes: what the name has stays until `close_out`. An `Err` leaves nothing
    /// being written.
    fn open_out(&mut self, name: &str) -> Result<(), Failed>
        requires { IsIdle (outside self.old).calls }
        ensures called { outside self.new ≡ after (Open name.now (is_ok result)) (outside self.old) };

    /// Puts a piece behind the bytes of the file being written. After an `Err` some front of it came there, and the
    /// file can only be discarded.
    fn put(&mut self, bytes: &[u8]) -> Result<(), Failed>
        requires { IsWriting (outside self.old).calls }
        ensures called { outside self.new ≡ record (outside self.old) {
          calls = after_put bytes.now result (outside self.old).calls;
        } };

    /// Ends the file being written: its name has its bytes from then on. An `Err` ends it too, and stores it or leaves
    /// the files as they were.
    fn close_out(&mut self) -> Result<(), Failed>
        requires { IsWriting (outside self.old).calls }
        ensures called { (outside self.new).calls ≡ Close (is_ok result) ∷ (outside self.old).calls }
        // Ok stores the file.
        ensures stored { OnOk result (Stored (outside self.old).files
            (written (outside self.old).calls) (outside self.new).files) }
        // An error stores it or changes nothing.
        ensures stored_or_same { OnErr result (StoredOrSame (outside self.old).files
            (written (outside self.old).calls) (outside self.new).files) };

    /// Drops the file being written. The files are as they were.
    fn discard_out(&mut self)
        requires { written (outside self.old).calls ≡ Idle → ⊥ }
        ensures called { outside self.new ≡ after Discard (outside self.old) };

    /// Says a piece of text. An `Err` says some front of it.
    fn say(&mut self, bytes: &[u8]) -> Result<(), Failed>
        ensures called { outside self.new ≡ record (outside self.old) {
          calls = after_say bytes.now result (outside self.old).calls;
        } };
}
