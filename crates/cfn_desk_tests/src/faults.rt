//! Tests of a desk over a storage that fails.

use crate::calling::{Kept, large_piece, write_and_load};
use crate::storage::{MemoryStorage, NoOutput};
use cfn_desk::{Desk, Failed, FileDesk};
use std::alloc::{AllocError, Global};
use std::test::Fail;

/// Writes over a file and loads it, where the call of the storage with that ordinal fails; whether the writing is answered
/// so, and the file has these bytes then.
fn keeps(
    alloc: Global,
    failing: u64,
    write: Result<(), Failed>,
    kept: &[u8],
) -> Result<bool, AllocError> {
    let storage = MemoryStorage::make(alloc, &[("out", b"earlier")], failing)?;
    let mut desk = FileDesk::over(alloc, storage, Vec::new(alloc))?;
    let mut into = Vec::new(alloc);
    let answers = write_and_load(&mut desk, ("out", b"la", b"ter"), "out", &mut into);
    let expected = Kept {
        write,
        load: Ok(()),
    };
    drop(desk);
    Ok(answers == expected && into.as_slice() == kept)
}

/// The call of the storage that fails, or 0 where none does, what the writing is answered, and the file's bytes then.
const FAULTS: [(u64, Result<(), Failed>, &[u8]); 5] = [
    (0, Ok(()), b"later"),
    (1, Err(Failed), b"earlier"),
    (2, Err(Failed), b"earlier"),
    (3, Err(Failed), b"earlier"),
    (4, Ok(()), b"later"),
];

#[test]
fn file_desk_keeps_the_earlier_file_at_each_fault(rt: HostRuntime) -> Result<(), Fail> {
    for (failing, write, kept) in FAULTS {
        assert!(rt; keeps(rt.alloc(), failing, write, kept)?, "call {failing}");
    }
    Ok(())
}

/// Writes a large piece over a file where it fails, loads the file, and says a word where nothing is taken; whether the
/// writing and the word failed, and the file has these bytes then.
fn keeps_behind_large(alloc: Global, kept: &[u8]) -> Result<bool, AllocError> {
    let large = large_piece(alloc)?;
    let files: [(&str, &[u8]); 2] = [("out", b"earlier"), ("out.part", b"other")];
    let storage = MemoryStorage::make(alloc, &files, 4)?;
    let mut desk = FileDesk::over(alloc, storage, NoOutput)?;
    let mut into = Vec::new(alloc);
    let answers = write_and_load(&mut desk, ("out", b"front", &large), "out", &mut into);
    let said = desk.say(b"word");
    drop(desk);
    let expected = Kept {
        write: Err(Failed),
        load: Ok(()),
    };
    Ok(answers == expected && into.as_slice() == kept && said == Err(Failed))
}

#[test]
fn file_desk_discards_after_a_large_piece_failed(rt: HostRuntime) -> Result<(), Fail> {
    assert!(rt; keeps_behind_large(rt.alloc(), b"earlier")?);
    Ok(())
}
