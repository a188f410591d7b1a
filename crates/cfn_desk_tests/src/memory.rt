//! Tests of the desks in memory.

ghost use Rattle.std.specs.Prelude.{◌≡◌, [], IfOk};

use crate::calling::{drop_file, write_file};
use cfn_desk::{Desk, Failed, LoadFault, MemoryDesk, SureDesk};
use std::alloc::{AllocError, Global};
use std::test::Fail;

/// A desk in memory with one file, where these calls fail.
fn memory_desk(rt: &HostRuntime, failing: &[u64]) -> Result<MemoryDesk, AllocError>
    ensures { IfOk result (λ desk. desk.calls ≡ []) }
{
    MemoryDesk::make(rt.alloc(), &[("in", b"given")], 8, 8, failing)
}

/// What a desk answered to a load, to a file written in two pieces, and to a word said.
#[derive(Clone, Copy, PartialEq, Eq)]
struct Answers {
    load: Result<(), LoadFault>,
    write: Result<(), Failed>,
    say: Result<(), Failed>,
}

const ALL_DONE: Answers = Answers {
    load: Ok(()),
    write: Ok(()),
    say: Ok(()),
};

/// Makes the six calls.
fn six_calls(desk: &mut MemoryDesk, into: &mut Vec<u8>) -> Answers
    requires { desk.old.calls ≡ [] }
{
    let load = desk.load("in", into);
    let write = write_file(desk, "out", b"wri", b"tten");
    let say = desk.say(b"word");
    Answers { load, write, say }
}

/// Whether the six calls are answered so where these fail, and leave these bytes in the file `out` and on the screen.
fn leaves(
    rt: &HostRuntime,
    failing: &[u64],
    answers: Answers,
    written: &[u8],
    said: &[u8],
) -> Result<bool, AllocError> {
    let mut desk = memory_desk(rt, failing)?;
    let mut into = Vec::new(rt.alloc());
    Ok(
        six_calls(&mut desk, &mut into) == answers
            && tells(&desk, "out", written)
            && desk.said_bytes() == said,
    )
}

/// Whether a desk tells that the file of that name has these bytes, or that there is none and these are no bytes.
fn tells(desk: &MemoryDesk, name: &str, bytes: &[u8]) -> bool {
    desk.file(name).unwrap_or(b"") == bytes
}

/// Whether all six calls are done, the load gives this file, and the desk tells it, what was written and said, no other
/// file and none that is being written.
fn keeps(rt: &HostRuntime, given: &[u8], written: &[u8], said: &[u8]) -> Result<bool, AllocError> {
    let mut desk = memory_desk(rt, &[])?;
    let mut into = Vec::new(rt.alloc());
    let keeps = six_calls(&mut desk, &mut into) == ALL_DONE
        && into.as_slice() == given
        && tells(&desk, "in", given)
        && tells(&desk, "out", written)
        && desk.file("other").is_none()
        && desk.said_bytes() == said
        && desk.out_bytes().is_empty();
    drop(into);
    drop(desk);
    Ok(keeps)
}

#[test]
fn memory_desk_keeps_what_it_is_given(rt: HostRuntime) -> Result<(), Fail> {
    assert!(rt; keeps(&rt, b"given", b"written", b"word")?);
    Ok(())
}

const LOAD_FAILS: Answers = Answers {
    load: Err(LoadFault::Failed),
    write: Ok(()),
    say: Ok(()),
};

const WRITE_FAILS: Answers = Answers {
    load: Ok(()),
    write: Err(Failed),
    say: Ok(()),
};

const SAY_FAILS: Answers = Answers {
    load: Ok(()),
    write: Ok(()),
    say: Err(Failed),
};

/// The call that fails, what the six calls are answered, and the bytes in the file and on the screen then.
const FAULTS: [(u64, Answers, &[u8], &[u8]); 6] = [
    (1, LOAD_FAILS, b"written", b"word"),
    (2, WRITE_FAILS, b"", b"word"),
    (3, WRITE_FAILS, b"", b"word"),
    (4, WRITE_FAILS, b"", b"word"),
    (5, WRITE_FAILS, b"", b"word"),
    (6, SAY_FAILS, b"written", b""),
];

#[test]
fn memory_desk_fails_at_each_call(rt: HostRuntime) -> Result<(), Fail> {
    for (ordinal, answers, written, said) in FAULTS {
        assert!(rt;
            leaves(&rt, &[ordinal], answers, written, said)?,
            "call {ordinal}"
        );
    }
    Ok(())
}

/// Whether a sure desk loads the file that it has, and then one that it has not as an empty one.
fn loads(alloc: Global, given: &[u8]) -> Result<bool, AllocError> {
    let mut desk = SureDesk::make(alloc, &[("in", given)])?;
    let mut into = Vec::new(alloc);
    let first = desk.load("in", &mut into) == Ok(()) && into.as_slice() == given;
    let second = desk.load("other", &mut into) == Ok(()) && into.is_empty();
    Ok(first && second)
}

#[test]
fn sure_desk_loads_what_is_there(rt: HostRuntime) -> Result<(), Fail> {
    assert!(rt; loads(rt.alloc(), b"given")?);
    Ok(())
}

/// How many bytes a sure desk counts as put and as said behind a file that was written, one that was dropped, and a
/// word; none where a call failed.
fn counts(alloc: Global) -> Result<Option<(u64, u64)>, AllocError> {
    let mut desk = SureDesk::make(alloc, &[])?;
    let write = write_file(&mut desk, "out", b"wri", b"tten");
    let drop = drop_file(&mut desk, "out");
    let say = desk.say(b"word");
    let done = write == Ok(()) && drop == Ok(()) && say == Ok(());
    Ok(done.then_some((desk.put_count(), desk.said_count())))
}

#[test]
fn sure_desk_counts(rt: HostRuntime) -> Result<(), Fail> {
    assert!(rt; counts(rt.alloc())? == Some((7, 4)));
    Ok(())
}

/// What a desk answered to three files written one behind the other, each in two pieces.
#[derive(Clone, Copy, PartialEq, Eq)]
struct Writings {
    first: Result<(), Failed>,
    second: Result<(), Failed>,
    third: Result<(), Failed>,
}

/// Writes two files and then a third one, the second of that name.
fn write_three(desk: &mut MemoryDesk, second: &str) -> Writings
    requires { desk.old.calls ≡ [] }
{
    let first = write_file(desk, "one", b"fi", b"rst");
    let second = write_file(desk, second, b"sec", b"ond");
    let third = write_file(desk, "three", b"th", b"ird");
    Writings {
        first,
        second,
        third,
    }
}

/// A desk with room for two written files, where these calls fail.
fn two_file_desk(rt: &HostRuntime, failing: &[u64]) -> Result<MemoryDesk, AllocError>
    ensures { IfOk result (λ desk. desk.calls ≡ []) }
{
    MemoryDesk::make_two(rt.alloc(), &[("in", b"given")], 5, 6, 0, failing)
}

/// Whether the three files are answered so where these calls fail, and leave these bytes in each, or none.
fn leaves_files(
    rt: &HostRuntime,
    failing: &[u64],
    second: &str,
    answers: Writings,
    kept: [&[u8]; 3],
) -> Result<bool, AllocError> {
    let mut desk = two_file_desk(rt, failing)?;
    let leaves = write_three(&mut desk, second) == answers
        && tells(&desk, "one", kept[0])
        && tells(&desk, second, kept[1])
        && tells(&desk, "three", kept[2]);
    drop(desk);
    Ok(leaves)
}

const BOTH_KEPT: Writings = Writings {
    first: Ok(()),
    second: Ok(()),
    third: Err(Failed),
};

const SECOND_FAILS: Writings = Writings {
    first: Ok(()),
    second: Err(Failed),
    third: Ok(()),
};

const TWO_FAIL: Writings = Writings {
    first: Err(Failed),
    second: Err(Failed),
    third: Ok(()),
};

/// The call that fails, or 0, the second file's name, what the three are answered, and the bytes of each. The first file
/// may have 5 bytes, and the second 6.
const THREE_FILES: [(u64, &str, Writings, [&[u8]; 3]); 4] = [
    (0, "two", BOTH_KEPT, [b"first", b"second", b""]),
    (0, "one", BOTH_KEPT, [b"second", b"second", b""]),
    (6, "two", SECOND_FAILS, [b"first", b"", b"third"]),
    (2, "two", TWO_FAIL, [b"", b"", b"third"]),
];

#[test]
fn memory_desk_keeps_two_files(rt: HostRuntime) -> Result<(), Fail> {
    for (ordinal, second, answers, kept) in THREE_FILES {
        assert!(rt;
            leaves_files(&rt, &[ordinal], second, answers, kept)?,
            "call {ordinal}, {second}"
        );
    }
    Ok(())
}
