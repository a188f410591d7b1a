//! What runs of `merge` say and write.

use cfn_testing::running::{Run, TINY, TRI};
use std::alloc::{AllocError, AllocGlobal};
use std::sync::Wait;
use std::test::Fail;
use std::thread::Threads;

/// A good certificate of `TINY`.
const BEST: &[u8] =
    b"wcspcert 1\nnetwork 1 1 10\nlower 1\nbest 1\nvalues 1\ntree\np 0 0 0 3\np 0 0 1 1\nu 0 1\nclosed\nend\n";

/// What it is merged with itself: its text in the second version.
const AGAIN: &[u8] =
    b"wcspcert 2\nnetwork 1 1 10\nlower 1\nbest 1\nvalues 1\ntree\np 0 0 0 3\np 0 0 1 1\nu 0 1\nclosed\nend\n";

/// One with a dearer best assignment and an open leaf.
const DEARER: &[u8] = b"wcspcert 2\nnetwork 1 1 10\nlower 0\nbest 3\nvalues 0\ntree\nopen\nend\n";

/// One that lifts what is not there.
const BAD: &[u8] = b"wcspcert 2\nnetwork 1 1 10\nlower 0\nbest none\ntree\nu 0 1\nopen\nend\n";

/// Two certificates of `TRI`, each with one side of the root's split closed.
const FIRST: &[u8] =
    b"wcspcert 2\nnetwork 3 3 10\nlower 0\nbest 1\nvalues 0 0 1\ntree\nsplit 0 0\np 0 1 0 1\np 1 1 0 1\ne 2 1 0 1\np 2 0 1 1\nu 1 1\nsplit 1 0\np 2 1 0 2\nsplit 2 1\nclosed\nclosed\nclosed\nopen\nend\n";

const SECOND: &[u8] =
    b"wcspcert 2\nnetwork 3 3 10\nlower 0\nbest 1\nvalues 0 0 1\ntree\nsplit 0 0\nopen\np 0 1 1 1\nv 1 1\np 1 1 1 1\nv 2 1\np 2 0 0 1\nv 1 0\nclosed\nend\n";

/// The run that merges two certificates for a file.
fn merge<R: AllocGlobal + Threads + Wait + Sync>(
    rt: &R,
    file: &[u8],
    first: &[u8],
    second: &[u8],
) -> Result<Run, AllocError> {
    let words = ["wcspsolve", "merge", "in", "out", "a", "b"];
    let files = [("in", file), ("a", first), ("b", second)];
    Run::over(rt, &words, &files, &[], "out")
}

#[test]
fn one_with_itself_is_its_text_in_the_second_version(rt: HostRuntime) -> Result<(), Fail> {
    let run = merge(&rt, TINY, BEST, BEST)?;
    assert!(rt; run.status == 0 && run.said() == b"merged lower 1 best 1\n".as_slice());
    assert!(rt; run.certificate() == AGAIN);
    Ok(())
}

#[test]
fn cheaper_best_is_taken(rt: HostRuntime) -> Result<(), Fail> {
    let run = merge(&rt, TINY, DEARER, BEST)?;
    assert!(rt; run.status == 0 && run.said() == b"merged lower 1 best 1\n".as_slice());
    assert!(rt; run.certificate() == AGAIN);
    Ok(())
}

#[test]
fn both_sides_are_joined(rt: HostRuntime) -> Result<(), Fail> {
    let run = merge(&rt, TRI, FIRST, SECOND)?;
    assert!(rt; run.status == 0 && run.said() == b"merged lower 1 best 1\n".as_slice());
    Ok(())
}

#[test]
fn second_that_is_bad_is_named(rt: HostRuntime) -> Result<(), Fail> {
    let run = merge(&rt, TINY, BEST, BAD)?;
    assert!(rt; run.status == 7 && run.said() == b"refused lift at 6 in 2\n".as_slice());
    assert!(rt; run.file().is_none());
    Ok(())
}
