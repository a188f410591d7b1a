//! What runs of `kbest` say of networks of which all is known, and how the lists that they write are judged.

use cfn_testing::running::{Run, TINY, TRI};
use std::alloc::{AllocError, AllocGlobal};
use std::sync::Wait;
use std::test::Fail;
use std::thread::Threads;

/// One variable with two values, of which each is forbidden.
const NONE: &[u8] = b"none 1 2 1 10\n2\n1 0 10 0\n";

/// How many assignments of a network are asked for, the status and the text that this ends with, and what `checkbest` says of the
/// list.
type Row = (
    &'static [u8],
    &'static str,
    u8,
    &'static [u8],
    &'static [u8],
);

const ROWS: [Row; 8] = [
    (
        TINY,
        "1",
        0,
        b"count 1\ncost 1 values 1\nlower 1\nresult complete\n",
        b"verified lower 1 count 1\n",
    ),
    (
        TINY,
        "2",
        0,
        b"count 2\ncost 1 values 1\ncost 3 values 0\nlower 3\nresult complete\n",
        b"verified lower 3 count 2\n",
    ),
    // there are no more, and so all others cost the upper bound
    (
        TINY,
        "3",
        0,
        b"count 2\ncost 1 values 1\ncost 3 values 0\nlower 10\nresult complete\n",
        b"verified lower 10 count 2\n",
    ),
    (
        TINY,
        "1000",
        0,
        b"count 2\ncost 1 values 1\ncost 3 values 0\nlower 10\nresult complete\n",
        b"verified lower 10 count 2\n",
    ),
    (
        TRI,
        "6",
        0,
        b"count 6\ncost 1 values 0 0 1\ncost 1 values 0 1 0\ncost 1 values 0 1 1\ncost 1 values 1 0 0\ncost 1 values 1 0 1\n\
        cost 1 values 1 1 0\nlower 1\nresult complete\n",
        b"verified lower 1 count 6\n",
    ),
    // of the two that cost 3 any one may be listed
    (
        TRI,
        "8",
        0,
        b"count 8\ncost 1 values 0 0 1\ncost 1 values 0 1 0\ncost 1 values 0 1 1\ncost 1 values 1 0 0\ncost 1 values 1 0 1\n\
        cost 1 values 1 1 0\ncost 3 values 0 0 0\ncost 3 values 1 1 1\nlower 3\nresult complete\n",
        b"verified lower 3 count 8\n",
    ),
    (
        TRI,
        "9",
        0,
        b"count 8\ncost 1 values 0 0 1\ncost 1 values 0 1 0\ncost 1 values 0 1 1\ncost 1 values 1 0 0\ncost 1 values 1 0 1\n\
        cost 1 values 1 1 0\ncost 3 values 0 0 0\ncost 3 values 1 1 1\nlower 10\nresult complete\n",
        b"verified lower 10 count 8\n",
    ),
    (
        NONE,
        "1",
        1,
        b"count 0\nlower 10\nresult complete\n",
        b"verified lower 10 count 0\n",
    ),
];

/// Whether `checkbest` verifies a list of a file, and says this of it, also where it is asked whether the list is complete.
fn is_verified<R: AllocGlobal + Threads + Wait + Sync>(
    rt: &R,
    file: &[u8],
    list: &[u8],
    verdict: &[u8],
) -> Result<bool, AllocError> {
    let words = ["wcspsolve", "checkbest", "in", "list", "--complete"];
    let files = [("in", file), ("list", list)];
    let run = Run::over(rt, &words[..4], &files, &[], "list")?;
    let asked = Run::over(rt, &words, &files, &[], "list")?;
    let is_due = run.status == 0 && run.said() == verdict;
    Ok(is_due && asked.status == 0 && asked.said() == verdict)
}

/// Whether `kbest` ends so, and `checkbest` verifies what it wrote so.
fn lists<R: AllocGlobal + Threads + Wait + Sync>(
    rt: &R,
    (file, count, status, said, verdict): Row,
) -> Result<bool, AllocError> {
    let run = Run::of(rt, &["wcspsolve", "kbest", "in", count, "out"], file, &[])?;
    let is_due = run.status == status && run.said() == said && run.begun == 0;
    Ok(is_due && is_verified(rt, file, run.certificate(), verdict)?)
}

#[test]
fn lists_are_complete_and_verified(rt: HostRuntime) -> Result<(), Fail> {
    for (place, row) in ROWS.iter().enumerate() {
        assert!(rt; lists(&rt, *row)?, "row {place}");
    }
    Ok(())
}

/// Whether the seven that are asked for of `TRI` are there, of which the last costs 3, and no other costs less.
fn lists_seven<R: AllocGlobal + Threads + Wait + Sync>(rt: &R) -> Result<bool, AllocError> {
    let run = Run::of(rt, &["wcspsolve", "kbest", "in", "7", "out"], TRI, &[])?;
    let is_first = run.says(b"cost 3 values 0 0 0");
    let is_last = run.says(b"cost 3 values 1 1 1");
    let is_due = run.status == 0
        && is_first != is_last
        && run.says(b"count 7\ncost 1 values 1 1 0\nlower 3\nresult complete");
    Ok(is_due && is_verified(rt, TRI, run.certificate(), b"verified lower 3 count 7\n")?)
}

#[test]
fn one_of_equals_is_listed(rt: HostRuntime) -> Result<(), Fail> {
    assert!(rt; lists_seven(&rt)?);
    Ok(())
}

/// One clause of weight 3, which the second value satisfies.
const CLAUSE: &[u8] = b"p wcnf 1 1 10\n3 1 0\n";

#[test]
fn formula_is_listed(rt: HostRuntime) -> Result<(), Fail> {
    let words = ["wcspsolve", "kbest", "--wcnf", "in", "2", "out"];
    let run = Run::of(&rt, &words, CLAUSE, &[])?;
    let said = b"count 2\ncost 0 values 1\ncost 3 values 0\nlower 3\nresult complete\n".as_slice();
    assert!(rt; run.status == 0 && run.said() == said);
    Ok(())
}

/// Words that list nothing, over which file, and how they end.
const REFUSED: [(&[&str], &[u8], u8, &[u8]); 4] = [
    (
        &["wcspsolve", "kbest", "in", "2", "out"],
        b"tiny",
        4,
        b"error short at 2\n",
    ),
    (
        &["wcspsolve", "kbest", "--wcnf", "in", "2", "out"],
        TINY,
        4,
        b"error header at 1\n",
    ),
    (
        &["wcspsolve", "kbest", "nowhere", "2", "out"],
        TINY,
        5,
        b"error read\n",
    ),
    (
        &["wcspsolve", "kbest", "nowhere", "1001", "out"],
        TINY,
        3,
        b"error usage\n",
    ),
];

/// Whether words end with this status and say this first, and write nothing.
fn refuses<R: AllocGlobal + Threads + Wait + Sync>(
    rt: &R,
    words: &[&str],
    file: &[u8],
    status: u8,
    said: &[u8],
) -> Result<bool, AllocError> {
    let run = Run::of(rt, words, file, &[])?;
    Ok(run.status == status && run.said().starts_with(said) && run.file().is_none())
}

#[test]
fn nothing_is_listed_of_what_is_refused(rt: HostRuntime) -> Result<(), Fail> {
    for (place, (words, file, status, said)) in REFUSED.iter().enumerate() {
        assert!(rt; refuses(&rt, words, file, *status, said)?, "row {place}");
    }
    Ok(())
}
