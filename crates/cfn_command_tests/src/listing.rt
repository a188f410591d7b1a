//! What runs of `checkbest` say of lists of the cheapest assignments.

use cfn_testing::running::{Run, TINY};
use std::alloc::{AllocError, AllocGlobal};
use std::sync::Wait;
use std::test::Fail;
use std::thread::Threads;

/// A good list of both assignments of `TINY`.
const BOTH: &[u8] =
    b"wcspbest 1\nnetwork 1 1 10\ncount 2\nlower 3\nbest 2\nvalues 1 1\nvalues 3 0\ntree\nsplit 0 0\nlisted 1\nlisted 0\nend\n";

/// The same with the two leaves exchanged.
const EXCHANGED: &[u8] =
    b"wcspbest 1\nnetwork 1 1 10\ncount 2\nlower 3\nbest 2\nvalues 1 1\nvalues 3 0\ntree\nsplit 0 0\nlisted 0\nlisted 1\nend\n";

/// One assignment twice.
const TWICE: &[u8] =
    b"wcspbest 1\nnetwork 1 1 10\ncount 2\nlower 1\nbest 2\nvalues 1 1\nvalues 1 1\ntree\nopen\nend\n";

/// The list of the cheapest one alone, whose tree shows no bound yet.
const ONE: &[u8] =
    b"wcspbest 1\nnetwork 1 1 10\ncount 1\nlower 0\nbest 1\nvalues 1 1\ntree\nsplit 0 0\nopen\nlisted 0\nend\n";

/// The list of both where three were asked for: all others cost the upper bound.
const FEWER: &[u8] =
    b"wcspbest 1\nnetwork 1 1 10\ncount 3\nlower 10\nbest 2\nvalues 1 1\nvalues 3 0\ntree\nsplit 0 0\nlisted 1\nlisted 0\nend\n";

/// The same with a lower bound below that, which does not say so.
const BELOW: &[u8] =
    b"wcspbest 1\nnetwork 1 1 10\ncount 3\nlower 9\nbest 2\nvalues 1 1\nvalues 3 0\ntree\nsplit 0 0\nlisted 1\nlisted 0\nend\n";

/// The list of the cheapest one alone with a lower bound that its tree does not show.
const ABOVE: &[u8] =
    b"wcspbest 1\nnetwork 1 1 10\ncount 1\nlower 1\nbest 1\nvalues 1 1\ntree\nsplit 0 0\nopen\nlisted 0\nend\n";

/// The list of both without its last line.
const CUT: &[u8] =
    b"wcspbest 1\nnetwork 1 1 10\ncount 2\nlower 3\nbest 2\nvalues 1 1\nvalues 3 0\ntree\nsplit 0 0\nlisted 1\nlisted 0\n";

/// A good certificate of `TINY`, which is no list.
const CERTIFICATE: &[u8] =
    b"wcspcert 1\nnetwork 1 1 10\nlower 1\nbest 1\nvalues 1\ntree\np 0 0 0 3\np 0 0 1 1\nu 0 1\nclosed\nend\n";

/// Words that ask whether a list is complete; without the last of them they only ask whether it is good.
const WORDS: [&str; 5] = ["wcspsolve", "checkbest", "in", "list", "--complete"];

/// Lists of `TINY`, and with which status and text each is judged.
const LISTS: [(&[u8], u8, &[u8]); 9] = [
    (BOTH, 0, b"verified lower 3 count 2\n"),
    (EXCHANGED, 7, b"refused listed at 10\n"),
    (TWICE, 7, b"refused best at 7\n"),
    (ONE, 0, b"verified lower 0 count 1\n"),
    (FEWER, 0, b"verified lower 10 count 2\n"),
    (BELOW, 0, b"verified lower 9 count 2\n"),
    (ABOVE, 7, b"refused lower at 4\n"),
    (CUT, 7, b"refused text at 12\n"),
    (CERTIFICATE, 7, b"refused text at 1\n"),
];

/// The same where it is asked whether a list is complete.
const COMPLETE: [(&[u8], u8, &[u8]); 5] = [
    (BOTH, 0, b"verified lower 3 count 2\n"),
    (ONE, 2, b"verified lower 0 count 1\nopen\n"),
    (FEWER, 0, b"verified lower 10 count 2\n"),
    (BELOW, 2, b"verified lower 9 count 2\nopen\n"),
    (EXCHANGED, 7, b"refused listed at 10\n"),
];

/// Whether these words of `checkbest` end with this status and say this, where these are the bytes of the two files.
fn answers<R: AllocGlobal + Threads + Wait + Sync>(
    rt: &R,
    words: &[&str],
    file: &[u8],
    list: &[u8],
    status: u8,
    said: &[u8],
) -> Result<bool, AllocError> {
    let run = Run::over(rt, words, &[("in", file), ("list", list)], &[], "out")?;
    Ok(run.status == status && run.said() == said && run.file().is_none())
}

#[test]
fn lists_are_judged(rt: HostRuntime) -> Result<(), Fail> {
    for (place, (list, status, said)) in LISTS.iter().enumerate() {
        assert!(rt;
            answers(&rt, &WORDS[..4], TINY, list, *status, said)?,
            "list {place}"
        );
    }
    Ok(())
}

#[test]
fn complete_lists_are_told(rt: HostRuntime) -> Result<(), Fail> {
    for (place, (list, status, said)) in COMPLETE.iter().enumerate() {
        assert!(rt;
            answers(&rt, &WORDS, TINY, list, *status, said)?,
            "list {place}"
        );
    }
    Ok(())
}

#[test]
fn file_that_is_refused_comes_first(rt: HostRuntime) -> Result<(), Fail> {
    let said = b"error short at 2\n".as_slice();
    assert!(rt; answers(&rt, &WORDS[..4], b"tiny", EXCHANGED, 4, said)?);
    Ok(())
}

#[test]
fn list_that_is_missing_is_a_read_fault(rt: HostRuntime) -> Result<(), Fail> {
    let words = ["wcspsolve", "checkbest", "in", "nowhere"];
    let run = Run::of(&rt, &words, TINY, &[])?;
    assert!(rt; run.status == 5 && run.said() == b"error read\n".as_slice());
    Ok(())
}
