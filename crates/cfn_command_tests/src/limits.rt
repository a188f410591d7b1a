//! Runs of `kbest` that end at a limit, and runs in which a call on the outside fails.

use cfn_testing::running::{Run, TINY, TRI};
use std::alloc::{AllocError, AllocGlobal};
use std::sync::Wait;
use std::test::Fail;
use std::thread::Threads;

/// Words that end at a limit, and the last line that they say.
const LIMITED: [(&[&str], &[u8]); 4] = [
    (
        &["wcspsolve", "kbest", "in", "8", "out", "--budget", "0"],
        b"result budget",
    ),
    (
        &["wcspsolve", "kbest", "in", "8", "out", "--budget", "1"],
        b"result budget",
    ),
    (
        &["wcspsolve", "kbest", "in", "8", "out", "--budget", "5"],
        b"result budget",
    ),
    (
        &["wcspsolve", "kbest", "in", "8", "out", "--seconds", "0"],
        b"result time",
    ),
];

/// Whether words end with the status of a limit and this line, and `checkbest` verifies what they wrote, and says that it is not
/// complete where that is asked.
fn is_limited<R: AllocGlobal + Threads + Wait + Sync>(
    rt: &R,
    words: &[&str],
    line: &[u8],
) -> Result<bool, AllocError> {
    let run = Run::of(rt, words, TRI, &[])?;
    let files = [("in", TRI), ("list", run.certificate())];
    let words = ["wcspsolve", "checkbest", "in", "list", "--complete"];
    let judged = Run::over(rt, &words[..4], &files, &[], "list")?;
    let asked = Run::over(rt, &words, &files, &[], "list")?;
    let is_judged = judged.status == 0 && !judged.says(b"open");
    let is_open = asked.status == 2 && asked.says(b"open");
    Ok(run.status == 2 && run.says(line) && is_judged && is_open)
}

#[test]
fn limits_end_a_search(rt: HostRuntime) -> Result<(), Fail> {
    for (place, (words, line)) in LIMITED.iter().enumerate() {
        assert!(rt; is_limited(&rt, words, line)?, "row {place}");
    }
    Ok(())
}

/// What `out` has before each run.
const EARLIER: &[u8] = b"earlier";

/// Whether the run whose call with this ordinal fails ends in order, beside the run in which none fails: behind a failed load or put
/// the fault is said, and `out` is what it was; else a front of the report is said, and `out` is whole. `None` where there is no
/// such call.
fn in_order(whole: &Run, run: &Run, failing: u64) -> Option<bool> {
    let said = run.said();
    let is_whole = run.certificate() == whole.certificate();
    if run.status == 0 && said == whole.said() && is_whole {
        return None;
    }
    let is_earlier = run.certificate() == EARLIER;
    let is_due = if failing == 1 {
        said == b"error read\n".as_slice() && is_earlier
    } else if said == b"error write\n".as_slice() {
        is_earlier
    } else {
        whole.said().starts_with(said) && said.len() < whole.said().len() && is_whole
    };
    Some(run.status == 5 && run.begun == 0 && is_due)
}

/// How many calls of `kbest` fail in order, one in each run; or `None` where a run was not in order.
fn faults<R: AllocGlobal + Threads + Wait + Sync>(rt: &R) -> Result<Option<u64>, AllocError> {
    let words = ["wcspsolve", "kbest", "in", "2", "out"];
    let files = [("in", TINY), ("out", EARLIER)];
    let whole = Run::over(rt, &words, &files, &[], "out")?;
    for failing in 1..200 {
        let run = Run::over(rt, &words, &files, &[failing], "out")?;
        match in_order(&whole, &run, failing) {
            None => return Ok(Some(failing - 1)),
            Some(true) => {}
            Some(false) => return Ok(None),
        }
    }
    Ok(None)
}

#[test]
fn each_failing_call_is_a_fault(rt: HostRuntime) -> Result<(), Fail> {
    // the load, the opening, 43 puts, the closing, and the five lines of the report
    let found = faults(&rt)?.unwrap_or(0);
    assert!(rt; found == 51, "{found} calls");
    Ok(())
}
