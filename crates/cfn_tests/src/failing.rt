//! What a run says and leaves where a call on the outside fails.

use crate::rows::Whole;
use cfn_testing::running::{Run, SOLVE, TINY};
use std::alloc::{AllocError, AllocGlobal};
use std::sync::Wait;
use std::test::Fail;
use std::thread::Threads;

/// Runs of which all is known.
pub(crate) const WHOLE: [Whole; 5] = [
    // a load that fails is a read fault
    (&SOLVE, TINY, &[1], 5, b"error read\n", b""),
    (
        &["wcspsolve", "solve", "nowhere", "out"],
        TINY,
        &[],
        5,
        b"error read\n",
        b"",
    ),
    // a fault that can not be said is a fault
    (&SOLVE, TINY, &[1, 2], 5, b"", b""),
    (&SOLVE, TINY, &[2, 3], 5, b"", b""),
    (&SOLVE, TINY, &[5, 6], 5, b"", b""),
];

/// A good certificate of `TINY`, of the first version.
const GOOD: &[u8] =
    b"wcspcert 1\nnetwork 1 1 10\nlower 1\nbest 1\nvalues 1\ntree\np 0 0 0 3\np 0 0 1 1\nu 0 1\nclosed\nend\n";

/// A good list of the two assignments of `TINY`.
const LIST: &[u8] =
    b"wcspbest 1\nnetwork 1 1 10\ncount 2\nlower 3\nbest 2\nvalues 1 1\nvalues 3 0\ntree\nsplit 0 0\nlisted 1\nlisted 0\nend\n";

/// What `out` has before each run.
const EARLIER: &[u8] = b"earlier";

/// The words of a run over the files `in`, `cert`, `list` and `out`, how many of its calls load a file, and how many calls it makes.
type Device = (&'static [&'static str], u64, u64);

const DEVICES: [Device; 10] = [
    // the load, the opening, 32 puts, the closing, and the eleven lines of the report
    (&SOLVE, 1, 46),
    (&["wcspsolve", "check", "in", "cert"], 2, 3),
    (&["wcspsolve", "checkbest", "in", "list"], 2, 3),
    (&["wcspsolve", "cost", "in", "1"], 1, 2),
    (&["wcspsolve", "normal", "in"], 1, 2),
    // three lines
    (&["wcspsolve", "trial", "7", "2"], 0, 3),
    // two loads, the opening, three puts, the closing, and the line
    (&["wcspsolve", "migrate", "in", "cert", "out"], 2, 8),
    // two loads, the opening, 28 puts, the closing, and the nine lines of the report
    (&["wcspsolve", "rebase", "in", "cert", "out"], 2, 41),
    // three loads, the opening, 28 puts, the closing, and the line
    (&["wcspsolve", "merge", "in", "out", "cert", "cert"], 3, 34),
    (&["wcspsolve"], 0, 1),
];

/// How a run ended in which one call was to fail.
#[derive(Clone, Copy, PartialEq, Eq)]
enum Fault {
    /// There was no such call: the run is as it is where none fails.
    None,
    /// The status was 5, and what was said and left is in order.
    Said,
    /// Something was not in order.
    Wrong,
}

/// How a run ended whose call with this ordinal was to fail, beside the run in which none fails: after a failed load or put the
/// fault is said, and `out` is what it was; else a front of the text is said, and `out` is whole. No file is being written.
fn fault_at(whole: &Run, run: &Run, loads: u64, failing: u64) -> Fault {
    let said = run.said();
    let is_whole = run.certificate() == whole.certificate();
    if run.status == whole.status && said == whole.said() && is_whole {
        return Fault::None;
    }
    let is_earlier = run.certificate() == EARLIER;
    let in_order = if failing <= loads {
        said == b"error read\n".as_slice() && is_earlier
    } else if said == b"error write\n".as_slice() {
        is_earlier
    } else {
        whole.said().starts_with(said) && said.len() < whole.said().len() && is_whole
    };
    if run.status == 5 && run.begun == 0 && in_order {
        Fault::Said
    } else {
        Fault::Wrong
    }
}

/// How many calls of a run fail in order, one in each run, from the first on up to the first that is not there; or `None` where
/// a run was not in order.
fn faults_of<R: AllocGlobal + Threads + Wait + Sync>(
    rt: &R,
    words: &[&str],
    loads: u64,
) -> Result<Option<u64>, AllocError> {
    let files = [
        ("in", TINY),
        ("cert", GOOD),
        ("list", LIST),
        ("out", EARLIER),
    ];
    let whole = Run::over(rt, words, &files, &[], "out")?;
    for failing in 1..200 {
        let run = Run::over(rt, words, &files, &[failing], "out")?;
        match fault_at(&whole, &run, loads, failing) {
            Fault::None => return Ok(Some(failing - 1)),
            Fault::Said => {}
            Fault::Wrong => return Ok(None),
        }
    }
    Ok(None)
}

/// Whichever call of a command fails, the status is 5, and a file that was there before is as it was, or whole.
#[test]
fn each_failing_call_is_a_fault(rt: HostRuntime) -> Result<(), Fail> {
    for (place, (words, loads, calls)) in DEVICES.iter().enumerate() {
        let found = faults_of(&rt, words, *loads)?.unwrap_or(0);
        assert!(rt; found == *calls, "command {place}: {found} calls");
    }
    Ok(())
}
