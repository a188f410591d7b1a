//! What runs of `rebase` go on from, write and say.

use cfn_testing::running::{Run, TINY, TRI, certificate_of, check_answers};
use std::alloc::{AllocError, AllocGlobal};
use std::sync::Wait;
use std::test::Fail;
use std::thread::Threads;

/// A good certificate of `TINY`, in the first version.
const OLD: &[u8] =
    b"wcspcert 1\nnetwork 1 1 10\nlower 1\nbest 1\nvalues 1\ntree\np 0 0 0 3\np 0 0 1 1\nu 0 1\nclosed\nend\n";

/// It without its last line.
const CUT: &[u8] =
    b"wcspcert 1\nnetwork 1 1 10\nlower 1\nbest 1\nvalues 1\ntree\np 0 0 0 3\np 0 0 1 1\nu 0 1\nclosed\n";

/// `TINY` where the second value costs 2, and 0.
const DEARER: &[u8] = b"tiny 1 2 1 10\n2\n1 0 3 1\n1 2\n";

const CHEAPER: &[u8] = b"tiny 1 2 1 10\n2\n1 0 3 1\n1 0\n";

const REBASE: [&str; 5] = ["wcspsolve", "rebase", "in", "cert", "out"];

const NO_NODE: [&str; 7] = ["wcspsolve", "rebase", "in", "cert", "out", "--budget", "0"];

const ONTO_ITSELF: [&str; 5] = ["wcspsolve", "rebase", "in", "cert", "cert"];

/// The words of a run, the files `in` and `cert`, and what is to come of it: the status, what is said, and the file `out`, or
/// nothing where there is none.
type Row = (
    &'static [&'static str],
    &'static [u8],
    &'static [u8],
    u8,
    &'static [u8],
    Option<&'static [u8]>,
);

const ROWS: [Row; 5] = [
    // all steps are kept, the best assignment at its new cost; the leaf may not be closed any more
    (
        &NO_NODE,
        DEARER,
        OLD,
        2,
        b"variables 1\nfunctions 1\nworkers 1\nrow 1 2\nlower 1\nupper 2\nvalues 1\nnodes 0\nresult budget\n",
        Some(
            b"wcspcert 2\nnetwork 1 1 10\nlower 1\nbest 2\nvalues 1\ntree\np 0 0 0 3\np 0 0 1 1\nu 0 1\nopen\nend\n",
        ),
    ),
    // the second step takes more than there is; the leaf is closed at once, at the price of the best
    (
        &REBASE,
        CHEAPER,
        OLD,
        0,
        b"variables 1\nfunctions 1\nworkers 1\nrow 0 0\nlower 0\nupper 0\nvalues 1\nnodes 0\nresult optimum\n",
        Some(
            b"wcspcert 2\nnetwork 1 1 10\nlower 0\nbest 0\nvalues 1\ntree\np 0 0 0 3\nclosed\nend\n",
        ),
    ),
    // all is kept where nothing has changed, with no node to spend
    (
        &NO_NODE,
        TINY,
        OLD,
        0,
        b"variables 1\nfunctions 1\nworkers 1\nrow 1 1\nlower 1\nupper 1\nvalues 1\nnodes 0\nresult optimum\n",
        Some(
            b"wcspcert 2\nnetwork 1 1 10\nlower 1\nbest 1\nvalues 1\ntree\np 0 0 0 3\np 0 0 1 1\nu 0 1\nclosed\nend\n",
        ),
    ),
    // a text that spells no certificate
    (&REBASE, TINY, CUT, 7, b"refused text at 11\n", None),
    // the file is read before it
    (&REBASE, b"", CUT, 4, b"error short at 1\n", None),
];

#[test]
fn rows_of_rebase(rt: HostRuntime) -> Result<(), Fail> {
    for (place, (words, file, old, status, said, written)) in ROWS.iter().enumerate() {
        let run = Run::over(&rt, words, &[("in", file), ("cert", old)], &[], "out")?;
        assert!(rt;
            run.status == *status && run.said() == *said && run.file() == *written,
            "row {place}"
        );
    }
    Ok(())
}

/// Whether a run of `rebase` from `cert` onto itself ends with the optimum of a file, says these lines, and leaves a
/// certificate that is judged so.
fn ends_well<R: AllocGlobal + Threads + Wait + Sync>(
    rt: &R,
    file: &[u8],
    old: &[u8],
    lines: &[u8],
    judged: &[u8],
) -> Result<bool, AllocError> {
    let files = [("in", file), ("cert", old)];
    let run = Run::over(rt, &ONTO_ITSELF, &files, &[], "cert")?;
    Ok(run.status == 0 && run.says(lines) && check_answers(rt, file, run.certificate(), 0, judged)?)
}

#[test]
fn dearer_best_is_an_optimum_anew(rt: HostRuntime) -> Result<(), Fail> {
    let lines = b"row 1 2\nlower 2\nupper 2\nvalues 1\nresult optimum".as_slice();
    assert!(rt; ends_well(&rt, DEARER, OLD, lines, b"verified lower 2 best 2\n")?);
    Ok(())
}

/// The budget that a first run has, and the lines that the run says which goes on from it.
const BUDGETS: [(&str, &[u8]); 7] = [
    (
        "1",
        b"row 0 none\nlower 1\nupper 1\nnodes 6\nresult optimum",
    ),
    (
        "2",
        b"row 0 none\nlower 1\nupper 1\nnodes 4\nresult optimum",
    ),
    (
        "3",
        b"row 0 none\nlower 1\nupper 1\nnodes 2\nresult optimum",
    ),
    ("4", b"row 0 1\nlower 1\nupper 1\nnodes 1\nresult optimum"),
    ("5", b"row 0 1\nlower 1\nupper 1\nnodes 1\nresult optimum"),
    ("6", b"row 0 1\nlower 1\nupper 1\nnodes 1\nresult optimum"),
    ("7", b"row 1 1\nlower 1\nupper 1\nnodes 0\nresult optimum"),
];

/// A run that was cut goes on where it stopped: both make no more nodes than one that was not cut, and no bound falls.
#[test]
fn cut_run_goes_on(rt: HostRuntime) -> Result<(), Fail> {
    for (budget, lines) in BUDGETS {
        let old = certificate_of(&rt, TRI, budget)?;
        assert!(rt;
            ends_well(&rt, TRI, &old, lines, b"verified lower 1 best 1\n")?,
            "budget {budget}"
        );
    }
    Ok(())
}

/// The certificate of `TRI` after one node: two open leaves.
const SPLIT: &[u8] =
    b"wcspcert 2\nnetwork 3 3 10\nlower 0\nbest none\ntree\nsplit 0 0\nopen\nopen\nend\n";

/// The part of so many, the workers, what its run says, and what its certificate has at its end: the others' leaf.
const PARTS: [(&str, &str, &str, &[u8], &[u8]); 5] = [
    (
        "1",
        "2",
        "1",
        b"row 0 none\nlower 0\nupper 1\nnodes 4\nresult part",
        b"\nclosed\nopen\nend\n",
    ),
    (
        "2",
        "2",
        "1",
        b"row 0 none\nlower 0\nupper 1\nnodes 4\nresult part",
        b"\nclosed\nend\n",
    ),
    (
        "1",
        "2",
        "3",
        b"lower 0\nupper 1\nresult part",
        b"\nclosed\nopen\nend\n",
    ),
    (
        "3",
        "3",
        "1",
        b"row 0 none\nlower 0\nupper none\nnodes 0\nresult part",
        b"\nsplit 0 0\nopen\nopen\nend\n",
    ),
    (
        "3",
        "3",
        "2",
        b"row 0 none\nlower 0\nupper none\nnodes 0\nresult part",
        b"\nsplit 0 0\nopen\nopen\nend\n",
    ),
];

/// A part works on its own leaves alone, by one worker and by several, and ends where they are closed.
#[test]
fn part_has_its_own_leaves(rt: HostRuntime) -> Result<(), Fail> {
    for (place, (part, parts, workers, lines, end)) in PARTS.iter().enumerate() {
        let words = [
            "wcspsolve",
            "rebase",
            "in",
            "cert",
            "out",
            "--part",
            part,
            "--parts",
            parts,
            "--workers",
            workers,
        ];
        let run = Run::over(&rt, &words, &[("in", TRI), ("cert", SPLIT)], &[], "out")?;
        assert!(rt;
            run.status == 2 && run.says(lines) && run.certificate().ends_with(end),
            "row {place}"
        );
    }
    Ok(())
}

/// `TINY` with a lower upper bound, and a certificate of two open leaves, of which the first has a floor that reaches it.
const LOWERED: &[u8] = b"tiny 1 2 1 3\n2\n1 0 3 1\n1 1\n";

const TWO_FLOORS: &[u8] =
    b"wcspcert 2\nnetwork 1 1 10\nlower 0\nbest none\ntree\nsplit 0 0\np 0 0 0 3\nu 0 3\nopen\nopen\nend\n";

/// The part of two, its limit, and the result: the first leaf is closed at the end, whose ever it is, and the second is open.
const LEFT: [(&str, &str, &[u8]); 4] = [
    ("1", "--seconds", b"nodes 0\nresult part"),
    ("1", "--budget", b"nodes 0\nresult part"),
    ("2", "--seconds", b"nodes 0\nresult time"),
    ("2", "--budget", b"nodes 0\nresult budget"),
];

/// The rest is others' where each open leaf is, and not where as few are open.
#[test]
fn rest_is_told_by_leaves(rt: HostRuntime) -> Result<(), Fail> {
    for (place, (part, limit, lines)) in LEFT.iter().enumerate() {
        let words = [
            "wcspsolve",
            "rebase",
            "in",
            "cert",
            "out",
            "--part",
            part,
            "--parts",
            "2",
            limit,
            "0",
        ];
        let run = Run::over(
            &rt,
            &words,
            &[("in", LOWERED), ("cert", TWO_FLOORS)],
            &[],
            "out",
        )?;
        assert!(rt;
            run.status == 2
                && run.says(lines)
                && run.certificate().ends_with(b"\nclosed\nopen\nend\n"),
            "row {place}"
        );
    }
    Ok(())
}
