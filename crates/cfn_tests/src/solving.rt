//! What runs of `solve` find.
//!
//! The costs are worked out by hand from the files. Of a report only the lines are judged that every search owes:
//! how many nodes it takes, and which of several best assignments it finds, is its own affair.

use crate::rows::{Lined, Whole};
use cfn_testing::running::{Run, SOLVE, TINY, TRI, has_front, has_line};
use std::alloc::{AllocError, AllocGlobal};
use std::sync::Wait;
use std::test::Fail;
use std::thread::Threads;

/// Runs of which some lines and the front of the certificate are known: with one best assignment, with none below the upper
/// bound, and with several best ones.
pub(crate) const LINED: [Lined; 14] = [
    // one value costs less than the other
    (
        &SOLVE,
        TINY,
        0,
        b"workers 1\nlower 1\nupper 1\nvalues 1\nresult optimum",
        Some(b"network 1 1 10\nlower 1\nbest 1\nvalues 1\n"),
    ),
    // the last listing of a tuple counts
    (
        &SOLVE,
        b"twice 1 2 1 100\n2\n1 0 9 2\n0 5\n0 2\n",
        0,
        b"workers 1\nlower 2\nupper 2\nvalues 0\nresult optimum",
        Some(b"network 1 1 100\nlower 2\nbest 2\nvalues 0\n"),
    ),
    // a cost of one less than the upper bound is allowed
    (
        &SOLVE,
        b"tiny 1 2 1 2\n2\n1 0 3 1\n1 1\n",
        0,
        b"workers 1\nlower 1\nupper 1\nvalues 1\nresult optimum",
        Some(b"network 1 1 2\nlower 1\nbest 1\nvalues 1\n"),
    ),
    // an entry above the upper bound counts as the upper bound
    (
        &SOLVE,
        b"above 1 2 1 10\n2\n1 0 11 1\n1 9\n",
        0,
        b"workers 1\nlower 9\nupper 9\nvalues 1\nresult optimum",
        Some(b"network 1 1 10\nlower 9\nbest 9\nvalues 1\n"),
    ),
    // functions on one scope add up
    (
        &SOLVE,
        b"same 1 2 2 10\n2\n1 0 1 0\n1 0 2 1\n0 0\n",
        0,
        b"workers 1\nlower 1\nupper 1\nvalues 0\nresult optimum",
        Some(b"network 1 2 10\nlower 1\nbest 1\nvalues 0\n"),
    ),
    // the last listing of a constant counts
    (
        &SOLVE,
        b"const 1 1 1 10\n1\n0 7 2\n5\n3\n",
        0,
        b"workers 1\nlower 3\nupper 3\nvalues 0\nresult optimum",
        Some(b"network 1 1 10\nlower 3\nbest 3\nvalues 0\n"),
    ),
    // the values of a tuple are in the order of the scope
    (
        &SOLVE,
        b"back 2 3 1 10\n2 3\n2 1 0 9 1\n2 1 0\n",
        0,
        b"workers 1\nlower 0\nupper 0\nvalues 1 2\nresult optimum",
        Some(b"network 2 1 10\nlower 0\nbest 0\nvalues 1 2\n"),
    ),
    // a constant, a function over one variable and one over both
    (
        &SOLVE,
        b"pair 2 3 3 100\n2 3\n2 0 1 9 2\n1 2 4\n0 1 5\n1 1 3 1\n1 0\n0 2 0\n",
        0,
        b"workers 1\nlower 7\nupper 7\nvalues 0 1\nresult optimum",
        Some(b"network 2 3 100\nlower 7\nbest 7\nvalues 0 1\n"),
    ),
    // no function at all
    (
        &SOLVE,
        b"none 2 1 0 1\n1 1\n",
        0,
        b"workers 1\nlower 0\nupper 0\nvalues 0 0\nresult optimum",
        Some(b"network 2 0 1\nlower 0\nbest 0\nvalues 0 0\n"),
    ),
    // every tuple has the default cost, which is the upper bound
    (
        &SOLVE,
        b"hard 2 2 1 5\n2 2\n2 0 1 5 0\n",
        1,
        b"variables 2\nfunctions 1\nworkers 1\nlower 5\nupper none\nresult none",
        Some(b"network 2 1 5\nlower 5\nbest none\ntree\n"),
    ),
    // both entries are at least the upper bound
    (
        &SOLVE,
        b"tiny 1 2 1 1\n2\n1 0 3 1\n1 1\n",
        1,
        b"variables 1\nfunctions 1\nworkers 1\nlower 1\nupper none\nresult none",
        Some(b"network 1 1 1\nlower 1\nbest none\ntree\n"),
    ),
    // the costs add up to the upper bound
    (
        &SOLVE,
        b"sum 1 1 2 10\n1\n1 0 4 0\n1 0 6 0\n",
        1,
        b"variables 1\nfunctions 2\nworkers 1\nlower 10\nupper none\nresult none",
        Some(b"network 1 2 10\nlower 10\nbest none\ntree\n"),
    ),
    // the greatest upper bound, and costs whose sum is above every number of the file
    (
        &SOLVE,
        b"top 1 1 2 9223372036854775807\n1\n1 0 9223372036854775807 0\n1 0 9223372036854775807 0\n",
        1,
        b"variables 1\nfunctions 2\nworkers 1\nlower 9223372036854775807\nupper none\nresult none",
        Some(b"network 1 2 9223372036854775807\nlower 9223372036854775807\nbest none\ntree\n"),
    ),
    // values that disagree are split for
    (
        &SOLVE,
        TRI,
        0,
        b"variables 3\nfunctions 3\nworkers 1\nlower 1\nupper 1\nresult optimum",
        Some(b"network 3 3 10\nlower 1\nbest 1\nvalues "),
    ),
];

/// Runs of which all is known.
pub(crate) const WHOLE: [Whole; 4] = [
    // constants close the root without a node
    (
        &SOLVE,
        b"const 1 2 1 10\n2\n0 10 0\n",
        &[],
        1,
        b"variables 1\nfunctions 1\nworkers 1\nrow 10 none\nlower 10\nupper none\nnodes 0\nresult none\n",
        b"wcspcert 2\nnetwork 1 1 10\nlower 10\nbest none\ntree\nclosed\nend\n",
    ),
    // an upper bound of 0 allows no assignment
    (
        &SOLVE,
        b"zero 1 1 0 0\n1\n",
        &[],
        1,
        b"variables 1\nfunctions 0\nworkers 1\nrow 0 none\nlower 0\nupper none\nnodes 0\nresult none\n",
        b"wcspcert 2\nnetwork 1 0 0\nlower 0\nbest none\ntree\nclosed\nend\n",
    ),
    // two constants that reach the upper bound together
    (
        &SOLVE,
        b"two 1 2 2 10\n2\n0 4 0\n0 1 1\n7\n",
        &[],
        1,
        b"variables 1\nfunctions 2\nworkers 1\nrow 10 none\nlower 10\nupper none\nnodes 0\nresult none\n",
        b"wcspcert 2\nnetwork 1 2 10\nlower 10\nbest none\ntree\nclosed\nend\n",
    ),
    // the optimum of one variable
    (
        &SOLVE,
        TINY,
        &[],
        0,
        b"variables 1\nfunctions 1\nworkers 1\nrow 0 none\nrow 1 none\nrow 1 1\nlower 1\nupper 1\nvalues 1\nnodes 2\nresult optimum\n",
        b"wcspcert 2\nnetwork 1 1 10\nlower 1\nbest 1\nvalues 1\ntree\np 0 0 0 3\np 0 0 1 1\nu 0 1\nsplit 0 1\nclosed\nclosed\nend\n",
    ),
];

/// The values of the assignments of `TRI` that cost 1.
const BEST: [&[u8]; 6] = [
    b"values 0 0 1",
    b"values 0 1 0",
    b"values 0 1 1",
    b"values 1 0 0",
    b"values 1 0 1",
    b"values 1 1 0",
];

/// How many of those values a run of `solve` on `TRI` says, how many of these it certifies, and whether its certificate has a
/// split.
pub(crate) fn best_values(run: &Run) -> (u32, u32, bool) {
    let mut said: u32 = 0;
    let mut certified: u32 = 0;
    for values in BEST {
        if run.says(values) {
            said = said.saturating_add(1);
            if has_line(run.certificate(), values) {
                certified = certified.saturating_add(1);
            }
        }
    }
    (said, certified, has_front(run.certificate(), b"split "))
}

/// Those of a run by one worker.
fn best_values_of_one<R: AllocGlobal + Threads + Wait + Sync>(
    rt: &R,
) -> Result<(u32, u32, bool), AllocError> {
    Ok(best_values(&Run::solve(rt, TRI)?))
}

#[test]
fn disagreeing_values_are_split_for(rt: HostRuntime) -> Result<(), Fail> {
    assert!(rt; best_values_of_one(&rt)? == (1, 1, true));
    Ok(())
}
