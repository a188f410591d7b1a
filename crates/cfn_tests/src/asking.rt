//! What the words of a command line ask for: `solve` with its options, and `cost`.

use crate::rows::{Lined, Whole};
use cfn_testing::running::{Run, SOLVE, TINY, TRI, ends, has_front};
use std::alloc::{AllocError, AllocGlobal};
use std::sync::Wait;
use std::test::Fail;
use std::thread::Threads;

/// A network that is one constant, 4 or 10, below an upper bound of 10.
const FOUR: &[u8] = b"const 1 2 1 10\n2\n0 4 0\n";

const TEN: &[u8] = b"const 1 2 1 10\n2\n0 10 0\n";

/// Two variables with two values. One tuple costs 3, and all others 2.
const ARC: &[u8] = b"arc 2 2 1 10\n2 2\n2 0 1 2 1\n0 0 3\n";

/// Three variables with two values. A value of the first costs 2, or 1, and the functions of two variables rule out that the
/// root's bound stays at 0 where 2 can be gathered from it: one unit for each of the two others.
const DEAR: &[u8] =
    b"vac 3 2 4 10\n2 2 2\n1 0 0 1\n1 2\n2 0 1 0 1\n0 0 1\n2 0 2 0 1\n0 0 1\n2 1 2 0 1\n1 1 1\n";

const CHEAP: &[u8] =
    b"vac 3 2 4 10\n2 2 2\n1 0 0 1\n1 1\n2 0 1 0 1\n0 0 1\n2 0 2 0 1\n0 0 1\n2 1 2 0 1\n1 1 1\n";

/// Two costs of the greatest number on one value.
const TOP: &[u8] =
    b"top 1 1 2 9223372036854775807\n1\n1 0 9223372036854775807 0\n1 0 9223372036854775807 0\n";

/// A formula whose least falsified weight is 3, by the values 1 0.
const WCNF: &[u8] = b"p wcnf 2 3 10\n10 1 2 0\n3 -1 0\n4 -2 0\n";

/// The words that spend no node, and one.
const NO_NODE: [&str; 6] = ["wcspsolve", "solve", "in", "out", "--budget", "0"];

const ONE_NODE: [&str; 6] = ["wcspsolve", "solve", "in", "out", "--budget", "1"];

/// What is said and written where the root is closed at once.
const CLOSED_SAID: &[u8] =
    b"variables 1\nfunctions 1\nworkers 1\nrow 10 none\nlower 10\nupper none\nnodes 0\nresult none\n";

const CLOSED: &[u8] = b"wcspcert 2\nnetwork 1 1 10\nlower 10\nbest none\ntree\nclosed\nend\n";

/// Runs of which all is known.
pub(crate) const WHOLE: [Whole; 24] = [
    // one node splits the root
    (
        &ONE_NODE,
        TRI,
        &[],
        2,
        b"variables 3\nfunctions 3\nworkers 1\nrow 0 none\nlower 0\nupper none\nnodes 1\nresult budget\n",
        b"wcspcert 2\nnetwork 3 3 10\nlower 0\nbest none\ntree\nsplit 0 0\nopen\nopen\nend\n",
    ),
    // what all tuples cost is the bound before the root is split
    (
        &ONE_NODE,
        ARC,
        &[],
        2,
        b"variables 2\nfunctions 1\nworkers 1\nrow 0 none\nrow 2 none\nlower 2\nupper none\nnodes 1\nresult budget\n",
        b"wcspcert 2\nnetwork 2 1 10\nlower 2\nbest none\ntree\np 0 0 0 2\np 0 0 1 2\nu 0 2\nsplit 0 0\nopen\nopen\nend\n",
    ),
    // no node leaves the constant as the bound
    (
        &NO_NODE,
        FOUR,
        &[],
        2,
        b"variables 1\nfunctions 1\nworkers 1\nrow 4 none\nlower 4\nupper none\nnodes 0\nresult budget\n",
        b"wcspcert 2\nnetwork 1 1 10\nlower 4\nbest none\ntree\nopen\nend\n",
    ),
    // a constant at the upper bound closes the root before any node, whatever the budget
    (&NO_NODE, TEN, &[], 1, CLOSED_SAID, CLOSED),
    (&ONE_NODE, TEN, &[], 1, CLOSED_SAID, CLOSED),
    (
        &[
            "wcspsolve",
            "solve",
            "in",
            "out",
            "--budget",
            "9223372036854775807",
        ],
        TEN,
        &[],
        1,
        CLOSED_SAID,
        CLOSED,
    ),
    // a cost below the upper bound is allowed
    (
        &["wcspsolve", "cost", "in", "0", "0", "0"],
        TRI,
        &[],
        0,
        b"cost 3 allowed\n",
        b"",
    ),
    (
        &["wcspsolve", "cost", "in", "0", "1", "0"],
        TRI,
        &[],
        0,
        b"cost 1 allowed\n",
        b"",
    ),
    (
        &["wcspsolve", "cost", "in", "0"],
        TINY,
        &[],
        0,
        b"cost 3 allowed\n",
        b"",
    ),
    (
        &["wcspsolve", "cost", "in", "01"],
        TINY,
        &[],
        0,
        b"cost 1 allowed\n",
        b"",
    ),
    (
        &["wcspsolve", "cost", "in", "0"],
        TOP,
        &[],
        0,
        b"cost 9223372036854775807 forbidden\n",
        b"",
    ),
    (
        &["wcspsolve", "cost", "in", "1"],
        TEN,
        &[],
        0,
        b"cost 10 forbidden\n",
        b"",
    ),
    (
        &["wcspsolve", "cost", "in", "1"],
        b"near 1 2 1 10\n2\n0 9 0\n",
        &[],
        0,
        b"cost 9 allowed\n",
        b"",
    ),
    // values that do not fit are refused, the first of two, and their number before them
    (
        &["wcspsolve", "cost", "in", "0", "0"],
        TRI,
        &[],
        4,
        b"error values expected 3 got 2\n",
        b"",
    ),
    (
        &["wcspsolve", "cost", "in", "0", "0", "0", "0"],
        TRI,
        &[],
        4,
        b"error values expected 3 got 4\n",
        b"",
    ),
    (
        &["wcspsolve", "cost", "in", "0", "0", "2"],
        TRI,
        &[],
        4,
        b"error value at 2\n",
        b"",
    ),
    (
        &["wcspsolve", "cost", "in", "0", "2", "2"],
        TRI,
        &[],
        4,
        b"error value at 1\n",
        b"",
    ),
    (
        &["wcspsolve", "cost", "in", "4294967295", "0", "2"],
        TRI,
        &[],
        4,
        b"error value at 0\n",
        b"",
    ),
    (
        &["wcspsolve", "cost", "in", "2", "2"],
        TRI,
        &[],
        4,
        b"error values expected 3 got 2\n",
        b"",
    ),
    // the words are judged first, then the file is loaded and read, and then the values are judged
    (
        &["wcspsolve", "cost", "nowhere", "0"],
        TINY,
        &[],
        5,
        b"error read\n",
        b"",
    ),
    (
        &["wcspsolve", "cost", "in", "7", "7"],
        b"tiny 1 2 1 10\n2\n1 0 3 1\n1",
        &[],
        4,
        b"error short at 12\n",
        b"",
    ),
    (&["wcspsolve", "solve"], TINY, &[1], 5, b"", b""),
    // a formula is no network of the other form
    (
        &["wcspsolve", "cost", "in", "0", "0", "--wcnf"],
        WCNF,
        &[],
        0,
        b"cost 10 forbidden\n",
        b"",
    ),
    (
        &["wcspsolve", "cost", "in", "0", "0"],
        WCNF,
        &[],
        4,
        b"error not-number at 2\n",
        b"",
    ),
];

/// Runs of which some lines are known.
pub(crate) const LINED: [Lined; 13] = [
    // virtual arc consistency lifts the bound of the root by whole units alone
    (
        &ONE_NODE,
        DEAR,
        2,
        b"lower 1\nupper none\nnodes 1\nresult budget\n",
        None,
    ),
    (
        &ONE_NODE,
        CHEAP,
        2,
        b"lower 0\nupper none\nnodes 1\nresult budget\n",
        None,
    ),
    // what is lifted is the optimum
    (&SOLVE, ARC, 0, b"lower 2\nupper 2\n", None),
    // on one variable with two values the search takes two nodes, the root and a leaf, so each smaller budget is spent
    // whole; the second leaf is closed without a node, since its floor is the price
    (&NO_NODE, TINY, 2, b"nodes 0", None),
    (&ONE_NODE, TINY, 2, b"nodes 1", None),
    (
        &["wcspsolve", "solve", "in", "out", "--budget", "2"],
        TINY,
        0,
        b"nodes 2",
        None,
    ),
    (
        &["wcspsolve", "solve", "in", "out", "--budget", "3"],
        TINY,
        0,
        b"nodes 2",
        None,
    ),
    // of three variables of which each two cost 1 where they agree the root is split, then its first child twice, and
    // each of the four leaves is closed
    (
        &["wcspsolve", "solve", "in", "out", "--budget", "7"],
        TRI,
        0,
        b"lower 1\nupper 1\nnodes 7\nresult optimum\n",
        None,
    ),
    // options stand anywhere
    (
        &[
            "wcspsolve",
            "solve",
            "in",
            "out",
            "--budget",
            "5",
            "--workers",
            "64",
        ],
        TINY,
        0,
        b"workers 64\nlower 1\nupper 1\nvalues 1\nresult optimum",
        Some(b"network 1 1 10\nlower 1\nbest 1\nvalues 1\n"),
    ),
    (
        &[
            "wcspsolve",
            "solve",
            "in",
            "out",
            "--budget=5",
            "--workers=64",
        ],
        TINY,
        0,
        b"workers 64\nlower 1\nupper 1\nvalues 1\nresult optimum",
        Some(b"network 1 1 10\nlower 1\nbest 1\nvalues 1\n"),
    ),
    (
        &[
            "wcspsolve",
            "solve",
            "--workers",
            "64",
            "--budget=5",
            "in",
            "out",
        ],
        TINY,
        0,
        b"workers 64\nlower 1\nupper 1\nvalues 1\nresult optimum",
        Some(b"network 1 1 10\nlower 1\nbest 1\nvalues 1\n"),
    ),
    (
        &[
            "wcspsolve",
            "solve",
            "--budget=5",
            "in",
            "--workers=64",
            "out",
        ],
        TINY,
        0,
        b"workers 64\nlower 1\nupper 1\nvalues 1\nresult optimum",
        Some(b"network 1 1 10\nlower 1\nbest 1\nvalues 1\n"),
    ),
    (
        &["wcspsolve", "solve", "in", "--workers", "64", "out"],
        TINY,
        0,
        b"workers 64\nlower 1\nupper 1\nvalues 1\nresult optimum",
        Some(b"network 1 1 10\nlower 1\nbest 1\nvalues 1\n"),
    ),
];

/// What is said of words that are no command.
const USAGE: &[u8] =
    b"error usage\nwcspsolve solve FILE CERT [--workers W] [--budget B] [--seconds S] [--wcnf] [--progress] [--record REC]\nwcspsolve check FILE CERT [--wcnf]\nwcspsolve cost FILE VALUES.. [--wcnf]\nwcspsolve normal FILE [--wcnf]\nwcspsolve trial SEED SIZE [--workers W]\nwcspsolve migrate FILE CERT OUT\nwcspsolve rebase FILE OLD CERT [--workers W] [--budget B] [--seconds S] [--wcnf] [--progress] [--part I] [--parts N]\nwcspsolve merge FILE OUT CERT.. [--wcnf]\nwcspsolve replay FILE REC CERT [--wcnf]\nwcspsolve kbest FILE K CERT [--budget B] [--seconds S] [--wcnf]\nwcspsolve checkbest FILE CERT [--wcnf] [--complete]\n";

/// Words that are no command.
const NO_COMMANDS: [&[&str]; 17] = [
    &["wcspsolve"],
    &["wcspsolve", "check", "in"],
    &["wcspsolve", "solve"],
    &["wcspsolve", "solve", "in"],
    &["wcspsolve", "solve", "in", "out", "more"],
    &["wcspsolve", "dissolve", "in", "out"],
    &["wcspsolve", "solve", "in", "out", "--workers", "65"],
    &["wcspsolve", "solve", "in", "out", "--workers", "0"],
    &["wcspsolve", "solve", "in", "out", "--workers"],
    &[
        "wcspsolve",
        "solve",
        "in",
        "out",
        "--budget",
        "9223372036854775808",
    ],
    &["wcspsolve", "solve", "in", "out", "--budget", "-1"],
    &["wcspsolve", "solve", "in", "out", "--fast"],
    &["wcspsolve", "--help"],
    &["wcspsolve", "solve", "-h"],
    &["wcspsolve", "cost", "in"],
    &["wcspsolve", "cost", "nowhere", "4294967296"],
    &["wcspsolve", "cost", "in", "one"],
];

#[test]
fn other_words_are_no_command(rt: HostRuntime) -> Result<(), Fail> {
    for words in NO_COMMANDS {
        assert!(rt; ends(&rt, words, TINY, &[], (3, USAGE, b""))?);
    }
    Ok(())
}

/// Whether `cost` ends with a fault and says no cost where this call fails.
fn cost_fails<R: AllocGlobal + Threads + Wait + Sync>(
    rt: &R,
    failing: u64,
) -> Result<bool, AllocError> {
    let run = Run::of(rt, &["wcspsolve", "cost", "in", "0"], TINY, &[failing])?;
    Ok(run.status == 5 && !has_front(run.said(), b"cost"))
}

#[test]
fn cost_that_can_not_be_said_is_a_fault(rt: HostRuntime) -> Result<(), Fail> {
    for failing in [1, 2] {
        assert!(rt; cost_fails(&rt, failing)?, "at {failing}");
    }
    Ok(())
}

/// The certificate that `solve --wcnf` writes of that formula, where it ends with its optimum and says so, or nothing.
fn wcnf_certificate<R: AllocGlobal + Threads + Wait + Sync>(rt: &R) -> Result<Vec<u8>, AllocError> {
    let words = ["wcspsolve", "solve", "--wcnf", "in", "out"];
    let run = Run::of(rt, &words, WCNF, &[])?;
    let solved = run.status == 0 && run.says(b"lower 3\nupper 3\nvalues 1 0\nresult optimum");
    Vec::from_slice(rt.alloc(), if solved { run.certificate() } else { b"" })
}

/// Whether these words say this of that formula.
fn wcnf_says<R: AllocGlobal + Threads + Wait + Sync>(
    rt: &R,
    words: &[&str],
    certificate: &[u8],
    said: &[u8],
) -> Result<bool, AllocError> {
    let files = [("in", WCNF), ("cert", certificate)];
    let run = Run::over(rt, words, &files, &[], "out")?;
    Ok(run.said() == said)
}

#[test]
fn wcnf_is_solved(rt: HostRuntime) -> Result<(), Fail> {
    let certificate = wcnf_certificate(&rt)?;
    let words = ["wcspsolve", "check", "in", "cert", "--wcnf"];
    let said = b"verified lower 3 best 3\n";
    assert!(rt; wcnf_says(&rt, &words, certificate.as_slice(), said)?);
    Ok(())
}
