//! What runs of `rebase` keep of hostile certificates, and what they find from there on.

use crate::fronts::{HEADS, Head, TEXTS};
use crate::texts::{FRONT, GOOD, TREE, changed, lines_before, text_fault, text_of};
use crate::trees::{HARD, HARD_FRONT, HARD_SUMS, NUMBERS, Row, SUMS};
use cfn_testing::running::{Run, TINY, TRI, check_answers};
use std::alloc::{AllocError, AllocGlobal};
use std::sync::Wait;
use std::test::Fail;
use std::thread::Threads;

/// No node is made: what is written is what is kept.
const KEEP: [&str; 7] = ["wcspsolve", "rebase", "in", "cert", "out", "--budget", "0"];

const REBASE: [&str; 5] = ["wcspsolve", "rebase", "in", "cert", "out"];

const ONTO_ITSELF: [&str; 5] = ["wcspsolve", "rebase", "in", "cert", "cert"];

/// The status of a run to its end, lines that it says, and what `check` says of its certificate.
type End = (u8, &'static [u8], &'static [u8]);

const OPTIMUM: End = (
    0,
    b"lower 1\nupper 1\nvalues 1\nresult optimum",
    b"verified lower 1 best 1\n",
);

const NONE: End = (
    1,
    b"lower 5\nupper none\nresult none",
    b"verified lower 5 best none\n",
);

/// Whether a run with no node from an old certificate leaves this text.
fn keeps<R: AllocGlobal + Threads + Wait + Sync>(
    rt: &R,
    file: &[u8],
    old: &[u8],
    kept: &[u8],
) -> Result<bool, AllocError> {
    let run = Run::over(rt, &KEEP, &[("in", file), ("cert", old)], &[], "out")?;
    Ok(run.certificate() == kept)
}

/// Whether a run from an old certificate ends so.
fn finds<R: AllocGlobal + Threads + Wait + Sync>(
    rt: &R,
    file: &[u8],
    old: &[u8],
    (status, lines, judged): End,
) -> Result<bool, AllocError> {
    let run = Run::over(rt, &REBASE, &[("in", file), ("cert", old)], &[], "out")?;
    Ok(
        run.status == status
            && run.says(lines)
            && check_answers(rt, file, run.certificate(), 0, judged)?,
    )
}

/// Whether those lines of a row's tree are kept that the row has, behind a lower bound of 0 where a leaf is open; and the optimum
/// is found from there on.
fn row_goes<R: AllocGlobal + Threads + Wait + Sync>(rt: &R, row: Row) -> Result<bool, AllocError> {
    let (tree, kept, _) = row;
    let old = text_of(rt.alloc(), &FRONT, tree)?;
    let mut front = FRONT;
    if kept.contains(&"open") {
        front[2] = "lower 0";
    }
    let new = text_of(rt.alloc(), &front, kept)?;
    Ok(keeps(rt, TINY, &old, &new)? && finds(rt, TINY, &old, OPTIMUM)?)
}

#[test]
fn numbers_that_no_network_has_end_their_block(rt: HostRuntime) -> Result<(), Fail> {
    for (place, row) in NUMBERS.iter().enumerate() {
        assert!(rt; row_goes(&rt, *row)?, "row {place}");
    }
    Ok(())
}

#[test]
fn amounts_and_sums(rt: HostRuntime) -> Result<(), Fail> {
    for (place, row) in SUMS.iter().enumerate() {
        assert!(rt; row_goes(&rt, *row)?, "row {place}");
    }
    Ok(())
}

/// The same of a network without an assignment below its upper bound, 5, which is the lower bound where no leaf is open.
fn hard_row_goes<R: AllocGlobal + Threads + Wait + Sync>(
    rt: &R,
    row: Row,
) -> Result<bool, AllocError> {
    let (tree, kept, _) = row;
    let old = text_of(rt.alloc(), &HARD_FRONT, tree)?;
    let mut front = HARD_FRONT;
    if !kept.contains(&"open") {
        front[2] = "lower 5";
    }
    let new = text_of(rt.alloc(), &front, kept)?;
    Ok(keeps(rt, HARD, &old, &new)? && finds(rt, HARD, &old, NONE)?)
}

#[test]
fn sums_of_live_values_and_tuples(rt: HostRuntime) -> Result<(), Fail> {
    for (place, row) in HARD_SUMS.iter().enumerate() {
        assert!(rt; hard_row_goes(&rt, *row)?, "row {place}");
    }
    Ok(())
}

/// Whether what is kept of the good tree behind other lines is as it is to be, and the optimum is found from there on.
fn head_goes<R: AllocGlobal + Threads + Wait + Sync>(
    rt: &R,
    head: Head,
) -> Result<bool, AllocError> {
    let (front, kept, closes, _) = head;
    let mut tree = TREE;
    let old = text_of(rt.alloc(), front, &tree)?;
    if !closes {
        tree[3] = "open";
    }
    let new = text_of(rt.alloc(), kept, &tree)?;
    Ok(keeps(rt, TINY, &old, &new)? && finds(rt, TINY, &old, OPTIMUM)?)
}

#[test]
fn numbers_in_front_of_the_tree_are_not_trusted(rt: HostRuntime) -> Result<(), Fail> {
    for (place, head) in HEADS.iter().enumerate() {
        assert!(rt; head_goes(&rt, *head)?, "row {place}");
    }
    Ok(())
}

/// A good certificate of `TRI`, whose steps are out of range in `TINY`, but for the split.
const OF_TRI: &[u8] =
    b"wcspcert 2\nnetwork 3 3 10\nlower 1\nbest 1\nvalues 0 0 1\ntree\nsplit 0 0\np 0 1 0 1\nv 1 0\np 1 1 0 1\nv 2 0\np 2 0 1 1\nu 1 1\nclosed\np 0 1 1 1\nv 1 1\np 1 1 1 1\nv 2 1\np 2 0 0 1\nu 1 1\nclosed\nend\n";

/// What is kept of it in `TINY`.
const LEFT_OF_TRI: &[u8] =
    b"wcspcert 2\nnetwork 1 1 10\nlower 0\nbest none\ntree\nsplit 0 0\nopen\nopen\nend\n";

/// What is kept in `TRI` of the good certificate of `TINY`.
const LEFT_OF_TINY: &[u8] = b"wcspcert 2\nnetwork 3 3 10\nlower 0\nbest none\ntree\nopen\nend\n";

/// The end of a run of `TRI`.
const OPTIMUM_OF_TRI: End = (
    0,
    b"lower 1\nupper 1\nresult optimum",
    b"verified lower 1 best 1\n",
);

#[test]
fn certificates_of_another_network(rt: HostRuntime) -> Result<(), Fail> {
    assert!(rt; keeps(&rt, TINY, OF_TRI, LEFT_OF_TRI)? && finds(&rt, TINY, OF_TRI, OPTIMUM)?);
    assert!(rt; keeps(&rt, TRI, GOOD, LEFT_OF_TINY)? && finds(&rt, TRI, GOOD, OPTIMUM_OF_TRI)?);
    Ok(())
}

/// Whether a text is refused at this line, nothing is written, and the text is left as it was where it was to be written over.
fn refuses<R: AllocGlobal + Threads + Wait + Sync>(
    rt: &R,
    text: &[u8],
    line: u8,
) -> Result<bool, AllocError> {
    let files = [("in", TINY), ("cert", text)];
    let said = text_fault(rt.alloc(), line, "")?;
    let run = Run::over(rt, &REBASE, &files, &[], "out")?;
    let over = Run::over(rt, &ONTO_ITSELF, &files, &[], "cert")?;
    Ok(
        run.status == 7
            && run.said() == said.as_bytes()
            && run.file().is_none()
            && over.status == 7
            && over.said() == said.as_bytes()
            && over.file() == Some(text),
    )
}

/// A text that lacks bytes at its end is refused at its last line, or at the one that is missing.
#[test]
fn fronts_of_a_certificate_are_refused(rt: HostRuntime) -> Result<(), Fail> {
    for length in 0..GOOD.len() {
        let front = &GOOD[..length];
        assert!(rt; refuses(&rt, front, lines_before(front))?, "at {length}");
    }
    Ok(())
}

#[test]
fn numbers_beyond_the_grammar_are_refused(rt: HostRuntime) -> Result<(), Fail> {
    for (line, other) in TEXTS {
        let text = changed(rt.alloc(), line, other)?;
        assert!(rt; refuses(&rt, &text, line)?, "{other}");
    }
    Ok(())
}
