//! Which hostile certificates `merge` refuses, where, and by which number.

use crate::fronts::{HEADS, TEXTS};
use crate::texts::{FRONT, GOOD, TREE, changed, lines_before, text_fault, text_of};
use crate::trees::{HARD, HARD_FRONT, HARD_SUMS, NUMBERS, SUMS};
use cfn_testing::running::{Run, TINY};
use std::alloc::{AllocError, AllocGlobal};
use std::sync::Wait;
use std::test::Fail;
use std::thread::Threads;

/// What the file has that is to be written over.
const BEFORE: &[u8] = b"before";

/// The run that merges three certificates of a file.
fn merge<'x, R: AllocGlobal + Threads + Wait + Sync>(
    rt: &R,
    file: &'x [u8],
    (first, second, third): (&'x [u8], &'x [u8], &'x [u8]),
) -> Result<Run, AllocError> {
    let words = ["wcspsolve", "merge", "in", "out", "a", "b", "c"];
    let files = [
        ("in", file),
        ("a", first),
        ("b", second),
        ("c", third),
        ("out", BEFORE),
    ];
    Run::over(rt, &words, &files, &[], "out")
}

/// Whether the merging of three certificates of `TINY` says this refusal, and leaves the file as it was.
fn refuses<R: AllocGlobal + Threads + Wait + Sync>(
    rt: &R,
    certificates: (&[u8], &[u8], &[u8]),
    said: &str,
) -> Result<bool, AllocError> {
    let run = merge(rt, TINY, certificates)?;
    Ok(run.status == 7 && run.said() == said.as_bytes() && run.file() == Some(BEFORE))
}

/// Whether a bad certificate is refused so, by its number among good ones, and before another bad one.
fn is_refused<R: AllocGlobal + Threads + Wait + Sync>(
    rt: &R,
    bad: &[u8],
    fault: &str,
) -> Result<bool, AllocError> {
    Ok(
        is_refused_at(rt, (bad, GOOD, GOOD), fault, 1)?
            && is_refused_at(rt, (GOOD, bad, b""), fault, 2)?
            && is_refused_at(rt, (GOOD, GOOD, bad), fault, 3)?,
    )
}

/// Whether the certificate of this number is refused so.
fn is_refused_at<R: AllocGlobal + Threads + Wait + Sync>(
    rt: &R,
    certificates: (&[u8], &[u8], &[u8]),
    fault: &str,
    number: u32,
) -> Result<bool, AllocError> {
    let said = format!(in rt.alloc(); "refused {fault} in {number}\n")?;
    let refused = refuses(rt, certificates, &said);
    drop(said);
    refused
}

/// Whether a good certificate of a file merged with itself twice leaves this text.
fn is_kept<R: AllocGlobal + Threads + Wait + Sync>(
    rt: &R,
    file: &[u8],
    good: &[u8],
    said: &[u8],
    text: &[u8],
) -> Result<bool, AllocError> {
    let run = merge(rt, file, (good, good, good))?;
    Ok(run.status == 0 && run.said() == said && run.certificate() == text)
}

/// Whether a certificate of `TINY` is merged where it has no fault, and is refused where it has one.
fn is_judged<R: AllocGlobal + Threads + Wait + Sync>(
    rt: &R,
    text: &[u8],
    fault: &str,
) -> Result<bool, AllocError> {
    if fault.is_empty() {
        return is_kept(rt, TINY, text, b"merged lower 1 best 1\n", text);
    }
    is_refused(rt, text, fault)
}

#[test]
fn numbers_that_no_network_has_are_refused(rt: HostRuntime) -> Result<(), Fail> {
    for (place, (tree, _, fault)) in NUMBERS.iter().enumerate() {
        let text = text_of(rt.alloc(), &FRONT, tree)?;
        assert!(rt; is_judged(&rt, &text, fault)?, "row {place}");
    }
    Ok(())
}

#[test]
fn amounts_and_sums(rt: HostRuntime) -> Result<(), Fail> {
    for (place, (tree, _, fault)) in SUMS.iter().enumerate() {
        let text = text_of(rt.alloc(), &FRONT, tree)?;
        assert!(rt; is_judged(&rt, &text, fault)?, "row {place}");
    }
    Ok(())
}

#[test]
fn numbers_in_front_of_the_tree_are_judged(rt: HostRuntime) -> Result<(), Fail> {
    for (place, (front, _, _, fault)) in HEADS.iter().enumerate() {
        let text = text_of(rt.alloc(), front, &TREE)?;
        assert!(rt; is_judged(&rt, &text, fault)?, "row {place}");
    }
    Ok(())
}

/// Sums beyond 2^64 are no fault, and lose nothing.
#[test]
fn sums_of_live_values_and_tuples(rt: HostRuntime) -> Result<(), Fail> {
    for (place, (tree, _, _)) in HARD_SUMS.iter().enumerate() {
        let old = text_of(rt.alloc(), &HARD_FRONT, tree)?;
        let mut front = HARD_FRONT;
        let mut said = b"merged lower 0 best none\n".as_slice();
        if !tree.contains(&"open") {
            front[2] = "lower 5";
            said = b"merged lower 5 best none\n";
        }
        let new = text_of(rt.alloc(), &front, tree)?;
        assert!(rt; is_kept(&rt, HARD, &old, said, &new)?, "row {place}");
    }
    Ok(())
}

/// A text that lacks bytes at its end is refused at its last line, or at the one that is missing.
#[test]
fn fronts_of_a_certificate_are_refused(rt: HostRuntime) -> Result<(), Fail> {
    for length in 0..GOOD.len() {
        let front = &GOOD[..length];
        let said = text_fault(rt.alloc(), lines_before(front), " in 2")?;
        assert!(rt; refuses(&rt, (GOOD, front, b""), &said)?, "at {length}");
    }
    Ok(())
}

#[test]
fn numbers_beyond_the_grammar_are_refused(rt: HostRuntime) -> Result<(), Fail> {
    for (line, other) in TEXTS {
        let text = changed(rt.alloc(), line, other)?;
        let said = text_fault(rt.alloc(), line, " in 3")?;
        assert!(rt; refuses(&rt, (GOOD, GOOD, &text), &said)?, "{other}");
    }
    Ok(())
}
