//! Trees that are as deep as their text allows.

use crate::texts::GOOD;
use cfn_app::{OpenGate, run};
use cfn_desk::MemoryDesk;
use cfn_testing::clocks::Still;
use cfn_testing::running::TINY;
use std::alloc::{AllocError, AllocGlobal, Global};
use std::sync::Wait;
use std::test::Fail;
use std::thread::Threads;

/// How many splits stand within each other where they are read, judged and joined.
const SPLITS: usize = 20_000;

/// How many where they are written as well.
const VARIABLES: usize = 5_000;

const KEEP: [&str; 7] = ["wcspsolve", "rebase", "in", "cert", "out", "--budget", "0"];

const MERGE: [&str; 6] = ["wcspsolve", "merge", "in", "out", "cert", "cert"];

const MERGE_WITH_GOOD: [&str; 6] = ["wcspsolve", "merge", "in", "out", "cert", "good"];

/// On which side of each split the next one stands.
#[derive(Clone, Copy, PartialEq, Eq)]
enum Side {
    First,
    Second,
}

/// Whether a run with these words over a file and a certificate ends with this status, says this, and leaves this text, or none
/// where these are no bytes.
fn answers<'x, R: AllocGlobal + Threads + Wait + Sync>(
    rt: &R,
    words: &[&str],
    (file, old): (&'x [u8], &'x [u8]),
    (status, said, text): (u8, &[u8], &[u8]),
) -> Result<bool, AllocError> {
    let files = [("in", file), ("cert", old), ("good", GOOD)];
    let mut desk = MemoryDesk::make(rt.alloc(), &files, 200_000, 500, &[])?;
    let ended = run(rt, rt.alloc(), words, &mut desk, &OpenGate, &Still).code();
    let left = desk.file("out").unwrap_or(b"");
    let answers = ended == status && desk.said_bytes() == said && left == text;
    drop(desk);
    Ok(answers)
}

/// A certificate of `TINY` of nested splits by one value, each in the first side of the one before, with so many open leaves.
fn nested(alloc: Global, leaves: usize) -> Result<Vec<u8>, AllocError> {
    let mut text = Vec::new(alloc);
    text.extend_from_slice(b"wcspcert 2\nnetwork 1 1 10\nlower 0\nbest none\ntree\n")?;
    for _split in 0..SPLITS {
        text.extend_from_slice(b"split 0 0\n")?;
    }
    for _leaf in 0..leaves {
        text.extend_from_slice(b"open\n")?;
    }
    text.extend_from_slice(b"end\n")?;
    Ok(text)
}

/// What is kept of it: the second split takes nothing away.
const LEFT: &[u8] =
    b"wcspcert 2\nnetwork 1 1 10\nlower 0\nbest none\ntree\nsplit 0 0\nopen\nopen\nend\n";

const LEFT_SAID: &[u8] =
    b"variables 1\nfunctions 1\nworkers 1\nrow 0 none\nlower 0\nupper none\nnodes 0\nresult budget\n";

#[test]
fn nested_splits_of_one_variable(rt: HostRuntime) -> Result<(), Fail> {
    let old = nested(rt.alloc(), SPLITS.saturating_add(1))?;
    assert!(rt; answers(&rt, &KEEP, (TINY, &old), (2, LEFT_SAID, LEFT))?);
    assert!(rt;
        answers(
            &rt,
            &MERGE_WITH_GOOD,
            (TINY, &old),
            (0, b"merged lower 1 best 1\n", GOOD)
        )?
    );
    Ok(())
}

#[test]
fn nested_splits_with_a_leaf_too_few(rt: HostRuntime) -> Result<(), Fail> {
    let old = nested(rt.alloc(), SPLITS)?;
    assert!(rt;
        answers(
            &rt,
            &KEEP,
            (TINY, &old),
            (7, b"refused text at 40006\n", b"")
        )?
    );
    assert!(rt;
        answers(
            &rt,
            &MERGE,
            (TINY, &old),
            (7, b"refused text at 40006 in 1\n", b"")
        )?
    );
    Ok(())
}

/// A network with a variable of two values for each split, and no function.
fn wide(alloc: Global) -> Result<Vec<u8>, AllocError> {
    let mut text = Vec::new(alloc);
    text.extend_from_slice(b"wide 5000 2 0 10\n")?;
    for _variable in 0..VARIABLES {
        text.extend_from_slice(b"2\n")?;
    }
    Ok(text)
}

/// A certificate of it of nested splits, each by another variable.
fn nested_by_all(alloc: Global, side: Side) -> Result<Vec<u8>, AllocError> {
    let mut text = Vec::new(alloc);
    text.extend_from_slice(b"wcspcert 2\nnetwork 5000 0 10\nlower 0\nbest none\ntree\n")?;
    for variable in 0..VARIABLES {
        let split = format!(in alloc; "split {variable} 0\n")?;
        text.extend_from_slice(split.as_bytes())?;
        if side == Side::Second {
            text.extend_from_slice(b"open\n")?;
        }
    }
    if side == Side::First {
        for _leaf in 0..VARIABLES {
            text.extend_from_slice(b"open\n")?;
        }
    }
    text.extend_from_slice(b"open\nend\n")?;
    Ok(text)
}

const ALL_SAID: &[u8] =
    b"variables 5000\nfunctions 0\nworkers 1\nrow 0 none\nlower 0\nupper none\nnodes 0\nresult budget\n";

/// All is kept where each split takes a value away on both sides.
#[test]
fn nested_splits_of_all_variables(rt: HostRuntime) -> Result<(), Fail> {
    let file = wide(rt.alloc())?;
    for side in [Side::First, Side::Second] {
        let old = nested_by_all(rt.alloc(), side)?;
        assert!(rt; answers(&rt, &KEEP, (&file, &old), (2, ALL_SAID, &old))?);
        assert!(rt;
            answers(
                &rt,
                &MERGE,
                (&file, &old),
                (0, b"merged lower 0 best none\n", &old)
            )?
        );
    }
    Ok(())
}
