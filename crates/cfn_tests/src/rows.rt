//! Runs of which all is known, or some lines, and the tests that walk them.

use crate::{asking, failing, reading, solving};
use cfn_testing::running::{certifies, ends, says};
use std::alloc::{AllocError, AllocGlobal};
use std::sync::Wait;
use std::test::Fail;
use std::thread::Threads;

/// The words of a run, the file `in`, the calls that fail, and what is to come of it: the status, what is said, and the
/// certificate, which is no bytes where there is none.
pub(crate) type Whole = (
    &'static [&'static str],
    &'static [u8],
    &'static [u64],
    u8,
    &'static [u8],
    &'static [u8],
);

/// The words of a run, the file `in`, and what is to come of it: the status, lines that are said, and the front of the
/// certificate behind its first line, if that is asked.
pub(crate) type Lined = (
    &'static [&'static str],
    &'static [u8],
    u8,
    &'static [u8],
    Option<&'static [u8]>,
);

const WHOLE: [(&str, &[Whole]); 3] = [
    ("asking", &asking::WHOLE),
    ("failing", &failing::WHOLE),
    ("solving", &solving::WHOLE),
];

const LINED: [(&str, &[Lined]); 3] = [
    ("asking", &asking::LINED),
    ("reading", &reading::LINED),
    ("solving", &solving::LINED),
];

/// Whether a run ends as it is to.
fn is_whole<R: AllocGlobal + Threads + Wait + Sync>(
    rt: &R,
    (words, file, failing, status, said, certificate): Whole,
) -> Result<bool, AllocError> {
    ends(rt, words, file, failing, (status, said, certificate))
}

#[test]
fn whole_runs(rt: HostRuntime) -> Result<(), Fail> {
    for (table, runs) in WHOLE {
        for (place, run) in runs.iter().enumerate() {
            assert!(rt; is_whole(&rt, *run)?, "{place} of {table}");
        }
    }
    Ok(())
}

/// Whether a run says its lines, and leaves a certificate with its front where that is asked.
fn is_lined<R: AllocGlobal + Threads + Wait + Sync>(
    rt: &R,
    (words, file, status, lines, front): Lined,
) -> Result<bool, AllocError> {
    match front {
        Some(front) => certifies(rt, words, file, (status, lines, front)),
        None => says(rt, words, file, status, lines),
    }
}

#[test]
fn lined_runs(rt: HostRuntime) -> Result<(), Fail> {
    for (table, runs) in LINED {
        for (place, run) in runs.iter().enumerate() {
            assert!(rt; is_lined(&rt, *run)?, "{place} of {table}");
        }
    }
    Ok(())
}
