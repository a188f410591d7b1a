//! Records that are changed or cut, each refused at its first line that fails.

use crate::rows::RECORD;
use cfn_testing::running::{TINY, replay};
use std::alloc::{AllocError, AllocGlobal};
use std::sync::Wait;
use std::test::Fail;
use std::thread::Threads;

/// A line of `RECORD`, what stands there instead, and what is said then.
const CHANGED: [(u64, &[u8], &[u8]); 46] = [
    (1, b"wcsprecord 2", b"refused text at 1\n"),
    (1, b"wcspcert 2", b"refused text at 1\n"),
    (2, b"network 2 1 10", b"refused network at 2\n"),
    (2, b"network 1 0 10", b"refused network at 2\n"),
    (2, b"network 1 1 11", b"refused network at 2\n"),
    (2, b"network 1 1", b"refused text at 2\n"),
    (3, b"budget 0", b"refused take at 5\n"),
    (3, b"budget 9223372036854775808", b"refused text at 3\n"),
    (3, b"budget 1", b"refused take at 13\n"),
    (4, b"sweep 11", b"refused seen at 4\n"),
    (4, b"sweep 9223372036854775807", b"refused seen at 4\n"),
    (5, b"take 0 1 1 1", b"refused take at 5\n"),
    (5, b"take 0 1 9223372036854775807 1", b"refused take at 5\n"),
    (5, b"take 0 1 0 2", b"refused take at 5\n"),
    (5, b"take 0 0 0 0", b"refused take at 5\n"),
    (5, b"take 0 9223372036854775807 0 1", b"refused take at 5\n"),
    (
        5,
        b"take 0 9223372036854775807 0 9223372036854775807",
        b"refused give at 6\n",
    ),
    (6, b"give 1 0 1 10 10", b"refused give at 6\n"),
    (6, b"give 0 1 1 10 10", b"refused give at 6\n"),
    (
        6,
        b"give 0 9223372036854775807 1 10 10",
        b"refused give at 6\n",
    ),
    (6, b"give 0 0 2 10 10", b"refused give at 6\n"),
    (
        6,
        b"give 0 0 9223372036854775807 10 10",
        b"refused give at 6\n",
    ),
    (6, b"give 0 0 1 9 10", b"refused seen at 6\n"),
    (6, b"give 0 0 1 11 11", b"refused seen at 6\n"),
    (6, b"back 0 0 1", b"refused text at 7\n"),
    (6, b"back 1 0 1", b"refused back at 6\n"),
    (6, b"back 0 0 2", b"refused back at 6\n"),
    (7, b"p 0 0 0", b"refused text at 7\n"),
    (9, b"u 0 2", b"refused certificate at 21\n"),
    (10, b"split 0 5", b"refused certificate at 21\n"),
    (10, b"closed", b"refused text at 11\n"),
    (11, b"close", b"refused text at 11\n"),
    (13, b"take 0 2048 2 2048", b"refused take at 13\n"),
    (14, b"give 0 1 2048 1 2", b"refused seen at 14\n"),
    (15, b"open", b"refused give at 14\n"),
    (15, b"split 0 0", b"refused text at 16\n"),
    (16, b"sweep 2", b"refused seen at 16\n"),
    (17, b"recall 1", b"refused text at 17\n"),
    (18, b"sweep 11", b"refused seen at 18\n"),
    (19, b"best 2", b"refused seen at 19\n"),
    (19, b"best none", b"refused seen at 19\n"),
    (19, b"best 0", b"refused seen at 19\n"),
    (20, b"values 0", b"refused certificate at 21\n"),
    (20, b"values 1 1", b"refused certificate at 21\n"),
    (20, b"values", b"refused text at 20\n"),
    (21, b"ends", b"refused text at 21\n"),
];

/// Whether a text is refused with this, and no certificate is written.
fn is_refused<R: AllocGlobal + Threads + Wait + Sync>(
    rt: &R,
    text: &[u8],
    said: &[u8],
) -> Result<bool, AllocError> {
    let run = replay(rt, TINY, text, &[])?;
    Ok(run.status == 7 && run.said() == said && run.file().is_none())
}

/// Whether `RECORD` is refused so, with one of its lines, counted from 1, changed to another.
fn is_refused_changed<R: AllocGlobal + Threads + Wait + Sync>(
    rt: &R,
    (line, other, said): (u64, &[u8], &[u8]),
) -> Result<bool, AllocError> {
    let mut text = Vec::new(rt.alloc());
    let mut number: u64 = 0;
    for own in RECORD.split_inclusive(|byte| *byte == b'\n') {
        number = number.saturating_add(1);
        if number == line {
            text.extend_from_slice(other)?;
            text.push(b'\n')?;
        } else {
            text.extend_from_slice(own)?;
        }
    }
    is_refused(rt, &text, said)
}

#[test]
fn each_kind_of_fault_is_told(rt: HostRuntime) -> Result<(), Fail> {
    for (place, row) in CHANGED.iter().enumerate() {
        assert!(rt; is_refused_changed(&rt, *row)?, "row {place}");
    }
    Ok(())
}

/// Whether `RECORD` is refused with so many of its bytes: its last line is no line, or there is none.
fn is_refused_cut<R: AllocGlobal + Threads + Wait + Sync>(
    rt: &R,
    long: usize,
) -> Result<bool, AllocError> {
    let text = RECORD.get(..long).unwrap_or(b"");
    let line = text.iter().filter(|byte| **byte == b'\n').count() + 1;
    let mut said = String::new(rt.alloc());
    write!(said, "refused text at {line}\n")?;
    is_refused(rt, text, said.as_bytes())
}

#[test]
fn a_record_that_is_cut_is_refused(rt: HostRuntime) -> Result<(), Fail> {
    for long in 0..RECORD.len() {
        assert!(rt; is_refused_cut(&rt, long)?, "{long} bytes");
    }
    Ok(())
}
