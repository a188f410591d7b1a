//! Runs that are recorded, and replays, in which a call on the outside fails.

use cfn_app::OpenGate;
use cfn_testing::running::{RecordedRun, Run, TINY, replay};
use std::alloc::{AllocError, AllocGlobal};
use std::sync::Wait;
use std::test::Fail;
use std::thread::Threads;

/// The words of a run that is recorded.
const RECORD: [&str; 6] = ["wcspsolve", "solve", "in", "out", "--record", "rec"];

/// A good record of `TINY`.
const GOOD: &[u8] =
    b"wcsprecord 1\nnetwork 1 1 10\nbudget 0\nsweep 10\nrecall\nsweep 10\nbest none\nend\n";

/// Whether two byte strings are the first and the whole, or the first is empty.
fn whole_or_none(bytes: &[u8], whole: &[u8]) -> bool {
    bytes.is_empty() || bytes == whole
}

/// Whether the recorded run whose call with this ordinal fails ends in order, beside the run in which none fails: each file is whole
/// or not there, the record only behind the certificate; and where both are there, a front of the report was said. `None` where there
/// is no such call.
fn record_in_order(whole: &RecordedRun, run: &RecordedRun, failing: u64) -> Option<bool> {
    let has_both = run.certificate() == whole.certificate() && run.record() == whole.record();
    if run.status == 0 && run.said() == whole.said() && has_both {
        return None;
    }
    let in_order = whole_or_none(run.certificate(), whole.certificate())
        && whole_or_none(run.record(), whole.record())
        && (run.record().is_empty() || has_both);
    let is_due = if failing == 1 {
        run.said() == b"error read\n".as_slice() && run.certificate().is_empty()
    } else if run.record().is_empty() {
        run.said() == b"error write\n".as_slice()
    } else {
        whole.said().starts_with(run.said()) && run.said().len() < whole.said().len()
    };
    Some(run.status == 5 && in_order && is_due)
}

/// How many calls of a recorded run fail in order, one in each run; or `None` where a run was not in order.
fn record_faults<R: AllocGlobal + Threads + Wait + Sync>(
    rt: &R,
) -> Result<Option<u64>, AllocError> {
    let whole = RecordedRun::of(rt, &RECORD, TINY, &[], &OpenGate)?;
    for failing in 1..400 {
        let run = RecordedRun::of(rt, &RECORD, TINY, &[failing], &OpenGate)?;
        match record_in_order(&whole, &run, failing) {
            None => return Ok(Some(failing - 1)),
            Some(true) => {}
            Some(false) => return Ok(None),
        }
    }
    Ok(None)
}

#[test]
fn each_failing_call_of_a_recorded_run_is_a_fault(rt: HostRuntime) -> Result<(), Fail> {
    // the load; opening, 32 puts and closing of the certificate; opening, 44 puts and closing of the record; eleven lines of the report
    let found = record_faults(&rt)?.unwrap_or(0);
    assert!(rt; found == 92, "{found} calls");
    Ok(())
}

/// Whether the replay whose call with this ordinal fails ends in order, beside the one in which none fails: the certificate is whole
/// where it is there. `None` where there is no such call.
fn replay_in_order(whole: &Run, run: &Run, failing: u64) -> Option<bool> {
    if run.status == 0 && run.said() == whole.said() && run.certificate() == whole.certificate() {
        return None;
    }
    let is_due = if failing <= 2 {
        run.said() == b"error read\n".as_slice() && run.certificate().is_empty()
    } else if run.certificate().is_empty() {
        run.said() == b"error write\n".as_slice()
    } else {
        run.said().is_empty() && run.certificate() == whole.certificate()
    };
    Some(run.status == 5 && run.begun == 0 && is_due)
}

/// How many calls of a replay fail in order, one in each run; or `None` where a run was not in order.
fn replay_faults<R: AllocGlobal + Threads + Wait + Sync>(
    rt: &R,
) -> Result<Option<u64>, AllocError> {
    let whole = replay(rt, TINY, GOOD, &[])?;
    for failing in 1..200 {
        let run = replay(rt, TINY, GOOD, &[failing])?;
        match replay_in_order(&whole, &run, failing) {
            None => return Ok(Some(failing - 1)),
            Some(true) => {}
            Some(false) => return Ok(None),
        }
    }
    Ok(None)
}

#[test]
fn each_failing_call_of_a_replay_is_a_fault(rt: HostRuntime) -> Result<(), Fail> {
    // two loads, the opening, the put, the closing, and the line
    let found = replay_faults(&rt)?.unwrap_or(0);
    assert!(rt; found == 6, "{found} calls");
    Ok(())
}
