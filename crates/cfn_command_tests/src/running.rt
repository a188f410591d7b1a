//! Records of several workers, whose replays write the certificates of the runs.

use cfn_app::{Gate, OpenGate};
use cfn_testing::gates::Holding;
use cfn_testing::running::{RecordedRun, TRI, check_answers, replay};
use std::alloc::{AllocError, AllocGlobal};
use std::sync::Wait;
use std::test::Fail;
use std::thread::Threads;

/// Whether a recorded run of some workers under a gate ends with an optimum, its replay writes its certificate, and `check` verifies
/// that.
fn comes_again<R: AllocGlobal + Threads + Wait + Sync, G: Gate + Sync>(
    rt: &R,
    workers: &str,
    gate: &G,
) -> Result<bool, AllocError> {
    let words = [
        "wcspsolve",
        "solve",
        "in",
        "out",
        "--workers",
        workers,
        "--record",
        "rec",
    ];
    let run = RecordedRun::of(rt, &words, TRI, &[], gate)?;
    let again = replay(rt, TRI, run.record(), &[])?;
    Ok(
        run.status == 0
            && again.status == 0
            && again.said() == b"replayed\n".as_slice()
            && again.certificate() == run.certificate()
            && check_answers(rt, TRI, run.certificate(), 0, b"verified lower 1 best 1\n")?,
    )
}

/// Whether a record of four workers comes again under a gate that holds one of them.
fn comes_again_held<R: AllocGlobal + Threads + Wait + Sync>(
    rt: &R,
    number: u32,
) -> Result<bool, AllocError> {
    let gate = Holding { number };
    comes_again(rt, "4", &gate)
}

#[test]
fn records_of_four_workers_come_again_under_twenty_gates(rt: HostRuntime) -> Result<(), Fail> {
    for number in 0..20 {
        assert!(rt; comes_again_held(&rt, number)?, "gate {number}");
    }
    Ok(())
}

#[test]
fn a_record_of_two_workers_comes_again(rt: HostRuntime) -> Result<(), Fail> {
    assert!(rt; comes_again(&rt, "2", &OpenGate)?);
    Ok(())
}
