//! What runs of `trial` say.

use cfn_testing::running::Run;
use std::alloc::{AllocError, AllocGlobal};
use std::sync::Wait;
use std::test::Fail;
use std::thread::Threads;

/// The run of these words, without a file.
fn trial<R: AllocGlobal + Threads + Wait + Sync>(
    rt: &R,
    words: &[&str],
) -> Result<Run, AllocError> {
    Run::over(rt, words, &[], &[], "out")
}

/// With one variable the costs are 9, 9 and 2; with two the least is 2 + 2 + 1. The others are from a table over pairs of
/// neighbours (dynamic programming), a program of its own.
#[test]
fn least_costs_of_one_and_two_variables(rt: HostRuntime) -> Result<(), Fail> {
    let run = trial(&rt, &["wcspsolve", "trial", "7", "1"])?;
    assert!(rt; run.status == 0);
    assert!(rt; run.said() == b"variables 1\nfunctions 1\nleast 2\n".as_slice());
    let run = trial(&rt, &["wcspsolve", "trial", "7", "2"])?;
    assert!(rt; run.status == 0);
    assert!(rt; run.said() == b"variables 2\nfunctions 3\nleast 5\n".as_slice());
    let run = trial(&rt, &["wcspsolve", "trial", "7", "3"])?;
    assert!(rt; run.said() == b"variables 3\nfunctions 6\nleast 11\n".as_slice());
    Ok(())
}

/// The same is said whatever the number of workers.
#[test]
fn workers_change_nothing(rt: HostRuntime) -> Result<(), Fail> {
    for workers in ["1", "2", "8"] {
        let words = ["wcspsolve", "trial", "7", "20", "--workers", workers];
        let run = trial(&rt, &words)?;
        assert!(rt; run.status == 0);
        assert!(rt; run.said() == b"variables 20\nfunctions 57\nleast 139\n".as_slice());
    }
    let run = trial(&rt, &["wcspsolve", "trial", "7", "20"])?;
    assert!(rt; run.said() == b"variables 20\nfunctions 57\nleast 139\n".as_slice());
    Ok(())
}

#[test]
fn failed_say_is_a_fault(rt: HostRuntime) -> Result<(), Fail> {
    let run = Run::over(&rt, &["wcspsolve", "trial", "7", "1"], &[], &[2], "out")?;
    assert!(rt; run.status == 5);
    assert!(rt; run.said() == b"variables 1\n".as_slice());
    Ok(())
}
