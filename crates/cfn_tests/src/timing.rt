//! Runs under a limit of time, by clocks that stand still or jump.

use cfn_testing::clocks::{Jumping, Still};
use cfn_testing::running::{Run, SOLVE, TRI, check_answers, has_line};
use std::alloc::{AllocError, AllocGlobal, Global};
use std::sync::Wait;
use std::test::*;
use std::thread::Threads;
use std::time::Clock;

/// A network of so many variables with two values, of which each two cost 1 where they agree.
fn complete(alloc: Global, variables: u32) -> Result<Vec<u8>, AllocError> {
    let pairs = variables.saturating_mul(variables.saturating_sub(1)) / 2;
    let head = format!(in alloc; "complete {variables} 2 {pairs} 1000\n")?;
    let mut text = Vec::from_slice(alloc, head.as_bytes())?;
    for _ in 0..variables {
        text.extend_from_slice(b"2 ")?;
    }
    for x in 0..variables {
        for y in 0..x {
            let function = format!(in alloc; "\n2 {y} {x} 0 2\n0 0 1\n1 1 1")?;
            text.extend_from_slice(function.as_bytes())?;
        }
    }
    text.extend_from_slice(b"\n")?;
    Ok(text)
}

/// The number that these digits are.
fn number_of(digits: &[u8]) -> u64 {
    let mut number: u64 = 0;
    for digit in digits {
        number = number
            .saturating_mul(10)
            .saturating_add(u64::from(digit.saturating_sub(b'0')));
    }
    number
}

/// How many nodes a report tells.
fn nodes_told(said: &[u8]) -> Option<u64> {
    for line in said.split(|byte| *byte == b'\n') {
        if let Some(digits) = line.strip_prefix(b"nodes ".as_slice()) {
            return Some(number_of(digits));
        }
    }
    None
}

/// The status of a run of these words on twelve variables, whether it says this line, and how many nodes it tells.
fn long_run<R: AllocGlobal + Threads + Wait + Sync, C: Clock + Sync>(
    rt: &R,
    words: &[&str],
    clock: &C,
    line: &[u8],
) -> Result<(u8, bool, Option<u64>), AllocError> {
    let file = complete(rt.alloc(), 12)?;
    let run = Run::timed(rt, words, &file, clock)?;
    Ok((
        run.status,
        has_line(run.said(), line),
        nodes_told(run.said()),
    ))
}

/// Whether a run by a clock that jumps at its hundredth reading ends by its limit of time, with fewer than 200 nodes.
fn ends_in_time<R: AllocGlobal + Threads + Wait + Sync>(
    rt: &R,
    workers: &str,
) -> Result<bool, AllocError> {
    let words = [
        "wcspsolve",
        "solve",
        "in",
        "out",
        "--seconds",
        "1000000000",
        "--workers",
        workers,
    ];
    let (status, is_time, nodes) = long_run(rt, &words, &Jumping::behind(99), b"result time")?;
    Ok(status == 2 && is_time && nodes.is_some_and(|nodes| 0 < nodes && nodes < 200))
}

#[test]
fn limit_of_time_ends_a_search(rt: HostRuntime) -> Result<(), Fail> {
    assert!(rt; ends_in_time(&rt, "1")?);
    Ok(())
}

#[test]
fn limit_of_time_ends_three_workers(rt: HostRuntime) -> Result<(), Fail> {
    assert!(rt; ends_in_time(&rt, "3")?);
    Ok(())
}

#[test]
fn the_same_search_is_longer_without_a_limit(rt: HostRuntime) -> Result<(), Fail> {
    let words = ["wcspsolve", "solve", "in", "out", "--budget", "300"];
    assert!(rt; long_run(&rt, &words, &Still, b"result budget")? == (2, true, Some(300)));
    Ok(())
}

/// What comes of words on `TRI` by a clock that stands still: the status, whether this line is said, and the nodes.
fn short_run<R: AllocGlobal + Threads + Wait + Sync>(
    rt: &R,
    words: &[&str],
    line: &[u8],
) -> Result<(u8, bool, Option<u64>), AllocError> {
    let run = Run::timed(rt, words, TRI, &Still)?;
    Ok((
        run.status,
        has_line(run.said(), line),
        nodes_told(run.said()),
    ))
}

#[test]
fn no_seconds_make_no_node(rt: HostRuntime) -> Result<(), Fail> {
    let words = ["wcspsolve", "solve", "in", "out", "--seconds", "0"];
    assert!(rt; short_run(&rt, &words, b"result time")? == (2, true, Some(0)));
    Ok(())
}

#[test]
fn spent_budget_is_told_before_time(rt: HostRuntime) -> Result<(), Fail> {
    let words = [
        "wcspsolve",
        "solve",
        "in",
        "out",
        "--seconds",
        "0",
        "--budget",
        "0",
    ];
    assert!(rt; short_run(&rt, &words, b"result budget")? == (2, true, Some(0)));
    Ok(())
}

#[test]
fn limit_that_is_not_past_changes_nothing(rt: HostRuntime) -> Result<(), Fail> {
    let words = ["wcspsolve", "solve", "in", "out", "--seconds", "1"];
    let limited = short_run(&rt, &words, b"result optimum")?;
    assert!(rt; limited == short_run(&rt, &SOLVE, b"result optimum")?);
    assert!(rt; limited.0 == 0 && limited.1);
    Ok(())
}

/// How often a clock is read in a run on `TRI` without a limit of time.
fn readings<R: AllocGlobal + Threads + Wait + Sync>(rt: &R) -> Result<u64, AllocError> {
    let clock = Jumping::behind(0);
    let _run = Run::timed(rt, &SOLVE, TRI, &clock)?;
    Ok(clock.readings())
}

#[test]
fn clock_is_not_read_without_a_limit(rt: HostRuntime) -> Result<(), Fail> {
    assert!(rt; readings(&rt)? == 0);
    Ok(())
}

/// Whether the certificate of a run that time has ended is judged good, with a lower bound of 0.
fn is_good_when_time_is_past<R: AllocGlobal + Threads + Wait + Sync>(
    rt: &R,
) -> Result<bool, AllocError> {
    let words = ["wcspsolve", "solve", "in", "out", "--seconds", "0"];
    let run = Run::timed(rt, &words, TRI, &Still)?;
    let verified = b"verified lower 0 best none\n";
    check_answers(rt, TRI, run.certificate(), 0, verified)
}

#[test]
fn certificate_is_good_when_time_is_past(rt: HostRuntime) -> Result<(), Fail> {
    assert!(rt; is_good_when_time_is_past(&rt)?);
    Ok(())
}
