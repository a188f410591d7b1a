//! Runs of several workers, under gates that hold them at one point or another.

use crate::solving::best_values;
use cfn_app::{Gate, Point};
use cfn_testing::gates::Holding;
use cfn_testing::running::{Run, TRI, check_answers};
use std::alloc::{AllocError, AllocGlobal};
use std::sync::Wait;
use std::sync::atomic::{AtomicU64, Ordering};
use std::test::*;
use std::thread;
use std::thread::Threads;

/// A gate that holds the second task of a run until a third is taken, for so many turns.
///
/// Below the root of `TRI` there are two leaves. Whoever takes the second task has the third in its lane, so the third is
/// stolen: two workers are at work at once.
#[derive(Drop)]
struct Meeting {
    turns: u32,
    /// How many tasks were taken.
    taken: AtomicU64,
    /// Whether the task was held to the last turn, as 1.
    missed: AtomicU64,
}

impl Meeting {
    fn of(turns: u32) -> Meeting {
        Meeting {
            turns,
            taken: AtomicU64::new(0),
            missed: AtomicU64::new(0),
        }
    }
}

impl Gate for Meeting {
    fn pass(&self, _worker: u32, point: Point) {
        if point == Point::Taken && self.taken.fetch_add(1, Ordering::SeqCst) == 1 {
            for _ in 0..self.turns {
                if self.taken.load(Ordering::SeqCst) > 2 {
                    return;
                }
                thread::yield_now();
            }
            self.missed.store(1, Ordering::SeqCst);
        }
    }
}

/// Whether a run of `solve` on `TRI` by some workers under a gate reports an optimum of cost 1 with its values, and writes a
/// certificate with these that `check` verifies.
fn is_right<R: AllocGlobal + Threads + Wait + Sync, G: Gate + Sync>(
    rt: &R,
    workers: &str,
    gate: &G,
) -> Result<bool, AllocError> {
    let words = ["wcspsolve", "solve", "in", "out", "--workers", workers];
    let run = Run::gated(rt, &words, TRI, gate)?;
    let (said, certified, _) = best_values(&run);
    Ok(
        run.status == 0
            && run.says(b"variables 3\nfunctions 3\nlower 1\nupper 1\nresult optimum")
            && (said, certified) == (1, 1)
            && check_answers(rt, TRI, run.certificate(), 0, b"verified lower 1 best 1\n")?,
    )
}

/// Whether two workers are right that meet, and whether each of three tasks passed the gate and none was held to its last turn.
fn meets<R: AllocGlobal + Threads + Wait + Sync>(rt: &R) -> Result<(bool, bool), AllocError> {
    let gate = Meeting::of(10_000_000);
    let right = is_right(rt, "2", &gate)?;
    let taken = gate.taken.load(Ordering::SeqCst);
    Ok((right, taken >= 3 && gate.missed.load(Ordering::SeqCst) == 0))
}

#[test]
fn two_workers_of_a_run_are_at_work_at_once(rt: HostRuntime) -> Result<(), Fail> {
    assert!(rt; meets(&rt)? == (true, true));
    Ok(())
}

/// Workers that run one after another, the first of which takes all three tasks, hold the second to the last turn.
#[test]
fn workers_in_turn_do_not_meet(rt: HostRuntime) -> Result<(), Fail> {
    let gate = Meeting::of(1_000);
    for _ in 0..3 {
        gate.pass(0, Point::Taken);
    }
    assert!(rt; gate.missed.load(Ordering::SeqCst) == 1);
    Ok(())
}

/// Whether four workers are right under a gate that holds one of them.
fn agrees<R: AllocGlobal + Threads + Wait + Sync>(rt: &R, number: u32) -> Result<bool, AllocError> {
    let gate = Holding { number };
    is_right(rt, "4", &gate)
}

#[test]
fn four_workers_of_a_run_agree_under_twenty_gates(rt: HostRuntime) -> Result<(), Fail> {
    for number in 0..20 {
        assert!(rt; agrees(&rt, number)?, "gate {number}");
    }
    Ok(())
}
