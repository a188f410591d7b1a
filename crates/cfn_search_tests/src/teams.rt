//! Searches by several workers, under gates that hold them at one point or another.

ghost use Rattle.std.specs.Prelude.{◌≤◌};

use crate::networks::tri;
use cfn_low::Stop;
use cfn_solve::{Gate, Never, OpenGate, Point, Threshold, solve_together};
use std::alloc::{AllocError, AllocGlobal};
use std::sync::Wait;
use std::sync::atomic::{AtomicU64, Ordering};
use std::test::*;
use std::thread::Threads;

/// A gate by which a worker is about to wait with a count of changes that has moved already.
///
/// The first task, the root of `tri`, is held until the other worker is about to wait, since there is no leaf. That worker is
/// held until the second task is taken: then the count has moved, and nobody tells it any more. The second task is held until
/// the third is taken, by the worker that need not wait. Each is held for at most 100,000,000 turns.
#[derive(Drop)]
struct Moving {
    /// How many tasks were taken.
    taken: AtomicU64,
    /// How often a worker was about to wait.
    waits: AtomicU64,
    /// How many were held to the last turn.
    missed: AtomicU64,
}

impl Moving {
    /// Holds whoever calls it until a count is that much.
    fn hold(&self, count: &AtomicU64, least: u64) {
        for _ in 0..100_000_000 {
            if count.load(Ordering::SeqCst) >= least {
                return;
            }
        }
        self.missed.fetch_add(1, Ordering::SeqCst);
    }
}

impl Gate for Moving {
    fn pass(&self, _worker: u32, point: Point) {
        match point {
            Point::Taken => match self.taken.fetch_add(1, Ordering::SeqCst) {
                0 => self.hold(&self.waits, 1),
                1 => self.hold(&self.taken, 3),
                _ => {}
            },
            Point::Waiting => {
                if self.waits.fetch_add(1, Ordering::SeqCst) == 0 {
                    self.hold(&self.taken, 2);
                }
            }
            Point::BeforeGive | Point::Ended => {}
        }
    }
}

/// The least of some thresholds.
fn least_of(thresholds: &[Threshold]) -> u64 {
    let mut least = u64::MAX;
    for threshold in thresholds {
        least = least.min(threshold.number());
    }
    least
}

/// The bound that some workers prove of `tri`, and whether they end with an optimum of that cost, which is the least threshold
/// at which one of them made a piece.
fn together<R: AllocGlobal + Threads + Wait + Sync, G: Gate + Sync>(
    rt: &R,
    workers: u32,
    gate: &G,
) -> Result<(u64, bool), AllocError>
    requires some { 1 ≤ workers }
    requires few { workers ≤ 64 }
{
    let network = tri(rt.alloc())?;
    let found = solve_together(rt, rt.alloc(), &network, workers, 1_000_000, gate, &Never)?;
    let outcome = &found.outcome;
    let lower = outcome.certificate.lower;
    let best = outcome.certificate.best.as_ref().map(|best| best.price());
    let least = least_of(&found.thresholds);
    Ok((
        lower,
        outcome.stop == Stop::Done && best == Some(lower) && least == lower,
    ))
}

/// What two workers find where one is about to wait with a count that has moved, and how many were held to the last turn.
fn under_moving<R: AllocGlobal + Threads + Wait + Sync>(
    rt: &R,
) -> Result<((u64, bool), u64), AllocError> {
    let gate = Moving {
        taken: AtomicU64::new(0),
        waits: AtomicU64::new(0),
        missed: AtomicU64::new(0),
    };
    let found = together(rt, 2, &gate)?;
    Ok((found, gate.missed.load(Ordering::SeqCst)))
}

#[test]
fn single_worker_finds_the_optimum(rt: HostRuntime) -> Result<(), Fail> {
    assert!(rt; together(&rt, 1, &OpenGate)? == (1, true));
    Ok(())
}

#[test]
fn four_workers_find_the_optimum(rt: HostRuntime) -> Result<(), Fail> {
    assert!(rt; together(&rt, 4, &OpenGate)? == (1, true));
    Ok(())
}

#[test]
fn worker_does_not_wait_for_a_change_that_came(rt: HostRuntime) -> Result<(), Fail> {
    assert!(rt; under_moving(&rt)? == ((1, true), 0));
    Ok(())
}
