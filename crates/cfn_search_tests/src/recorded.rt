//! Searches with a record of what is done to the pool.

ghost use Rattle.std.specs.Prelude.{◌≤◌};

use crate::networks::tiny;
use cfn_record::Happened;
use cfn_solve::{Begin, Never, OpenGate, solve_from};
use std::alloc::{AllocError, AllocGlobal};
use std::sync::Wait;
use std::test::*;
use std::thread::Threads;

/// Whether what was done last is a call for all leaves that were out, and then a sweep.
fn is_wound_up(happened: &[Happened]) -> bool {
    let mut called = false;
    let mut wound_up = false;
    for what in happened {
        wound_up = called && matches!(what, Happened::Swept { .. });
        called = matches!(what, Happened::CalledBack);
    }
    wound_up
}

/// Whether the record of a search of `tiny` ends as it should. `None` where there is no record.
fn ending<R: AllocGlobal + Threads + Wait + Sync>(
    rt: &R,
    workers: u32,
    recorded: bool,
) -> Result<Option<bool>, AllocError>
    requires some { 1 ≤ workers }
    requires few { workers ≤ 64 }
{
    let network = tiny(rt.alloc())?;
    let begin = Begin::fresh(rt.alloc(), &network, recorded)?;
    let found = solve_from(
        rt,
        rt.alloc(),
        &network,
        begin,
        workers,
        100,
        &OpenGate,
        &Never,
    )?;
    Ok(
        found
            .history
            .as_ref()
            .map(|history| is_wound_up(history.happened())),
    )
}

#[test]
fn record_ends_with_a_sweep(rt: HostRuntime) -> Result<(), Fail> {
    assert!(rt; ending(&rt, 1, true)? == Some(true));
    assert!(rt; ending(&rt, 2, true)? == Some(true));
    Ok(())
}

#[test]
fn nothing_is_recorded_unasked(rt: HostRuntime) -> Result<(), Fail> {
    assert!(rt; ending(&rt, 1, false)? == None);
    assert!(rt; ending(&rt, 2, false)? == None);
    Ok(())
}
