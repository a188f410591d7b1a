//! Tests of a lane of tasks that one worker pushes and another steals.

ghost use Rattle.std.specs.Prelude.{◌≡◌, ◌<◌};

use cfn_rota::{Kind, Lane, Thief};
use std::alloc::{AllocError, AllocGlobal, Global};
use std::sync::Wait;
use std::test::*;
use std::thread;
use std::thread::Threads;

/// Numbers below 100.
struct Small;

impl Kind<u32> for Small {
    ghost use Rattle.std.specs.Prelude.{◌<◌};

    ghost fits = { λ n. n < 100 };
}

/// What a lane with room for two answers: three pushes, and three pops.
fn first_in_first_out(alloc: Global) -> Result<([bool; 2], [Option<u32>; 3]), AllocError> {
    let mut lane = Lane::<u32, Small>::make(alloc, 2)?;
    let pushed = [lane.push(7).is_ok(), lane.push(8).is_ok()];
    Ok((pushed, [lane.pop(), lane.pop(), lane.pop()]))
}

/// Whether a task is pushed.
fn push(lane: &mut Lane<u32, Small>, task: u32) -> bool
    requires { task < 100 }
    ensures { lane.new.lane ≡ lane.old.lane }
{
    lane.push(task).is_ok()
}

/// What this end steals.
fn steal(mut thief: Thief<u32, Small>) -> (Thief<u32, Small>, Option<u32>)
    ensures { result.0.lane ≡ thief.lane }
{
    let stolen = thief.steal();
    (thief, stolen)
}

/// What is stolen from a lane with the tasks 7, 8 and 9 by another thread, what its worker pops then, and how many are left.
fn shared<R: Threads + Wait + Sync>(
    rt: &R,
    alloc: Global,
) -> Result<(Option<u32>, Option<u32>, usize), AllocError> {
    let mut lane = Lane::<u32, Small>::make(alloc, 4)?;
    let thief = lane.thief()?;
    if !(push(&mut lane, 7) && push(&mut lane, 8) && push(&mut lane, 9)) {
        return Err(AllocError);
    }
    let ((), (thief, stolen)) = thread::join(
        rt,
        move || {},
        move ||
            ensures { result.0.lane ≡ thief.lane }
        { steal(thief) },
    );
    let popped = lane.pop();
    Ok((stolen, popped, lane.absorb(thief)))
}

#[test]
fn pops_come_in_the_order_of_pushes(rt: HostRuntime) -> Result<(), Fail> {
    let (pushed, popped) = first_in_first_out(rt.alloc())?;
    assert!(rt; pushed == [true, true]);
    assert!(rt; popped == [Some(7), Some(8), None]);
    Ok(())
}

#[test]
fn another_thread_steals(rt: HostRuntime) -> Result<(), Fail> {
    assert!(rt; shared(&rt, rt.alloc())? == (Some(7), Some(8), 1));
    Ok(())
}
