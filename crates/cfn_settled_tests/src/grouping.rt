//! Short lists of steps of which it is known by hand whether they are groups, be they allowed or not.

use cfn_model::{Event, Step};
use cfn_net::Network;
use std::alloc::Global;
use std::process::Abort;
use std::test::Fail;

/// Two variables of 2 values; a function over both, of which each tuple costs 2; and one over the first, of which the value 0
/// costs 1.
const FILE: &str = "hand 2 2 2 10\n2 2\n2 0 1 2 0\n1 0 0 1\n0 1\n";

const BOTH: u32 = 0;

const FIRST: u32 = 1;

/// What is to be said of steps: that they are groups, that they are but for the last of them, or that they are none.
#[derive(Clone, Copy, PartialEq, Eq)]
enum Word {
    Groups,
    Open,
    None,
}

fn project(function: u32, place: u32, value: u32, amount: u64) -> Step {
    Step::Project {
        function,
        place,
        value,
        amount,
    }
}

fn extend(function: u32, place: u32, value: u32, amount: u64) -> Step {
    Step::Extend {
        function,
        place,
        value,
        amount,
    }
}

/// Judges what is said of steps after the history of these events, the newest first.
fn judge<R: Abort>(
    rt: &R,
    alloc: Global,
    history: &[Event],
    steps: &[Step],
    word: Word,
) -> Result<(), Fail> {
    let network = cfn_wcsp::read(alloc, FILE.as_bytes())?;
    assert!(rt;
        word_of(alloc, &network, history, steps)? == word,
        "of {steps:?}"
    );
    Ok(())
}

/// What is said of steps.
fn word_of(
    alloc: Global,
    network: &Network,
    history: &[Event],
    steps: &[Step],
) -> Result<Word, Fail> {
    let closed = cfn_plain::are_groups(alloc, network, history, steps)?;
    let open = cfn_plain::are_open_groups(alloc, network, history, steps)?;
    Ok(match (closed, open) {
        (true, _) => Word::Groups,
        (false, true) => Word::Open,
        (false, false) => Word::None,
    })
}

#[test]
fn lift_is_a_group(rt: HostRuntime) -> Result<(), Fail> {
    let lift = Step::Lift {
        variable: 0,
        amount: 1,
    };
    let alloc = rt.alloc();
    judge(&rt, alloc, &[], &[], Word::Groups)?;
    judge(&rt, alloc, &[], &[lift], Word::Groups)?;
    let first = project(BOTH, 0, 0, 1);
    let second = project(BOTH, 0, 1, 1);
    judge(&rt, alloc, &[], &[first, second, lift], Word::Groups)?;
    judge(&rt, alloc, &[], &[lift, first, second], Word::Open)
}

#[test]
fn project_without_support_is_open(rt: HostRuntime) -> Result<(), Fail> {
    let alloc = rt.alloc();
    judge(&rt, alloc, &[], &[project(BOTH, 0, 0, 1)], Word::Open)?;
    judge(&rt, alloc, &[], &[project(BOTH, 0, 0, 2)], Word::Groups)
}

#[test]
fn what_is_projected_back_gains_nothing(rt: HostRuntime) -> Result<(), Fail> {
    let alloc = rt.alloc();
    let cost = project(FIRST, 0, 0, 1);
    let there = extend(BOTH, 0, 0, 1);
    let back = project(BOTH, 0, 0, 1);
    judge(&rt, alloc, &[], &[cost], Word::Groups)?;
    judge(&rt, alloc, &[], &[cost, there, back], Word::Open)?;
    judge(&rt, alloc, &[], &[cost, there, back, there], Word::None)
}

#[test]
fn nothing_is_repeated_in_a_group(rt: HostRuntime) -> Result<(), Fail> {
    let alloc = rt.alloc();
    let half = project(BOTH, 0, 0, 1);
    judge(&rt, alloc, &[], &[half, half], Word::None)?;
    let start = [Event::Did(half)];
    judge(&rt, alloc, &start, &[half], Word::Groups)
}

/// The first project here gives supports. A group that it closes leaves nothing for the last one to give; a group that goes on
/// with it is closed by the last one.
#[test]
fn group_goes_on_with_what_could_close_it(rt: HostRuntime) -> Result<(), Fail> {
    let alloc = rt.alloc();
    let gives = project(BOTH, 1, 0, 2);
    let there = extend(BOTH, 0, 0, 1);
    let back = project(BOTH, 0, 0, 1);
    judge(&rt, alloc, &[], &[gives, there, back], Word::Groups)?;
    let start = [Event::Did(gives)];
    judge(&rt, alloc, &start, &[there, back], Word::Open)
}

/// A value that had a support gets a full one, which counts for the lower variable alone.
#[test]
fn full_support_is_the_lower_variables(rt: HostRuntime) -> Result<(), Fail> {
    let alloc = rt.alloc();
    let start = [Event::Did(project(BOTH, 1, 1, 2))];
    let steps = [extend(BOTH, 1, 1, 2), project(BOTH, 0, 0, 2)];
    judge(&rt, alloc, &start, &steps, Word::Groups)?;
    let start = [Event::Did(project(BOTH, 0, 1, 2))];
    let steps = [extend(BOTH, 0, 1, 2), project(BOTH, 1, 0, 2)];
    judge(&rt, alloc, &start, &steps, Word::Open)
}

#[test]
fn what_is_dead_is_not_cut(rt: HostRuntime) -> Result<(), Fail> {
    let alloc = rt.alloc();
    let value = Step::CutValue {
        variable: 0,
        value: 1,
    };
    let tuple = Step::CutTuple {
        function: BOTH,
        cell: 2,
    };
    judge(&rt, alloc, &[], &[tuple, value], Word::Groups)?;
    judge(&rt, alloc, &[], &[value, value], Word::None)?;
    judge(&rt, alloc, &[], &[tuple, tuple], Word::None)?;
    judge(&rt, alloc, &[], &[value, tuple], Word::None)
}
