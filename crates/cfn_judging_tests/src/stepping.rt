//! Tests of steps, all on one path from the root.

use crate::acting::Act::{self, Barred, Closes, Done, Events, Far, Floor, Refuse, Take};
use crate::acting::Choice::{Is, Most};
use crate::acting::Move::{Cut, CutTuple, Extend, Lift, Project};
use crate::acting::{MOST, first_odd_in};
use crate::networks::Which;
use std::test::Fail;

/// A number that is above every 32-bit one.
const LARGE: u64 = 4294967296;

/// What is shifted adds up.
const SHIFTS_ADD_UP: [Act; 10] = [
    Done(1, Project(0, 0, 0, 3)),
    Done(1, Project(0, 0, 1, 1)),
    Barred(1, Lift(0, 2)),
    Closes(1, false),
    Done(1, Lift(0, 1)),
    Floor(1),
    Closes(1, true),
    Closes(2, false),
    Barred(1, Project(0, 0, 0, 1)),
    Events(3),
];

/// Sums of shifts are greater than 64 bits hold.
const SUMS_PASS_64_BITS: [Act; 11] = [
    Done(5, Project(0, 0, 0, MOST)),
    Done(5, Project(0, 0, 0, MOST)),
    Done(5, Project(0, 0, 0, MOST)),
    Done(5, Project(0, 0, 1, MOST)),
    Done(5, Project(0, 0, 1, MOST)),
    Done(5, Project(0, 0, 1, MOST)),
    Done(5, Lift(0, MOST)),
    Done(5, Lift(0, MOST)),
    Done(5, Lift(0, MOST)),
    Floor(3 * MOST as u128),
    Barred(5, Lift(0, 1)),
];

/// What is not live may be below 0.
const WHAT_IS_NOT_LIVE_MAY_BE_BELOW_0: [Act; 9] = [
    Done(1, Project(0, 0, 0, 3)),
    Done(1, Cut(0, 0)),
    Done(1, Extend(0, 0, 0, MOST)),
    Barred(1, Cut(0, 0)),
    Done(1, Project(0, 0, 1, 1)),
    Done(1, Lift(0, 1)),
    Done(1, CutTuple(0, 0)),
    Done(1, Cut(0, 1)),
    Closes(MOST, true),
];

/// Numbers out of range.
const NUMBERS_OUT_OF_RANGE: [Act; 16] = [
    Far(Project(LARGE, 0, 0, 1)),
    Far(Project(0, LARGE, 0, 1)),
    Far(Project(0, 0, LARGE, 1)),
    Far(Project(1, 0, 0, 1)),
    Far(Extend(0, 1, 0, 1)),
    Far(Lift(LARGE, 1)),
    Far(Lift(MOST, 1)),
    Far(Cut(LARGE, 0)),
    Far(Cut(0, 2)),
    Far(CutTuple(0, LARGE)),
    Far(CutTuple(0, 2)),
    Take(Is(LARGE, 0), false),
    Refuse(Is(0, LARGE), false),
    Take(Most(0, 2), false),
    Refuse(Most(1, 0), false),
    Events(0),
];

/// What is shifted at both places of a function adds up.
const SHIFTS_AT_BOTH_PLACES_ADD_UP: [Act; 10] = [
    Done(10, Project(0, 0, 0, 2)),
    Done(10, Extend(0, 0, 0, 1)),
    Barred(10, Project(0, 1, 0, 1)),
    Take(Is(0, 0), true),
    Barred(10, Project(0, 1, 0, 5)),
    Done(10, Project(0, 1, 0, 4)),
    Done(10, Project(0, 1, 1, 1)),
    Barred(10, Project(0, 0, 0, 1)),
    Barred(1, CutTuple(0, 0)),
    Done(0, CutTuple(0, 0)),
];

/// A function over 200,000 variables is walked.
const WIDE_SCOPES_ARE_WALKED: [Act; 5] = [
    Done(9, Project(0, 7, 0, 2)),
    Done(9, Project(0, 199999, 0, 1)),
    Barred(1, Project(0, 9, 0, 1)),
    Barred(1, Project(0, 199999, 0, 1)),
    Barred(1, CutTuple(0, 0)),
];

/// The lists, and the networks that they are for.
const LISTS: [(Which, &[Act]); 6] = [
    (Which::Tiny, &SHIFTS_ADD_UP),
    (Which::Hard, &SUMS_PASS_64_BITS),
    (Which::Tiny, &WHAT_IS_NOT_LIVE_MAY_BE_BELOW_0),
    (Which::Tiny, &NUMBERS_OUT_OF_RANGE),
    (Which::Pair, &SHIFTS_AT_BOTH_PLACES_ADD_UP),
    (Which::Wide, &WIDE_SCOPES_ARE_WALKED),
];

#[test]
fn steps_go_as_they_are_to(rt: HostRuntime) -> Result<(), Fail> {
    for (list, (which, acts)) in LISTS.iter().enumerate() {
        let odd = first_odd_in(rt.alloc(), *which, acts)?;
        assert!(rt; odd.is_none(), "in list {list}");
    }
    Ok(())
}
