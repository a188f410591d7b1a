//! Tests of decisions, and of going back to the root from behind them.

use crate::acting::Act::{self, Barred, Closes, Done, Floor, Refuse, Take, Undo};
use crate::acting::Choice::{Is, Most};
use crate::acting::Move::{Cut, CutTuple, Lift, Project};
use crate::acting::first_odd_in;
use crate::networks::Which;
use std::test::Fail;

/// Each side of a decision closes, and the root does not.
const BOTH_SIDES_CLOSE: [Act; 21] = [
    Take(Is(0, 0), true),
    // where x0 is 0, x1 and x2 are 1 both
    Done(1, Project(0, 1, 0, 1)),
    Done(1, Cut(1, 0)),
    Done(1, Project(1, 1, 0, 1)),
    Done(1, Cut(2, 0)),
    Done(1, Project(2, 0, 1, 1)),
    Done(1, Lift(1, 1)),
    Closes(1, true),
    Undo,
    Closes(1, false),
    Refuse(Is(0, 0), true),
    // where x0 is 1, x1 and x2 are 0 both
    Done(1, Project(0, 1, 1, 1)),
    Done(1, Cut(1, 1)),
    Done(1, Project(1, 1, 1, 1)),
    Done(1, Cut(2, 1)),
    Done(1, Project(2, 0, 0, 1)),
    Done(1, Lift(1, 1)),
    Closes(1, true),
    Undo,
    Closes(1, false),
    Floor(0),
];

/// A bound is taken back.
const UNDO_TAKES_A_BOUND_BACK: [Act; 9] = [
    Refuse(Most(0, 1), true),
    Closes(1, true),
    Undo,
    Take(Most(0, 1), true),
    Closes(1, false),
    Take(Most(0, 0), true),
    Closes(1, false),
    Refuse(Is(0, 0), true),
    Closes(1, true),
];

/// The project is not allowed before the tuple that costs 2 is cut, once or twice, and allowed behind it.
const A_CUT_TUPLE_COUNTS_NO_MORE: [Act; 10] = [
    Barred(2, CutTuple(0, 2)),
    Barred(2, Project(0, 0, 0, 5)),
    Done(2, CutTuple(0, 1)),
    Done(2, CutTuple(0, 1)),
    Done(2, Project(0, 0, 0, 5)),
    Undo,
    Barred(2, Project(0, 0, 0, 5)),
    Done(2, CutTuple(0, 1)),
    Done(2, CutTuple(0, 1)),
    Done(2, Project(0, 0, 0, 5)),
];

/// Tuples with a value that is not live are not asked.
const LIVE_TUPLES_ALONE_ARE_ASKED: [Act; 13] = [
    Barred(9, Project(0, 1, 0, 2)),
    Barred(9, Project(0, 0, 1, 2)),
    Barred(9, Project(0, 2, 1, 2)),
    Refuse(Is(2, 1), true),
    Done(9, Project(0, 1, 0, 4)),
    Undo,
    Barred(9, Project(0, 1, 0, 2)),
    Barred(9, Project(0, 0, 1, 2)),
    Barred(9, Project(0, 2, 1, 2)),
    Refuse(Is(1, 0), true),
    Done(9, Project(0, 1, 0, 2)),
    Done(9, Project(0, 0, 1, 2)),
    Done(9, Project(0, 2, 1, 2)),
];

/// The lists, and the networks that they are for.
const LISTS: [(Which, &[Act]); 4] = [
    (Which::Tri, &BOTH_SIDES_CLOSE),
    (Which::Tiny, &UNDO_TAKES_A_BOUND_BACK),
    (Which::Pair, &A_CUT_TUPLE_COUNTS_NO_MORE),
    (Which::Narrow, &LIVE_TUPLES_ALONE_ARE_ASKED),
];

#[test]
fn decisions_are_gone_back_from(rt: HostRuntime) -> Result<(), Fail> {
    for (list, (which, acts)) in LISTS.iter().enumerate() {
        let odd = first_odd_in(rt.alloc(), *which, acts)?;
        assert!(rt; odd.is_none(), "in list {list}");
    }
    Ok(())
}
