//! Tests of live values.

use cfn_model::Decision;
use cfn_rows::LiveSets;
use std::alloc::{AllocError, Global};
use std::test::*;

const UP_TO_TWO: Decision = Decision::Most {
    variable: 0,
    value: 2,
};

const ZERO: Decision = Decision::Is {
    variable: 0,
    value: 0,
};

const ONE: Decision = Decision::Is {
    variable: 0,
    value: 1,
};

/// Whether the values of the first of three variables go by a cut, a decision that holds, one that fails and one that
/// holds and leaves none, and come back by four undoings.
fn go_and_come_back(alloc: Global) -> Result<bool, AllocError> {
    let mut sets = LiveSets::make(alloc, &[4, 1, 3])?;
    sets.reserve(4)?;
    sets.cut(0, 1);
    let cut = sets.count(0) == 3 && !sets.is_live(0, 1);
    sets.take(UP_TO_TWO);
    let taken = sets.is_live(0, 0) && sets.is_live(0, 2) && !sets.is_live(0, 3);
    let two = sets.count(0) == 2;
    sets.refuse(ZERO);
    let refused = sets.live(0) == [2].as_slice();
    sets.take(ONE);
    let none = sets.count(0) == 0 && sets.count(1) == 1 && sets.count(2) == 3;
    sets.undo();
    sets.undo();
    sets.undo();
    let undone = sets.count(0) == 3 && sets.is_live(0, 3) && !sets.is_live(0, 1);
    sets.undo();
    let all = sets.count(0) == 4;
    drop(sets);
    Ok(cut && taken && two && refused && none && undone && all)
}

#[test]
fn values_go_and_come_back(rt: HostRuntime) -> Result<(), Fail> {
    assert!(rt; go_and_come_back(rt.alloc())?);
    Ok(())
}
