//! Tests of the open list.

ghost use Rattle.std.specs.Prelude.{◌≡◌, ◌≤◌, length};

use cfn_queue::{OpenLeaf, OpenList};
use std::alloc::{AllocError, Global};
use std::test::*;

/// A list of four leaves.
fn four(alloc: Global) -> Result<OpenList, AllocError> {
    let mut list = OpenList::make(alloc);
    list.reserve(4)?;
    list.insert(OpenLeaf { floor: 7, leaf: 1 });
    list.insert(OpenLeaf { floor: 5, leaf: 4 });
    list.insert(OpenLeaf { floor: 5, leaf: 3 });
    list.insert(OpenLeaf { floor: 6, leaf: 0 });
    Ok(list)
}

/// How many leaves that list has, which of them is the least, and what five takings give.
fn takings(alloc: Global) -> Result<(usize, Option<OpenLeaf>, [Option<OpenLeaf>; 5]), AllocError> {
    let mut list = four(alloc)?;
    let len = list.len();
    let least = list.least();
    let mut taken = [None; 5];
    for place in &mut taken {
        *place = list.take_least();
    }
    Ok((len, least, taken))
}

/// Whether no leaf has a least one.
fn is_none_least(alloc: Global) -> bool {
    OpenList::make(alloc).least().is_none()
}

#[test]
fn least_floor_first_and_then_least_number(rt: HostRuntime) -> Result<(), Fail> {
    assert!(rt; is_none_least(rt.alloc()));
    let least = OpenLeaf { floor: 5, leaf: 3 };
    let expected = [
        Some(least),
        Some(OpenLeaf { floor: 5, leaf: 4 }),
        Some(OpenLeaf { floor: 6, leaf: 0 }),
        Some(OpenLeaf { floor: 7, leaf: 1 }),
        None,
    ];
    assert!(rt; takings(rt.alloc())? == (4, Some(least), expected));
    Ok(())
}

/// The leaves of three whose floor is below 6: how many there are, and the first.
fn kept_below_six(alloc: Global) -> Result<(usize, Option<OpenLeaf>), AllocError> {
    let mut list = OpenList::make(alloc);
    list.reserve(3)?;
    list.insert(OpenLeaf { floor: 7, leaf: 1 });
    list.insert(OpenLeaf { floor: 5, leaf: 4 });
    list.insert(OpenLeaf { floor: 6, leaf: 0 });
    list.keep_below(6);
    let len = list.len();
    let first = if len == 0 { None } else { Some(list.at(0)) };
    Ok((len, first))
}

#[test]
fn leaves_below_a_floor_are_kept(rt: HostRuntime) -> Result<(), Fail> {
    let kept = kept_below_six(rt.alloc())?;
    assert!(rt; kept == (1, Some(OpenLeaf { floor: 5, leaf: 4 })));
    Ok(())
}
