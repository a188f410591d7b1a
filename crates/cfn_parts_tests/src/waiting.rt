//! Tests of the queue.

use cfn_queue::Queue;
use std::alloc::{AllocError, Global};
use std::test::*;

/// What is taken from a queue of three numbers: from the empty one, after 2, 0, 2 and 1 were put, and after 2 was put once
/// more. The second is what was told to be the first.
fn taken(alloc: Global) -> Result<[Option<u32>; 7], AllocError> {
    let mut queue = Queue::make(alloc, 3)?;
    let none = queue.take();
    queue.put(2);
    queue.put(0);
    queue.put(2);
    queue.put(1);
    let told = queue.first();
    let first = queue.take();
    queue.put(2);
    let rest = [queue.take(), queue.take(), queue.take(), queue.take()];
    Ok([none, told, first, rest[0], rest[1], rest[2], rest[3]])
}

#[test]
fn first_in_first_out_and_once(rt: HostRuntime) -> Result<(), Fail> {
    let expected = [None, Some(2), Some(2), Some(0), Some(1), Some(2), None];
    assert!(rt; taken(rt.alloc())? == expected);
    Ok(())
}
