//! Tests of rows of different lengths.

use cfn_rows::Rows;
use std::alloc::{AllocError, Global};
use std::test::*;

/// Whether two writes into rows of 2, 0 and 3 sevens leave these rows.
fn leaves(alloc: Global, first: &[u32], last: &[u32]) -> Result<bool, AllocError> {
    let mut rows = Rows::filled(alloc, &[2, 0, 3], 7u32)?;
    let len = rows.len();
    rows.row_mut(0)[1] = 1;
    rows.set(2, 0, 2);
    Ok(
        len == 3
            && rows.row(0) == first
            && rows.row(1).is_empty()
            && rows.row(2) == last
            && rows.get(2, 0) == 2,
    )
}

#[test]
fn a_write_stays_in_its_row(rt: HostRuntime) -> Result<(), Fail> {
    assert!(rt; leaves(rt.alloc(), &[7, 1], &[2, 7, 7])?);
    Ok(())
}
