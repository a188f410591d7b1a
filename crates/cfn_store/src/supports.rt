//! Where the values of functions of two variables cost nothing last: for each value at a place a value of the other variable.
//! It is what is looked at first (a "support" in toulbar2), and nothing is promised of it.

ghost use Rattle.std.specs.Prelude.{◌≡◌, ◌*◌, ◌+◌};

use cfn_net::Network;
use cfn_rows::Rows;
use cfn_scan::Extreme;
use std::alloc::{AllocError, Global};

/// A live value at a place of a function, and the least residual cost of the live tuples with it, with a tuple that has it;
/// there is none where no such tuple is live.
#[derive(Clone, Copy)]
pub struct Doubt {
    pub value: u32,
    pub least: Option<Extreme>,
    /// The other value of that tuple, in a function of two variables.
    pub(crate) other: u32,
}

/// A row for each of the two places of each function, with a number for each value there; the rows of functions that have
/// another number of variables are empty.
#[derive(Drop)]
pub(crate) struct Supports {
    rows: Rows<u32>,
}

impl Supports {
    /// Each is 0 at first. An `Err` is want of memory.
    pub(crate) fn make(alloc: Global, network: &Network) -> Result<Supports, AllocError> {
        Ok(Supports {
            rows: Rows::filled(alloc, &sizes(alloc, network)?, 0)?,
        })
    }
}

/// How many values there are at each of the two places of each function. An `Err` is want of memory.
fn sizes(alloc: Global, network: &Network) -> Result<Vec<u32>, AllocError> {
    network.law_limits();
    let mut sizes = Vec::with_capacity(alloc, 2 * network.functions() as usize)?;
    for f in 0..network.functions() {
        let (first, second) = match network.scope(f) {
            [x, y] => (network.size(*x), network.size(*y)),
            _ => (0, 0),
        };
        sizes.push(first)?;
        sizes.push(second)?;
    }
    Ok(sizes)
}

/// The numbers at a place of a function, from value 0 on, where there are some.
#[inline]
pub(crate) fn row_of(supports: &Option<Box<Supports>>, f: u32, place: u32) -> &[u32] {
    let Some(supports) = supports else {
        return &[];
    };
    let row = row_number(f, place);
    if row < supports.rows.len() {
        supports.rows.row(row)
    } else {
        &[]
    }
}

/// Keeps the other value with which a value at a place costs nothing, where there is room for it.
#[inline]
pub(crate) fn keep(supports: &mut Option<Box<Supports>>, f: u32, place: u32, doubt: Doubt) {
    let Some(supports) = supports else {
        return;
    };
    let row = row_number(f, place);
    let value = doubt.value as usize;
    if row < supports.rows.len() && value < supports.rows.row(row).len() {
        supports.rows.set(row, value, doubt.other);
    }
}

/// The number of a place's row.
#[inline]
fn row_number(f: u32, place: u32) -> usize
    ensures { result ≡ 2 * f + place }
{
    2 * f as usize + place as usize
}
