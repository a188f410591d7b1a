//! The networks that are asked about.

use cfn_net::Network;
use cfn_wcsp::read;
use std::alloc::{AllocError, Global};
use std::test::Fail;

/// One of the networks.
#[derive(Clone, Copy)]
pub(crate) enum Which {
    /// One variable of 2 values, and one function over it: it costs 3, and 1 where the value is 1.
    Tiny,
    /// Two variables of 2 values, and one function over both that costs the upper bound everywhere.
    Hard,
    /// Three variables of 2 values; two of them with the same value cost 1.
    Tri,
    /// Two variables of 2 values; x0 at 0 costs 5 with x1 at 0, and 2 with x1 at 1.
    Pair,
    /// Three variables of 2, 1 and 2 values, and one function over them: it costs 4, but 1 where the first and the last
    /// are 1.
    Narrow,
    /// 200,000 variables of one value, and a function over all of them that costs 3.
    Wide,
}

pub(crate) const TINY: &[u8] = b"tiny 1 2 1 10\n2\n1 0 3 1\n1 1\n";

pub(crate) const HARD: &[u8] = b"hard 2 2 1 5\n2 2\n2 0 1 5 0\n";

const TRI: &[u8] =
    b"tri 3 2 3 10\n2 2 2\n2 0 1 0 2\n0 0 1\n1 1 1\n2 0 2 0 2\n0 0 1\n1 1 1\n2 1 2 0 2\n0 0 1\n1 1 1\n";

const PAIR: &[u8] = b"pair 2 2 1 10\n2 2\n2 0 1 0 2\n0 0 5\n0 1 2\n";

const NARROW: &[u8] = b"narrow 3 2 1 10\n2 1 2\n3 0 1 2 4 1\n1 0 1 1\n";

impl Which {
    /// Reads it.
    pub(crate) fn network(self, alloc: Global) -> Result<Network, Fail> {
        let file = match self {
            Which::Tiny => TINY,
            Which::Hard => HARD,
            Which::Tri => TRI,
            Which::Pair => PAIR,
            Which::Narrow => NARROW,
            Which::Wide => return read_wide(alloc, 200000),
        };
        Ok(read(alloc, file)?)
    }
}

/// A network of so many variables of one value, and a function over all of them that costs 3.
fn read_wide(alloc: Global, many: u32) -> Result<Network, Fail> {
    let file = wide(alloc, many)?;
    Ok(read(alloc, file.as_bytes())?)
}

/// The file of that network.
fn wide(alloc: Global, many: u32) -> Result<String, AllocError> {
    let mut file = String::new(alloc);
    write!(file, "wide {many} 1 1 10\n")?;
    for _ in 0..many {
        file.push_str("1 ")?;
    }
    write!(file, "\n{many}")?;
    for x in 0..many {
        write!(file, " {x}")?;
    }
    file.push_str(" 3 0\n")?;
    Ok(file)
}
