//! The judge of a certificate, from the bytes of its text.
//!
//! It reads the text once, line by line, and judges each line as it comes: so the first line that fails decides. The
//! lower bound is judged last.

ghost use Rattle.std.specs.Prelude.{◌≡◌, [], unwrap_or, IfOk, IfErr};
ghost use Rattle.cfn_fault.specs.Lines as lines;
ghost use Rattle.cfn_check.specs.Checking.{IsChecked, IsExact, IsStop, Right, IsOpened};

use crate::answer::{Check, Stop};
use crate::best::best;
use crate::nodes::nodes;
use crate::reading::{end, lower_bound, numbers, version};
use crate::walk::Walk;
use cfn_certtext::Reader;
use cfn_fault::FaultKind;
use cfn_net::Network;
use std::alloc::{AllocError, Global};

/// What a certificate claims before its tree.
#[derive(Clone, Copy)]
pub(crate) struct Opening {
    pub(crate) lower: u64,
    pub(crate) best: Option<u64>,
}

/// Judges a certificate of a network: it is verified exactly where the bytes spell a good certificate, and refused
/// exactly where a line is the first that fails, or none is and the lower bound is above what the tree shows. Where it
/// is verified, no assignment costs less than the lower bound (Allouche et al. 2015).
///
/// It takes memory for the tables, for the events of one path of the tree and the splits on it, and for the values of
/// an assignment. An `Err` is want of memory.
pub fn check(alloc: Global, network: &Network, bytes: &[u8]) -> Result<Check, AllocError>
    ensures checked { IfOk result (IsChecked network.now bytes.now) }
    ensures exact { IfOk result (IsExact network.now bytes.now) }
{
    let mut reader = Reader::new(bytes);
    match judged(alloc, network, &mut reader) {
        Ok(check) => Ok(check),
        Err(Stop::Refused { kind, line }) => Ok(Check::Refused { kind, line }),
        Err(Stop::Memory) => Err(AllocError),
    }
}

/// Judges the lines of a text one after another.
fn judged(alloc: Global, network: &Network, reader: &mut Reader<'_>) -> Result<Check, Stop>
    requires { Right network.now reader.old [] lines.AtVersion }
    ensures ok { IfOk result (IsChecked network.now reader.old.text) }
    ensures stop { IfErr result (IsStop network.now reader.old.text) }
{
    let opening = read_opening(alloc, network, reader)?;
    tree(alloc, network, reader, opening)
}

/// Judges the lines before the tree.
fn read_opening(alloc: Global, network: &Network, reader: &mut Reader<'_>) -> Result<Opening, Stop>
    requires { Right network.now reader.old [] lines.AtVersion }
    ensures text { reader.new.text ≡ reader.old.text }
    ensures opened { IfOk result (λ opening. IsOpened network.now reader.new opening.lower opening.best) }
    ensures stop { IfErr result (IsStop network.now reader.old.text) }
{
    version(reader)?;
    numbers(network, reader)?;
    let lower = lower_bound(reader)?;
    let best = best(alloc, network, reader)?;
    Ok(Opening { lower, best })
}

/// Judges the lines of the tree, and then the lower bound.
fn tree(
    alloc: Global,
    network: &Network,
    reader: &mut Reader<'_>,
    opening: Opening,
) -> Result<Check, Stop>
    requires { IsOpened network.now reader.old opening.lower opening.best }
    ensures ok { IfOk result (IsChecked network.now reader.old.text) }
    ensures stop { IfErr result (IsStop network.now reader.old.text) }
{
    network.law_limits();
    let threshold = threshold_of(network, opening.best);
    let mut walk = Walk::make(alloc, network, threshold)?;
    nodes(network, reader, &mut walk)?;
    end(reader)?;
    if walk.least() < opening.lower {
        return Err(Stop::Refused {
            kind: FaultKind::Lower,
            line: 3,
        });
    }
    Ok(Check::Verified {
        lower: opening.lower,
        best: opening.best,
    })
}

/// The cost of the best assignment, or the upper bound where there is none.
fn threshold_of(network: &Network, best: Option<u64>) -> u64
    ensures { result ≡ unwrap_or best network.now.upper }
{
    match best {
        Some(cost) => cost,
        None => network.ub(),
    }
}
