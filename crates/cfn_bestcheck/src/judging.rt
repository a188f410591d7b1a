//! The judge of a list, from the bytes of its text.
//!
//! It reads the text once, line by line, and judges each line as it comes: so the first line that fails decides. The
//! lower bound is judged last.

ghost use Rattle.std.specs.Prelude.{◌≡◌, [], ◌∷◌, IfOk, IfErr};
ghost use Rattle.cfn_best.specs.Lines.{AtHeading, AtNodes, threshold};
ghost use Rattle.cfn_bestcheck.specs.Position.{At};
ghost use Rattle.cfn_bestcheck.specs.Listing.{AreLong};
ghost use Rattle.cfn_bestcheck.specs.Checking.{IsChecked, IsExact, IsStop, claim_of};

use crate::answer::{BestCheck, Stop};
use crate::entry::Entry;
use crate::lines::Lines;
use crate::listing::solutions;
use crate::opening::{Opening, read_opening, root};
use crate::tree::{end, nodes};
use cfn_best::ListFault;
use cfn_check::Walk;
use cfn_fault::FaultKind;
use cfn_net::Network;
use std::alloc::{AllocError, Global};

/// Judges a list of a network's cheapest assignments: it is verified exactly where the bytes spell a good list, and
/// refused exactly where a line is the first that fails, or none is and the lower bound is above what the tree shows.
/// Where it is verified, every assignment that is not listed costs at least the lower bound, and it says exactly whether the list is
/// complete.
///
/// It takes memory for the tables, for the events of one path of the tree and the splits on it, and for the values of the
/// listed assignments. An `Err` is want of memory.
pub fn check_best(alloc: Global, network: &Network, bytes: &[u8]) -> Result<BestCheck, AllocError>
    ensures checked { IfOk result (IsChecked network.now bytes.now) }
    ensures exact { IfOk result (IsExact network.now bytes.now) }
{
    let mut lines = Lines::of(bytes);
    match judged(alloc, network, &mut lines) {
        Ok(check) => Ok(check),
        Err(Stop::Refused { kind, line }) => Ok(BestCheck::Refused { kind, line }),
        Err(Stop::Memory) => Err(AllocError),
    }
}

/// Judges the lines of a text one after another.
fn judged(alloc: Global, network: &Network, lines: &mut Lines<'_>) -> Result<BestCheck, Stop>
    requires { At network.now lines.old AtHeading }
    ensures ok { IfOk result (IsChecked network.now lines.old.text) }
    ensures stop { IfErr result (IsStop network.now lines.old.text) }
{
    let opening = read_opening(network, lines)?;
    let list = solutions(alloc, network, lines, opening)?;
    root(network, lines)?;
    tree(alloc, network, lines, opening, &list)
}

/// Judges the lines of the tree, and then the lower bound.
fn tree(
    alloc: Global,
    network: &Network,
    lines: &mut Lines<'_>,
    opening: Opening,
    list: &[Entry],
) -> Result<BestCheck, Stop>
    requires at { At network.now lines.old
        (AtNodes (claim_of opening list.now) (threshold network.now (claim_of opening list.now)) ([] ∷ [])) }
    requires long { AreLong network.now list.now }
    ensures ok { IfOk result (IsChecked network.now lines.old.text) }
    ensures stop { IfErr result (IsStop network.now lines.old.text) }
{
    network.law_limits();
    let threshold = threshold(network, opening, list);
    let mut walk = Walk::make(alloc, network, threshold)?;
    nodes(network, lines, &mut walk, opening, list)?;
    end(network, lines)?;
    if walk.least() < opening.lower {
        return Err(Stop::Refused {
            kind: ListFault::Certificate(FaultKind::Lower),
            line: 4,
        });
    }
    Ok(BestCheck::Verified {
        lower: opening.lower,
        count: list.len() as u64,
        complete: opening.lower == threshold,
    })
}

/// The last cost of a list that has as many assignments as were asked for, and else the upper bound.
fn threshold(network: &Network, opening: Opening, list: &[Entry]) -> u64
    ensures { result ≡ threshold network.now (claim_of opening list.now) }
{
    match list.last() {
        Some(last) if list.len() as u64 == opening.count => last.cost,
        _ => network.ub(),
    }
}
