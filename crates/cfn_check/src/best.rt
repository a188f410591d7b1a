//! The best assignment of a certificate.

ghost use Rattle.std.specs.Prelude.{◌≡◌, ℕ, ◌<◌, ◌↔◌, List, [], ◌∷◌, ◌++◌, length, Option, IfOk, IfErr, IfSome, OnOk, MatchResult, IsTrue};
ghost use Rattle.cfn_model.specs.declared.version.Version.{Version};
ghost use Rattle.cfn_fault.specs.Lines as lines;
ghost use Rattle.cfn_fault.specs.Lines.{Line};
ghost use Rattle.cfn_check.specs.Checking.{Right, IsDueIn, IsBounded, IsOpened, Stops, IsStop};
ghost use Rattle.cfn_fault.specs.Judging.{threshold_in};
ghost use Rattle.cfn_check.specs.Assigning.{value_in};

use crate::answer::Stop;
use crate::assignment::Assignment;
use crate::reading::{next, root};
use cfn_certtext::{Event, Item, Reader};
use cfn_fault::FaultKind;
use cfn_net::Network;
use std::alloc::Global;

/// Reads the best assignment's cost and values, and the line that begins the tree. The answer is the cost.
pub(crate) fn best(
    alloc: Global,
    network: &Network,
    reader: &mut Reader<'_>,
) -> Result<Option<u64>, Stop>
    requires { IsDueIn reader.old lines.AtBest }
    ensures text { reader.new.text ≡ reader.old.text }
    ensures right { IfOk result (λ best. (lower : ℕ) → IsBounded network.now reader.old lower
        → IsOpened network.now reader.new lower best) }
    ensures stop { IfErr result (λ stop. (lower : ℕ) → IsBounded network.now reader.old lower
        → IsStop network.now reader.old.text stop) }
{
    let event = next(reader)?;
    match event.item {
        Item::NoBest => {
            root(reader)?;
            Ok(None)
        }
        Item::Best(cost) => {
            if cost >= network.ub() {
                return Err(Stop::Refused {
                    kind: FaultKind::Best,
                    line: event.line,
                });
            }
            values(alloc, network, reader, cost)?;
            Ok(Some(cost))
        }
        _ => unreachable!(),
    }
}

/// Reads the values of the best assignment, which has to have the cost, and the line that begins the tree.
fn values(alloc: Global, network: &Network, reader: &mut Reader<'_>, cost: u64) -> Result<(), Stop>
    requires { IsDueIn reader.old lines.AtValues }
    ensures text { reader.new.text ≡ reader.old.text }
    ensures right { OnOk result ((ls : List Line) (version : Version)
        → Right network.now reader.old ls (lines.AtValues version) → threshold_in ls ≡ cost
        → (values : List ℕ) × Right network.now reader.new ((ls ++ lines.Values values ∷ []) ++ lines.Root ∷ []) (lines.AtNodes version ([] ∷ []))) }
    ensures stop { IfErr result (λ stop. (ls : List Line) (version : Version)
        → Right network.now reader.old ls (lines.AtValues version) → threshold_in ls ≡ cost
        → IsStop network.now reader.old.text stop) }
{
    let event = next(reader)?;
    let Item::Value(value) = event.item else {
        unreachable!()
    };
    let mut told = Assignment::new(alloc);
    told.add(network, value)?;
    loop {
        let after = next(reader);
        if let Some(value) = value_in(&after) {
            told.add(network, value)?;
            continue;
        }
        if !told.has_cost(network, cost) {
            return Err(Stop::Refused {
                kind: FaultKind::Best,
                line: event.line,
            });
        }
        let _root = after?;
        return Ok(());
    }
}

/// The value that was told, if one was.
fn value_in(after: &Result<Event, Stop>) -> Option<u64>
    ensures { result ≡ value_in after.now }
{
    match after {
        Ok(event) => match event.item {
            Item::Value(value) => Some(value),
            _ => None,
        },
        Err(_) => None,
    }
}
