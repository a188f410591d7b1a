//! The lines of a tree's nodes.

ghost use Rattle.std.specs.Prelude.{◌≡◌, ℕ, List, [], ◌∷◌, Option, Some, None, IfOk, IfErr, OnOk, if◌then◌else◌};
ghost use Rattle.cfn_model.specs.declared.step.Event.{Event as PathEvent};
ghost use Rattle.cfn_fault.specs.Nodes.{Item as NodeItem};
ghost use Rattle.cfn_fault.specs.Lines as lines;
ghost use Rattle.cfn_certtext.specs.Reading.{item_of};
ghost use Rattle.cfn_check.specs.Checking.{InTree, IsDueIn, IsStop};
ghost use Rattle.cfn_check.specs.Taking.{Takes};

use crate::answer::Stop;
use crate::reading::next;
use crate::walk::Walk;
use cfn_certtext::{Item, Reader};
use cfn_fault::FaultKind;
use cfn_net::Network;
use std::alloc::AllocError;

/// Judges the lines of all nodes that are due.
pub(crate) fn nodes(network: &Network, reader: &mut Reader<'_>, walk: &mut Walk) -> Result<(), Stop>
    requires same { network.now ≡ walk.old.network }
    requires due { IsDueIn reader.old (λ version. lines.AtNodes version walk.old.paths) }
    ensures text { reader.new.text ≡ reader.old.text }
    ensures nodes { OnOk result ((lower : ℕ) (best : Option ℕ) → InTree network.now reader.old walk.old lower best
        → InTree network.now reader.new walk.new lower best × (walk.new.paths ≡ [])) }
    ensures stop { IfErr result (λ stop. (lower : ℕ) (best : Option ℕ)
        → InTree network.now reader.old walk.old lower best → IsStop network.now reader.old.text stop) }
{
    while !walk.is_over() {
        let event = next(reader)?;
        if let Some(kind) = node(network, walk, event.item)? {
            return Err(Stop::Refused {
                kind,
                line: event.line,
            });
        }
    }
    Ok(())
}

/// Judges a line of the node that is due, and goes on behind it. The answer is how the line fails, if it does. An `Err`
/// is want of memory.
pub fn node(network: &Network, walk: &mut Walk, item: Item) -> Result<Option<FaultKind>, AllocError>
    requires { network.now ≡ walk.old.network }
    ensures network { walk.new.network ≡ walk.old.network }
    ensures takes { IfOk result (λ fault. (it : NodeItem) (history : List PathEvent) (paths : List (List PathEvent))
        → item ≡ item_of (lines.Node it) → walk.old.paths ≡ history ∷ paths
        → Takes walk.old walk.new it history paths fault) }
{
    match item {
        Item::Step(step) => walk.step(network, step),
        Item::Open => {
            walk.open(network)?;
            Ok(None)
        }
        Item::Closed => {
            let closes = walk.close(network)?;
            Ok(fault_unless(closes, FaultKind::Close))
        }
        Item::Split(decision) => {
            let splits = walk.split(network, decision)?;
            Ok(fault_unless(splits, FaultKind::Range))
        }
        _ => Ok(None),
    }
}

/// A fault, unless a test has passed.
fn fault_unless(passes: bool, kind: FaultKind) -> Option<FaultKind>
    ensures { result ≡ (if passes then None else Some kind) }
{
    if passes { None } else { Some(kind) }
}
