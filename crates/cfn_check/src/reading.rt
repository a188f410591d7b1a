//! The lines of a certificate's text, one after another, up to its tree.

ghost use Rattle.std.specs.Prelude.{◌≡◌, List, [], ◌∷◌, ◌++◌, IfOk, IfErr, OnOk, OnErr, IsTrue, ◌↔◌, length};
ghost use Rattle.cfn_model.specs.declared.version.Version.{Version};
ghost use Rattle.cfn_model.specs.Network.{Network as CostNetwork};
ghost use Rattle.cfn_fault.specs.Lines as lines;
ghost use Rattle.cfn_fault.specs.Lines.{Line, State};
ghost use Rattle.cfn_certtext.specs.Reading.{HasRead, Tells};
ghost use Rattle.cfn_check.specs.Checking.{Right, IsBegun, IsNumbered, IsBounded, IsDueIn, Stops, IsStop, IsAll};

use crate::answer::Stop;
use cfn_certtext::{Event, Item, Reader};
use cfn_fault::FaultKind;
use cfn_net::Network;

/// Takes the next event. Where a line does not follow the grammar, the text is refused there.
pub(crate) fn next(reader: &mut Reader<'_>) -> Result<Event, Stop>
    ensures text { reader.new.text ≡ reader.old.text }
    ensures event { IfOk result (λ event. (ls : List Line) (s : State) →
        HasRead reader.old ls s → Tells reader.old reader.new ls s event) }
    ensures left { OnErr result (reader.old.left ≡ []) }
    ensures stop { IfErr result (Stops reader.old) }
{
    match reader.next() {
        Ok(event) => Ok(event),
        Err(fault) => Err(Stop::Refused {
            kind: FaultKind::Text,
            line: fault.line,
        }),
    }
}

/// Reads the line of the version.
pub(crate) fn version(reader: &mut Reader<'_>) -> Result<(), Stop>
    ensures text { reader.new.text ≡ reader.old.text }
    ensures right { OnOk result ((P : CostNetwork) → Right P reader.old [] lines.AtVersion → IsBegun P reader.new) }
    ensures stop { IfErr result (Stops reader.old) }
{
    let _version = next(reader)?;
    Ok(())
}

/// Reads the line of the network's numbers, which have to be the network's.
pub(crate) fn numbers(network: &Network, reader: &mut Reader<'_>) -> Result<(), Stop>
    requires { IsBegun network.now reader.old }
    ensures text { reader.new.text ≡ reader.old.text }
    ensures right { OnOk result (IsNumbered network.now reader.new) }
    ensures stop { IfErr result (IsStop network.now reader.old.text) }
{
    let event = next(reader)?;
    let Item::Network {
        variables,
        functions,
        upper,
    } = event.item
    else {
        unreachable!()
    };
    if !has_numbers(network, variables, functions, upper) {
        return Err(Stop::Refused {
            kind: FaultKind::Network,
            line: event.line,
        });
    }
    Ok(())
}

/// Whether these are the network's numbers of variables and functions and its upper bound.
fn has_numbers(network: &Network, variables: u64, functions: u64, upper: u64) -> bool
    ensures { IsTrue result ↔ ((variables ≡ length network.now.sizes) × (functions ≡ length network.now.functions)
        × (upper ≡ network.now.upper)) }
{
    variables == network.variables() as u64
        && functions == network.functions() as u64
        && upper == network.ub()
}

/// Reads the line of the lower bound.
pub(crate) fn lower_bound(reader: &mut Reader<'_>) -> Result<u64, Stop>
    requires { IsDueIn reader.old lines.AtLower }
    ensures text { reader.new.text ≡ reader.old.text }
    ensures right { IfOk result (λ lower. (P : CostNetwork) → IsNumbered P reader.old → IsBounded P reader.new lower) }
    ensures stop { IfErr result (Stops reader.old) }
{
    let event = next(reader)?;
    let Item::Lower(lower) = event.item else {
        unreachable!()
    };
    Ok(lower)
}

/// Reads the line that begins the tree.
pub(crate) fn root(reader: &mut Reader<'_>) -> Result<(), Stop>
    ensures text { reader.new.text ≡ reader.old.text }
    ensures right { OnOk result ((P : CostNetwork) (ls : List Line) (version : Version)
        → Right P reader.old ls (lines.AtRoot version)
        → Right P reader.new (ls ++ lines.Root ∷ []) (lines.AtNodes version ([] ∷ []))) }
    ensures stop { IfErr result (Stops reader.old) }
{
    let _root = next(reader)?;
    Ok(())
}

/// Reads the last line, behind which nothing may stand.
pub(crate) fn end(reader: &mut Reader<'_>) -> Result<(), Stop>
    ensures text { reader.new.text ≡ reader.old.text }
    ensures right { OnOk result ((P : CostNetwork) (ls : List Line) (version : Version)
        → Right P reader.old ls (lines.AtNodes version []) → IsAll P reader.old.text (ls ++ lines.End ∷ [])) }
    ensures stop { IfErr result (λ stop. (P : CostNetwork) (ls : List Line) (version : Version)
        → Right P reader.old ls (lines.AtNodes version []) → IsStop P reader.old.text stop) }
{
    let _end = next(reader)?;
    let _over = next(reader)?;
    Ok(())
}
