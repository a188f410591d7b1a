//! The lines of a certificate before its tree.

ghost use Rattle.std.specs.Prelude.{◌≡◌, List, [], ◌∷◌, ◌++◌, IfOk, IfErr};
ghost use Rattle.cfn_model.specs.declared.version.Version.{Version};
ghost use Rattle.cfn_fault.specs.Lines as lines;
ghost use Rattle.cfn_fault.specs.Lines.{Line, State};
ghost use Rattle.cfn_certtext.specs.Reading.{HasRead, Tells};
ghost use Rattle.cfn_certread.specs.Reading.{IsDueIn, IsStop, Stands, best_lines, head_lines};

use crate::certificate::{Best, Head};
use crate::stop::Stop;
use cfn_certtext::{Event, Item, Reader};
use std::alloc::Global;

/// Takes the next event. Where a line does not follow the grammar, reading stops there.
pub(crate) fn next(reader: &mut Reader<'_>) -> Result<Event, Stop>
    ensures text { reader.new.text ≡ reader.old.text }
    ensures event { IfOk result (λ event. (ls : List Line) (s : State) →
        HasRead reader.old ls s → Tells reader.old reader.new ls s event) }
    ensures stop { IfErr result (λ stop. (ls : List Line) (s : State) →
        HasRead reader.old ls s → IsStop reader.old.text stop) }
{
    match reader.next() {
        Ok(event) => Ok(event),
        Err(fault) => Err(Stop::Text(fault)),
    }
}

/// Reads the lines before the best assignment.
pub(crate) fn head(reader: &mut Reader<'_>) -> Result<Head, Stop>
    requires { Stands reader.old [] lines.AtVersion }
    ensures text { reader.new.text ≡ reader.old.text }
    ensures read { IfOk result (λ head. (version : Version)
        × Stands reader.new (head_lines version head) (lines.AtBest version)) }
    ensures stop { IfErr result (IsStop reader.old.text) }
{
    let _version = next(reader)?;
    let numbers = next(reader)?;
    let Item::Network {
        variables,
        functions,
        upper,
    } = numbers.item
    else {
        unreachable!()
    };
    let bound = next(reader)?;
    let Item::Lower(lower) = bound.item else {
        unreachable!()
    };
    Ok(Head {
        variables,
        functions,
        upper,
        lower,
    })
}

/// Reads the best assignment, and the line that begins the tree.
pub(crate) fn best(alloc: Global, reader: &mut Reader<'_>) -> Result<Option<Best>, Stop>
    requires { IsDueIn reader.old lines.AtBest }
    ensures text { reader.new.text ≡ reader.old.text }
    ensures read { IfOk result (λ best. (version : Version) (ls : List Line) → Stands reader.old ls (lines.AtBest version)
        → Stands reader.new (ls ++ best_lines best) (lines.AtNodes version ([] ∷ []))) }
    ensures stop { IfErr result (IsStop reader.old.text) }
{
    let event = next(reader)?;
    match event.item {
        Item::NoBest => {
            let _root = next(reader)?;
            Ok(None)
        }
        Item::Best(cost) => {
            let values = values(alloc, reader)?;
            Ok(Some(Best { cost, values }))
        }
        _ => unreachable!(),
    }
}

/// Reads the values of the best assignment, and the line that begins the tree.
fn values(alloc: Global, reader: &mut Reader<'_>) -> Result<Vec<u64>, Stop>
    requires { IsDueIn reader.old lines.AtValues }
    ensures text { reader.new.text ≡ reader.old.text }
    ensures read { IfOk result (λ values. (version : Version) (ls : List Line) → Stands reader.old ls (lines.AtValues version)
        → Stands reader.new (ls ++ lines.Values values.items ∷ lines.Root ∷ []) (lines.AtNodes version ([] ∷ []))) }
    ensures stop { IfErr result (IsStop reader.old.text) }
{
    let first = next(reader)?;
    let Item::Value(value) = first.item else {
        unreachable!()
    };
    let mut values = Vec::new(alloc);
    values.push(value)?;
    loop {
        let event = next(reader)?;
        let Item::Value(value) = event.item else {
            return Ok(values);
        };
        values.push(value)?;
    }
}
