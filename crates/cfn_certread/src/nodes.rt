//! The lines of a certificate's tree.

ghost use Rattle.std.specs.Prelude.{◌≡◌, ◌<◌, List, [], ◌∷◌, length, IfOk, IfErr, OnOk};
ghost use Rattle.cfn_model.specs.declared.version.Version.{Version};
ghost use Rattle.cfn_fault.specs.Nodes.{Item as NodeItem, IsSpelledItem};
ghost use Rattle.cfn_fault.specs.Lines as lines;
ghost use Rattle.cfn_fault.specs.Lines.{Line};
ghost use Rattle.cfn_certtext.specs.Reading.{item_of};
ghost use Rattle.cfn_certread.specs.Making.{Goes};
ghost use Rattle.cfn_certread.specs.Reading.{InTree, IsDueIn, IsStop, IsTreeRead, Stands};

use crate::head::next;
use crate::maker::Maker;
use crate::stop::Stop;
use cfn_certtext::{Item, Reader};
use cfn_proof::Tree;
use std::alloc::{AllocError, Global};

/// Reads the tree and the last line, behind which nothing may stand.
pub(crate) fn tree(alloc: Global, reader: &mut Reader<'_>) -> Result<Tree, Stop>
    requires { IsDueIn reader.old (λ version. lines.AtNodes version ([] ∷ [])) }
    ensures read { IfOk result (λ tree. (version : Version) (ls : List Line)
        → Stands reader.old ls (lines.AtNodes version ([] ∷ [])) → IsTreeRead reader.old.text ls tree) }
    ensures stop { IfErr result (IsStop reader.old.text) }
{
    let mut maker = Maker::new(alloc)?;
    nodes(reader, &mut maker)?;
    let _end = next(reader)?;
    let _over = next(reader)?;
    let mut tree = maker.into_tree();
    tree.share(alloc)?;
    Ok(tree)
}

/// Reads the lines of all nodes that are due.
fn nodes(reader: &mut Reader<'_>, maker: &mut Maker) -> Result<(), Stop>
    requires { (version : Version) × (ls : List Line) × InTree reader.old maker.old ls version }
    ensures text { reader.new.text ≡ reader.old.text }
    ensures over { OnOk result (maker.new.due ≡ []) }
    ensures read { OnOk result ((version : Version) (ls : List Line)
        → InTree reader.old maker.old ls version → InTree reader.new maker.new ls version) }
    ensures stop { IfErr result (IsStop reader.old.text) }
{
    while !maker.is_over() {
        let event = next(reader)?;
        node(maker, event.item)?;
    }
    Ok(())
}

/// Reads a line of the node that is due. An `Err` is want of memory.
pub fn node(maker: &mut Maker, item: Item) -> Result<(), AllocError>
    requires some { 0 < length maker.old.due }
    requires spelled { (it : NodeItem) → item ≡ item_of (lines.Node it) → IsSpelledItem it }
    ensures { OnOk result ((it : NodeItem) → item ≡ item_of (lines.Node it) → Goes maker.old maker.new it) }
{
    match item {
        Item::Step(step) => {
            maker.step(step)?;
            Ok(())
        }
        Item::Open => {
            maker.open();
            Ok(())
        }
        Item::Closed => {
            maker.close();
            Ok(())
        }
        Item::Split(decision) => {
            maker.split(decision)?;
            Ok(())
        }
        _ => Ok(()),
    }
}
