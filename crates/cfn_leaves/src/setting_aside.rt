//! The open leaves that a part of a search leaves to others are set aside: they are out to nobody.

ghost use Rattle.std.specs.Prelude.{◌≡◌, ◌≤◌, ◌^◌, length, slice_set, Some, IfSome, OnErr, OnOk};
ghost use Rattle.cfn_machine.specs.Parts.{IsPart, has_leaf};
ghost use Rattle.cfn_leaves.specs.declared.entry.Entry.{Entry};
ghost use Rattle.cfn_leaves.specs.declared.entry.Mark.TheVariants.{Out};
ghost use Rattle.cfn_leaves.specs.Asides.{AllSetAside, SetsAside};
ghost use Rattle.cfn_leaves.specs.Listed.{IsListed, outs};
ghost use Rattle.cfn_leaves.specs.Standing.{entry_at};

use crate::entry::{Entry, Mark};
use crate::leaves::Leaves;
use crate::taking::{held, mark};
use cfn_machine::Part;
use cfn_proof::laws::law_same_before;
use cfn_queue::OpenList;
use std::alloc::{AllocError, Global};

impl Leaves {
    /// Sets aside the open leaves that a part leaves to others, where none is out yet. An `Err`, want of memory, leaves all as it
    /// was.
    pub(crate) fn deal(&mut self, part: Option<Part>) -> Result<(), AllocError>
        requires part { IfSome part IsPart }
        requires free { outs self.old.table ≡ 0 }
        ensures ok { OnOk result (SetsAside (has_leaf part) self.old self.new) }
    {
        law_same_before();
        let alloc = *self.table.allocator();
        let Some(part) = part else {
            return Ok(());
        };
        set_aside(alloc, &mut self.table, &mut self.list, part)
    }
}

/// Sets aside the leaves of the table that a part leaves to others, where none is out yet: nobody may make a node below them. The
/// list has the part's own then. An `Err`, want of memory, leaves both as they were.
fn set_aside(
    alloc: Global,
    table: &mut Vec<Option<Entry>>,
    list: &mut OpenList,
    part: Part,
) -> Result<(), AllocError>
    requires part { IsPart part }
    requires free { outs table.old.items ≡ 0 }
    requires listed { IsListed table.old.items list.old.leaves }
    ensures ok { OnOk result (AllSetAside (has_leaf (Some part)) table.old.items list.old table.new.items list.new) }
    ensures table { OnErr result (table.new.items ≡ table.old.items) }
    ensures list { OnErr result (list.new ≡ list.old) }
{
    law_same_before();
    let mut own = OpenList::make(alloc);
    own.reserve(list.len())?;
    while let Some(leaf) = list.take_least() {
        if part.has(leaf.leaf) {
            own.insert(leaf);
        } else {
            put_aside(table, leaf.leaf as usize);
        }
    }
    *list = own;
    Ok(())
}

/// Sets a leaf aside, where the table has it.
fn put_aside(table: &mut Vec<Option<Entry>>, number: usize)
    ensures { (entry : Entry) → entry_at table.old.items number ≡ Some entry
        → table.new.items ≡ slice_set table.old.items number (Some (record entry { mark = Out 0 0 })) }
{
    if let Some(entry) = held(table, number) {
        let nobody = Mark::Out {
            worker: 0,
            grant: 0,
        };
        mark(table, number, entry, nobody);
    }
}
