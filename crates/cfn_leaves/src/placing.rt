//! Leaves of a tree are put behind the table, and into the list of free leaves.

ghost use Rattle.std.specs.Prelude.{◌≡◌, ◌+◌, ◌<◌, ◌≤◌, ◌^◌, ◌++◌, ◌∷◌, [], length, map, All, OnOk, Some, IsPermutation, vec_len, vec_capacity};
ghost use Rattle.cfn_proof.specs.Nodes.{moved};
ghost use Rattle.cfn_leaves.specs.declared.entry.Mark.TheVariants.{Free};
ghost use Rattle.cfn_leaves.specs.Listed.{IsListed};
ghost use Rattle.cfn_leaves.specs.Placed.{placed, FitsPlace};

use crate::entry::{Entry, Mark};
use crate::walk::Spot;
use cfn_proof::NodeId;
use cfn_queue::{OpenLeaf, OpenList};
use std::alloc::AllocError;

/// How many leaves may have a number.
const MOST: usize = 4_294_967_296;

/// Takes room for `more` leaves, where so many are open: in the table, and in the list for those and for all that are out. An
/// `Err`, want of memory or of numbers, leaves both as they were.
pub(crate) fn reserve(
    table: &mut Vec<Option<Entry>>,
    list: &mut OpenList,
    opened: usize,
    more: usize,
) -> Result<(), AllocError>
    requires few { length table.old.items ≤ 2 ^ 32 }
    requires opened { opened ≤ 2 ^ 32 }
    requires listed { length list.old.leaves ≤ opened }
    ensures table { table.new.items ≡ table.old.items }
    ensures list { list.new.leaves ≡ list.old.leaves }
    ensures room_kept { list.old.spare ≤ list.new.spare }
    ensures few { OnOk result (length table.old.items + more ≤ 2 ^ 32) }
    ensures room { OnOk result (vec_len table.new + more ≤ vec_capacity table.new) }
    ensures all { OnOk result (opened + more ≤ length list.old.leaves + list.new.spare) }
{
    if more > MOST - table.len() {
        return Err(AllocError);
    }
    table.reserve(more)?;
    list.reserve(opened - list.len() + more)
}

/// Puts the leaves of a tree whose root has taken the place of a leaf of a tree of so many nodes behind the table, in
/// their order, and into the list. All are free. It takes no memory.
pub(crate) fn place(
    table: &mut Vec<Option<Entry>>,
    list: &mut OpenList,
    spots: &[Spot],
    leaf: NodeId,
    nodes: usize,
)
    requires few { length table.old.items + length spots.now ≤ 2 ^ 32 }
    requires room { vec_len table.old + length spots.now ≤ vec_capacity table.old }
    requires list { length spots.now ≤ list.old.spare }
    requires fit { All (FitsPlace nodes) spots.now }
    ensures table { table.new.items ≡ table.old.items ++ map (placed leaf.number nodes) spots.now }
    ensures listed { IsListed table.old.items list.old.leaves → IsListed table.new.items list.new.leaves }
    ensures len { length list.new.leaves ≡ length list.old.leaves + length spots.now }
    ensures room { list.old.spare ≤ list.new.spare + length spots.now }
{
    for spot in spots {
        put(table, list, moved_to(spot.node, leaf, nodes), spot.floor);
    }
}

/// Puts one free leaf behind the table, and into the list.
fn put(table: &mut Vec<Option<Entry>>, list: &mut OpenList, node: NodeId, floor: u128)
    requires few { length table.old.items < 2 ^ 32 }
    requires room { vec_len table.old + 1 ≤ vec_capacity table.old }
    requires list { 0 < list.old.spare }
    ensures table { table.new.items ≡ table.old.items ++ Some (record { node = node; mark = Free; floor = floor }) ∷ [] }
    ensures len { vec_len table.new ≡ vec_len table.old + 1 }
    ensures capacity { vec_capacity table.new ≡ vec_capacity table.old }
    ensures leaves { IsPermutation (record { floor = floor; leaf = length table.old.items } ∷ list.old.leaves) list.new.leaves }
    ensures room { list.old.spare ≤ list.new.spare + 1 }
{
    let leaf = table.len() as u32;
    let mark = Mark::Free;
    table.push_reserved(Some(Entry { node, mark, floor }));
    list.insert(OpenLeaf { floor, leaf });
}

/// Where a node of the tree goes: the root to the leaf, and the others behind all nodes, in their order.
fn moved_to(id: NodeId, leaf: NodeId, nodes: usize) -> NodeId
    requires { nodes + id.number ≤ 2 ^ 32 }
    ensures { result.number ≡ moved leaf.number nodes id.number }
{
    if id.number == 0 {
        return leaf;
    }
    NodeId {
        number: (nodes + id.number as usize - 1) as u32,
    }
}
