//! The open leaves of the pool's tree, with the tree.

use crate::entry::Entry;
use cfn_net::NetworkSnapshot;
use cfn_proof::{Row, Tree};
use cfn_queue::OpenList;
use std::marker::Model;

/// How many rows of bounds are kept at most.
pub(crate) const ROWS: usize = 256;

/// The pool's tree with its open leaves, how many nodes may be made and were made, and the rows of bounds.
///
/// Contracts see the pool's state but for its view, for the network that it is of.
#[derive(Drop)]
pub struct Leaves {
    pub(crate) network: NetworkSnapshot,
    pub(crate) tree: Tree,
    /// The open leaves by their numbers; nothing for one that is closed.
    pub(crate) table: Vec<Option<Entry>>,
    /// The free leaves. There is room in it for those that are out.
    pub(crate) list: OpenList,
    /// How many leaves are open.
    pub(crate) opened: u64,
    /// How many nodes may still be made below leaves that are out.
    pub(crate) granted: u64,
    pub(crate) budget: u64,
    pub(crate) begun: u64,
    pub(crate) nodes: u64,
    pub(crate) rows: Vec<Row>,
}

impl Model for Leaves {
    ghost use Rattle.std.specs.Prelude.{vec_capacity};
    ghost use Rattle.cfn_leaves.specs.Value.{Holding, Body, IsInside};

    ghost Value = { Holding };

    ghost view = { λ l. record {
      network = l.network.value;
      tree = l.tree;
      table = l.table.items;
      budget = l.budget;
      begun = l.begun;
      nodes = l.nodes;
      rows = l.rows.items;
    } };

    ghost invariant = { λ l. IsInside l.network.value (record {
      nodes = l.tree;
      table = l.table.items;
      listing = l.list;
      opened = l.opened;
      granted = l.granted;
    }) l.budget l.nodes l.rows.items (vec_capacity l.rows) };
}
