//! What is read of the leaves.

ghost use Rattle.std.specs.Prelude.{◌≡◌, ◌+◌, ◌≤◌, ◌^◌, [], length, min, IsTrue, IsFalse};
ghost use Rattle.std.specs.List.{list_any};
ghost use Rattle.cfn_model.specs.Tree.{bound, open_leaves};
ghost use Rattle.cfn_proof.specs.Nodes.{tree_of};
ghost use Rattle.cfn_machine.specs.Pool.{granted};
ghost use Rattle.cfn_machine.specs.Pool as pool;
ghost use Rattle.cfn_machine.specs.Parts.{HasActiveBelow, NoneActiveBelow};
ghost use Rattle.cfn_leaves.specs.Read.{active, active_below, lesser};
ghost use Rattle.cfn_leaves.specs.Value.{pool_tree};

use crate::entry::{Entry, Mark};
use crate::leaves::Leaves;
use cfn_proof::laws::law_same_before;
use cfn_proof::{Row, Tree};

impl Leaves {
    /// How many nodes were made since the opening: splits and closed leaves of pieces.
    pub fn nodes(&self) -> u64
        ensures { result ≡ self.now.nodes }
    {
        self.nodes
    }

    /// How many leaves are open, free or out, at most 2^32.
    pub fn open_leaves(&self) -> u64
        ensures is { result ≡ open_leaves (pool.tree_of (pool_tree self.now)) }
        ensures few { result ≤ 2 ^ 32 }
    {
        self.opened
    }

    /// Nothing: its contract tells a caller that the numbers of leaves are below 2^32.
    pub fn law_numbered(&self)
        ensures { length self.now.table ≤ 2 ^ 32 }
    {
        let _ = &self.table;
    }

    /// How many nodes may be made.
    pub fn budget(&self) -> u64
        ensures { result ≡ self.now.budget }
    {
        self.budget
    }

    /// How many nodes the budget has left beside those that were made and those that may still be made below leaves that
    /// are out.
    pub fn left(&self) -> u64
        ensures { result + (self.now.nodes + granted (pool_tree self.now)) ≡ self.now.budget }
    {
        self.budget - (self.nodes + self.granted)
    }

    /// The rows of bounds that were noted, the first of them first.
    pub fn rows(&self) -> &[Row]
        ensures { result.now ≡ self.now.rows }
    {
        &self.rows
    }

    /// The least of a threshold and the floors of all open leaves, free or out. It takes no memory, and goes over the
    /// table.
    pub fn bound(&self, threshold: u64) -> u64
        ensures { result ≡ bound self.now.network [] (pool.tree_of (pool_tree self.now)) threshold }
    {
        law_same_before();
        let mut least = threshold;
        for held in &self.table {
            least = lesser(least, *held);
        }
        least
    }

    /// Whether a leaf is open that is not set aside, and has a floor below a threshold. It takes no memory, and goes over the table.
    pub fn has_active_below(&self, threshold: u64) -> bool
        ensures some { IsTrue result → HasActiveBelow self.now.network (pool_tree self.now) threshold }
        ensures none { IsFalse result → NoneActiveBelow self.now.network (pool_tree self.now) threshold }
    {
        law_same_before();
        any_active_below(&self.table, threshold)
    }

    /// The search tree, and the rows of bounds that were noted. It takes no memory.
    pub fn finish(self) -> (Tree, Vec<Row>)
        ensures tree { tree_of result.0 ≡ pool.tree_of (pool_tree self) }
        ensures rows { result.1.items ≡ self.rows }
    {
        let Leaves { tree, rows, .. } = self;
        (tree, rows)
    }
}

/// The lesser of a number and the floor of an entry, where there is one.
fn lesser(least: u64, held: Option<Entry>) -> u64
    ensures { result ≡ lesser least held }
{
    match held {
        Some(entry) if entry.floor < u128::from(least) => entry.floor as u64,
        _ => least,
    }
}

/// Whether the table has a leaf that is not set aside, with a floor below a threshold.
fn any_active_below(table: &[Option<Entry>], threshold: u64) -> bool
    ensures { result ≡ list_any (active_below threshold) table.now }
{
    table.iter().any(|held| is_active_below(*held, threshold))
}

/// Whether an entry is that of a leaf that is not set aside, with a floor below a threshold.
fn is_active_below(held: Option<Entry>, threshold: u64) -> bool
    ensures { result ≡ active_below threshold held }
{
    match held {
        Some(entry) => is_active(entry.mark) && entry.floor < u128::from(threshold),
        None => false,
    }
}

/// Whether a leaf is free, or in a worker's hand: one that is set aside is out to nobody, with a grant of no node.
fn is_active(mark: Mark) -> bool
    ensures { result ≡ active mark }
{
    match mark {
        Mark::Free => true,
        Mark::Out { grant, .. } => grant != 0,
    }
}
