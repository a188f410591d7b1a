//! The tree of a search for the cheapest assignments, its open leaves, and the list.

ghost use Rattle.std.specs.Prelude.{◌≡◌, ◌↔◌, ◌<◌, ◌≤◌, [], length, IfOk, IfSome, IsTrue};
ghost use Rattle.cfn_model.specs.Paths.{HasSmallCosts};
ghost use Rattle.cfn_model.specs.Sums.{floor};
ghost use Rattle.cfn_proof.specs.declared.tree.End.TheVariants.{Free};
ghost use Rattle.cfn_proof.specs.Nodes.{IsLinked};
ghost use Rattle.cfn_ranking.specs.Ranked.{IsRanked, Waits, WaitsIn};

use crate::Listed;
use cfn_net::Network;
use cfn_proof::{End, NodeId, Tree};
use cfn_queue::{OpenLeaf, OpenList};
use std::alloc::{AllocError, Global};
use std::marker::Model;

/// The cheapest assignments so far, and the tree of the search. Contracts see its nodes; for each node a floor, which is that of
/// an open leaf which waits to be expanded, and a number where it is the leaf of a listed assignment; the list, and the leaf of
/// each of its assignments; how many are asked for; the threshold; and how many leaves were expanded.
#[derive(Drop)]
pub struct Ranking {
    pub(crate) tree: Tree,
    pub(crate) floors: Vec<u128>,
    pub(crate) numbers: Vec<Option<u32>>,
    /// The leaves that wait, and some that did, by their floors; of those with one floor the newest is the first.
    pub(crate) open: OpenList,
    pub(crate) list: Vec<Listed>,
    pub(crate) leaves: Vec<NodeId>,
    pub(crate) count: usize,
    pub(crate) threshold: u64,
    pub(crate) spent: u64,
}

impl Model for Ranking {
    ghost use Rattle.cfn_ranking.specs.Certificates.{solutions_of};
    ghost use Rattle.cfn_ranking.specs.Ranked.{Ranked};

    ghost Value = { Ranked };

    ghost view = { λ r. record {
      nodes = r.tree;
      floors = r.floors.items;
      numbers = r.numbers.items;
      list = solutions_of r.list.items;
      leaves = r.leaves.items;
      count = r.count;
      threshold = r.threshold;
      spent = r.spent;
    } };
}

/// Where a leaf stands among those of one floor: behind all of greater numbers.
pub(crate) fn listing(leaf: NodeId, floor: u128) -> OpenLeaf {
    OpenLeaf {
        floor,
        leaf: u32::MAX - leaf.number,
    }
}

impl Ranking {
    /// An empty list of so many assignments at most, and a tree of one open leaf, with the network's floor. An `Err` is want of
    /// memory.
    pub fn make(
        alloc: Global,
        network: &Network,
        count: usize,
        low: u128,
    ) -> Result<Ranking, AllocError>
        requires some { 1 ≤ count }
        requires small { HasSmallCosts network.now [] }
        requires floor { low ≡ floor network.now [] }
        ensures ranked { IfOk result (IsRanked network.now) }
        ensures count { IfOk result (λ ranking. ranking.count ≡ count) }
        ensures none { IfOk result (λ ranking. ranking.spent ≡ 0) }
    {
        let tree = Tree::new(alloc)?;
        tree.law_linked();
        let mut floors = Vec::new(alloc);
        floors.push(low)?;
        let mut numbers = Vec::new(alloc);
        numbers.push(None)?;
        let mut open = OpenList::make(alloc);
        open.reserve(1)?;
        open.insert(listing(Tree::ROOT, low));
        Ok(Ranking {
            tree,
            floors,
            numbers,
            open,
            list: Vec::new(alloc),
            leaves: Vec::new(alloc),
            count,
            threshold: network.ub(),
            spent: 0,
        })
    }

    /// Nothing: its contract tells that parents and children of the tree know each other.
    pub(crate) fn law_linked(&self)
        ensures { IsLinked self.now.nodes }
    {
        self.tree.law_linked();
    }

    /// The tree.
    pub fn tree(&self) -> &Tree
        ensures { result.now ≡ self.now.nodes }
    {
        &self.tree
    }

    /// The threshold: what the last assignment costs in a list of as many as are asked for, and else the upper bound.
    pub fn threshold(&self) -> u64
        ensures { result ≡ self.now.threshold }
    {
        self.threshold
    }

    /// How many leaves were expanded.
    pub fn spent(&self) -> u64
        ensures { result ≡ self.now.spent }
    {
        self.spent
    }

    /// A leaf that waits, of least floor, and of these the newest, where one has a floor below the threshold. It is not
    /// answered again. It takes no memory.
    pub fn next(&mut self) -> Option<NodeId>
        requires { length self.old.numbers ≡ length self.old.nodes }
        ensures waits { IfSome result (λ leaf. Waits self.old leaf.number) }
        ensures same { self.new ≡ self.old }
    {
        for _ in 0..self.open.len() {
            let first = self.open.take_least()?;
            if first.floor >= u128::from(self.threshold) {
                return None;
            }
            let leaf = NodeId {
                number: u32::MAX - first.leaf,
            };
            if self.waits(leaf) {
                return Some(leaf);
            }
        }
        None
    }

    /// Whether a leaf waits to be expanded: a node is there that is open, and no listed assignment's.
    pub fn waits(&self, leaf: NodeId) -> bool
        requires { length self.now.numbers ≡ length self.now.nodes }
        ensures { IsTrue result ↔ Waits self.now leaf.number }
    {
        waits_in(&self.tree, &self.numbers, leaf)
    }
}

/// Whether a node is there that is an open leaf, and has no number.
fn waits_in(tree: &Tree, numbers: &[Option<u32>], leaf: NodeId) -> bool
    requires { length numbers.now ≡ length tree.now }
    ensures { IsTrue result ↔ WaitsIn tree.now numbers.now leaf.number }
{
    let i = leaf.number as usize;
    if i >= tree.len() {
        return false;
    }
    is_free(tree.node(leaf).end) && numbers[i].is_none()
}

/// Whether a node is an open leaf.
pub(crate) fn is_free(end: End) -> bool
    ensures { IsTrue result ↔ (end ≡ Free) }
{
    matches!(end, End::Free)
}
