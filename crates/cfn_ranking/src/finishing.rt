//! The certificate of a list, where its search ends.

ghost use Rattle.std.specs.Prelude.{◌≡◌, ◌↔◌, ℕ, ◌<◌, ◌≤◌, ◌^◌, min, length, IsTrue};
ghost use Rattle.cfn_ranking.specs.Certificates.{list_certificate_of};
ghost use Rattle.cfn_ranking.specs.Trees.{open_leaves};
ghost use Rattle.cfn_ranking.specs.Ranked.{IsRanked, Waits};
ghost use Rattle.cfn_ranking.specs.Finished.{AreNumbered, AreThere, IsLeastFloor, IsLesserAt, IsListOf, IsSwept, IsSweptAt};
ghost use Rattle.cfn_ranking.specs.Changes.{shut};

use crate::BestCertificate;
use crate::ranking::Ranking;
use cfn_net::Network;
use cfn_proof::NodeId;

/// A list of the cheapest assignments, and whether a leaf is open in its tree.
#[derive(Drop)]
pub struct Finished {
    pub certificate: BestCertificate,
    pub is_open: bool,
}

impl Ranking {
    /// The certificate of the list: leaves that wait with floors from the threshold on are closed. It takes no memory.
    pub fn finish(self, network: &Network) -> Finished
        requires ranked { IsRanked network.now self }
        requires few { self.count ≤ 2 ^ 32 }
        ensures list { IsListOf network.now self.count self.spent (list_certificate_of result.certificate) }
        ensures open { IsTrue result.is_open ↔ (0 < open_leaves (list_certificate_of result.certificate).tree) }
    {
        network.law_limits();
        let mut ranking = self;
        ranking.sweep(network);
        number_all(&mut ranking.numbers, &ranking.leaves);
        let lower = ranking.bound();
        let is_open = ranking.has_open();
        let Ranking {
            tree,
            numbers,
            list,
            count,
            ..
        } = ranking;
        Finished {
            certificate: BestCertificate {
                variables: network.variables(),
                functions: network.functions(),
                upper: network.ub(),
                count: count as u64,
                lower,
                list,
                tree,
                numbers,
            },
            is_open,
        }
    }

    /// Closes the leaves that wait with floors from the threshold on. It takes no memory.
    fn sweep(&mut self, network: &Network)
        requires ranked { IsRanked network.now self.old }
        ensures swept { IsSwept network.now self.old self.new }
    {
        self.law_linked();
        for i in 0..self.tree.len() {
            self.sweep_at(network, i);
        }
    }

    /// Closes a node, where it is a leaf that waits with a floor from the threshold on.
    fn sweep_at(&mut self, network: &Network, i: usize)
        requires ranked { IsRanked network.now self.old }
        requires there { i < length self.old.nodes }
        ensures { IsSweptAt network.now i self.old self.new }
    {
        self.law_linked();
        let leaf = NodeId { number: i as u32 };
        if !self.waits(leaf) {
            return;
        }
        if self.floors[i] < u128::from(self.threshold) {
            return;
        }
        self.shut_own(leaf);
        self.law_linked();
    }

    /// Closes an open leaf behind its own block.
    fn shut_own(&mut self, leaf: NodeId)
        requires { Waits self.old leaf.number }
        ensures { self.new ≡ shut self.old leaf.number }
    {
        self.tree.shut(leaf);
    }

    /// The least of the threshold and the floors of the leaves that wait.
    fn bound(&self) -> u64
        requires floors { length self.now.floors ≡ length self.now.nodes }
        requires numbers { length self.now.numbers ≡ length self.now.nodes }
        ensures { IsLeastFloor self.now (length self.now.nodes) result }
    {
        self.law_linked();
        let mut least = self.threshold;
        for i in 0..self.tree.len() {
            least = self.lesser_at(i, least);
        }
        least
    }

    /// The lesser of a number and the floor of a node, where it is a leaf that waits.
    fn lesser_at(&self, i: usize, least: u64) -> u64
        requires there { i < length self.now.nodes }
        requires floors { length self.now.floors ≡ length self.now.nodes }
        requires numbers { length self.now.numbers ≡ length self.now.nodes }
        ensures { IsLesserAt self.now i least result }
    {
        self.law_linked();
        let leaf = NodeId { number: i as u32 };
        if !self.waits(leaf) {
            return least;
        }
        lesser(least, self.floors[i])
    }

    /// Whether a leaf waits.
    fn has_open(&self) -> bool
        requires { length self.now.numbers ≡ length self.now.nodes }
        ensures { IsTrue result ↔ ((i : ℕ) × Waits self.now i) }
    {
        self.law_linked();
        for i in 0..self.tree.len() {
            if self.waits(NodeId { number: i as u32 }) {
                return true;
            }
        }
        false
    }
}

/// The lesser of a number and a floor.
fn lesser(least: u64, floor: u128) -> u64
    ensures { result ≡ min least floor }
{
    if floor < u128::from(least) {
        floor as u64
    } else {
        least
    }
}

/// Gives each of some leaves the number of its place among them.
fn number_all(numbers: &mut Vec<Option<u32>>, leaves: &[NodeId])
    requires there { AreThere (length numbers.old.items) leaves.now }
    requires few { length leaves.now ≤ 2 ^ 32 }
    ensures { AreNumbered leaves.now numbers.old.items numbers.new.items }
{
    for j in 0..leaves.len() {
        let leaf = leaves[j];
        numbers[leaf.number as usize] = Some(j as u32);
    }
}
