//! Two trees that are joined, and what each node of the joined tree is to be.

ghost use Rattle.std.specs.Prelude.{◌≡◌, ◌<◌, ℕ, List, length, IfOk};
ghost use Rattle.cfn_model.specs.declared.step.Step.{Step};
ghost use Rattle.cfn_model.specs.Tree as trees;
ghost use Rattle.cfn_proof.specs.Nodes.{IsTree, tree_at, with_children};
ghost use Rattle.cfn_merge.specs.Ranking.{AreBelow, AreRanks, IsRank};
ghost use Rattle.cfn_merge.specs.declared.pair.Source.TheVariants.{First, Second, Both};
ghost use Rattle.cfn_merge.specs.Sources.{due_by, with_sources, AreThere, IsOneSplit, IsPart, IsThere};

use crate::rank::{Rank, ranks};
use crate::same::same;
use cfn_model::Decision;
use cfn_proof::{Block, End, Node, NodeId, Tree};
use std::alloc::{AllocError, Global};

/// Of what a node of the joined tree is made: of a node of the first tree, or of the second, or of one of each, joined.
#[derive(Clone, Copy)]
pub(crate) enum Source {
    First(NodeId),
    Second(NodeId),
    Both { first: NodeId, second: NodeId },
}

/// How a node of the joined tree ends: a split has the sources of its sides.
#[derive(Clone, Copy)]
pub(crate) enum Ending {
    Free,
    Shut,
    Split {
        decision: Decision,
        first: Source,
        second: Source,
    },
}

/// A tree with the ranks of its nodes.
#[derive(Drop)]
struct Ranked<'t> {
    tree: &'t Tree,
    ranks: Vec<Rank>,
    ghost are: { AreRanks tree.now ranks.items },
}

impl<'t> Ranked<'t> {
    /// A tree with its ranks. An `Err` is want of memory, or a number that is too great.
    fn of(alloc: Global, tree: &'t Tree) -> Result<Ranked<'t>, AllocError>
        ensures { IfOk result (λ made. made.tree.now ≡ tree.now) }
    {
        let ranks = ranks(alloc, tree)?;
        Ok(Ranked { tree, ranks })
    }

    /// The rank of a node's tree.
    fn rank(&self, id: NodeId) -> Rank
        requires { id.number < length self.now.tree.now }
        ensures { IsRank result (tree_at self.now.tree.now id.number) }
    {
        self.ranks[id.number as usize]
    }
}

/// Two trees that are joined.
#[derive(Drop)]
pub(crate) struct Pair<'t> {
    first: Ranked<'t>,
    second: Ranked<'t>,
}

impl<'t> Pair<'t> {
    /// Two trees. An `Err` is want of memory, or a number that is too great.
    pub(crate) fn of(
        alloc: Global,
        first: &'t Tree,
        second: &'t Tree,
    ) -> Result<Pair<'t>, AllocError>
        ensures first { IfOk result (λ pair. pair.first.tree.now ≡ first.now) }
        ensures second { IfOk result (λ pair. pair.second.tree.now ≡ second.now) }
    {
        Ok(Pair {
            first: Ranked::of(alloc, first)?,
            second: Ranked::of(alloc, second)?,
        })
    }

    /// Nodes of both trees are linked.
    pub(crate) fn law_linked(&self)
        ensures first { IsTree self.now.first.tree.now }
        ensures second { IsTree self.now.second.tree.now }
    {
        self.first.tree.law_linked();
        self.second.tree.law_linked();
    }

    /// The block of a source's node, and how it ends.
    pub(crate) fn part(&self, source: Source) -> (&'t Block, Ending)
        requires { IsThere (length self.now.first.tree.now) (length self.now.second.tree.now) source }
        ensures { IsPart self.now.first.tree.now self.now.second.tree.now source result.0.now result.1 }
    {
        match source {
            Source::First(id) => self.first_part(id),
            Source::Second(id) => self.second_part(id),
            Source::Both { first, second } => self.joined_part(first, second),
        }
    }

    /// That of a node of the first tree.
    fn first_part(&self, id: NodeId) -> (&'t Block, Ending)
        requires { id.number < length self.now.first.tree.now }
        ensures { IsPart self.now.first.tree.now self.now.second.tree.now (First id) result.0.now result.1 }
    {
        self.first.tree.law_linked();
        let node = self.first.tree.node(id);
        (&node.block, first_ending(node.end))
    }

    /// That of a node of the second tree.
    fn second_part(&self, id: NodeId) -> (&'t Block, Ending)
        requires { id.number < length self.now.second.tree.now }
        ensures { IsPart self.now.first.tree.now self.now.second.tree.now (Second id) result.0.now result.1 }
    {
        self.second.tree.law_linked();
        let node = self.second.tree.node(id);
        (&node.block, second_ending(node.end))
    }

    /// That of a node of each: both sides joined where both are one split, and else that of the higher one.
    fn joined_part(&self, first: NodeId, second: NodeId) -> (&'t Block, Ending)
        requires first { first.number < length self.now.first.tree.now }
        requires second { second.number < length self.now.second.tree.now }
        ensures { IsPart self.now.first.tree.now self.now.second.tree.now (Both first second) result.0.now result.1 }
    {
        self.first.tree.law_linked();
        self.second.tree.law_linked();
        let node = self.first.tree.node(first);
        match one_split(node, self.second.tree.node(second)) {
            Some(ending) => (&node.block, ending),
            None => {
                if self.first.rank(first).gives_way(self.second.rank(second)) {
                    self.second_part(second)
                } else {
                    self.first_part(first)
                }
            }
        }
    }
}

/// How two nodes end that are one split: each side is joined.
fn one_split(node: &Node, other: &Node) -> Option<Ending>
    ensures { IsOneSplit node.now other.now result }
{
    match (node.end, other.end) {
        (
            End::Split {
                decision,
                first: first_here,
                second: second_here,
            },
            End::Split {
                decision: decided,
                first: first_there,
                second: second_there,
            },
        ) if same(&node.block, decision, &other.block, decided) => Some(Ending::Split {
            decision,
            first: Source::Both {
                first: first_here,
                second: first_there,
            },
            second: Source::Both {
                first: second_here,
                second: second_there,
            },
        }),
        _ => None,
    }
}

/// How a node of the first tree ends, that stands alone.
fn first_ending(end: End) -> Ending
    ensures is { (block : List Step) (one two : ℕ → trees.Tree) → with_children block end one ≡ with_sources block result (due_by one two) }
    ensures there { (n m : ℕ) → AreBelow n end → AreThere n m result }
{
    match end {
        End::Free => Ending::Free,
        End::Shut => Ending::Shut,
        End::Split {
            decision,
            first,
            second,
        } => Ending::Split {
            decision,
            first: Source::First(first),
            second: Source::First(second),
        },
    }
}

/// How a node of the second tree ends, that stands alone.
fn second_ending(end: End) -> Ending
    ensures is { (block : List Step) (one two : ℕ → trees.Tree) → with_children block end two ≡ with_sources block result (due_by one two) }
    ensures there { (n m : ℕ) → AreBelow m end → AreThere n m result }
{
    match end {
        End::Free => Ending::Free,
        End::Shut => Ending::Shut,
        End::Split {
            decision,
            first,
            second,
        } => Ending::Split {
            decision,
            first: Source::Second(first),
            second: Source::Second(second),
        },
    }
}
