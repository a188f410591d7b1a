//! A leaf that was expanded is split, or closed.

ghost use Rattle.std.specs.Prelude.{◌≡◌, ◌+◌, ◌<◌, ◌≤◌, ◌^◌, List, [], ◌∷◌, ◌++◌, length, vec_len, vec_capacity, IfOk, OnOk, OnErr};
ghost use Rattle.cfn_model.specs.declared.step.Event.{Event};
ghost use Rattle.cfn_proof.specs.Nodes.{Before};
ghost use Rattle.cfn_ranking.specs.Ranked.{IsRanked, Waits};
ghost use Rattle.cfn_ranking.specs.Changes.{CanDivide, MayClose, closed, divided};

use crate::ranking::{Ranking, listing};
use cfn_model::Decision;
use cfn_net::Network;
use cfn_proof::{Block, NodeId};
use std::alloc::AllocError;

impl Ranking {
    /// Splits a leaf that waits behind a block, where the floor is this, and answers its first child. Both children wait. An
    /// `Err`, want of memory, leaves all as it was.
    pub fn divide(
        &mut self,
        network: &Network,
        leaf: NodeId,
        block: Block,
        decision: Decision,
        low: u128,
    ) -> Result<NodeId, AllocError>
        requires ranked { IsRanked network.now self.old }
        requires waits { Waits self.old leaf.number }
        requires few { self.old.spent + 1 < 2 ^ 64 }
        requires can { (history : List Event) → Before self.old.nodes leaf.number history → CanDivide network.now history self.old.threshold block decision low }
        ensures ranked { IsRanked network.now self.new }
        ensures ok { OnOk result (self.new ≡ divided self.old leaf.number block decision low) }
        ensures err { OnErr result (self.new ≡ self.old) }
        ensures first { IfOk result (λ first. first.number ≡ length self.old.nodes) }
    {
        let first = self.split(leaf, block, decision, low)?;
        self.law_linked();
        Ok(first)
    }

    /// The same, whatever the ranking keeps.
    fn split(
        &mut self,
        leaf: NodeId,
        block: Block,
        decision: Decision,
        low: u128,
    ) -> Result<NodeId, AllocError>
        requires waits { Waits self.old leaf.number }
        requires few { self.old.spent + 1 < 2 ^ 64 }
        ensures ok { OnOk result (self.new ≡ divided self.old leaf.number block decision low) }
        ensures err { OnErr result (self.new ≡ self.old) }
        ensures first { IfOk result (λ first. first.number ≡ length self.old.nodes) }
    {
        self.floors.reserve(2)?;
        self.numbers.reserve(2)?;
        self.open.reserve(2)?;
        let (first, second) = self.tree.split_behind(leaf, block, decision)?;
        self.open.insert(listing(first, low));
        self.open.insert(listing(second, low));
        push_twice(&mut self.floors, low, low);
        push_twice(&mut self.numbers, None, None);
        self.spent += 1;
        Ok(first)
    }

    /// Closes a leaf that waits behind a block. It takes no memory.
    pub fn close(&mut self, network: &Network, leaf: NodeId, block: Block)
        requires ranked { IsRanked network.now self.old }
        requires waits { Waits self.old leaf.number }
        requires few { self.old.spent + 1 < 2 ^ 64 }
        requires may { (history : List Event) → Before self.old.nodes leaf.number history → MayClose network.now history self.old.threshold block }
        ensures ranked { IsRanked network.now self.new }
        ensures is { self.new ≡ closed self.old leaf.number block }
    {
        self.shut(leaf, block);
        self.law_linked();
    }

    /// The same, whatever the ranking keeps.
    fn shut(&mut self, leaf: NodeId, block: Block)
        requires waits { Waits self.old leaf.number }
        requires few { self.old.spent + 1 < 2 ^ 64 }
        ensures { self.new ≡ closed self.old leaf.number block }
    {
        self.tree.close(leaf, block);
        self.spent += 1;
    }
}

/// Puts two values behind all others, where there is room.
fn push_twice<T>(values: &mut Vec<T>, first: T, second: T)
    requires { vec_len values.old + 2 ≤ vec_capacity values.old }
    ensures { values.new.items ≡ values.old.items ++ first ∷ second ∷ [] }
{
    values.push_reserved(first);
    values.push_reserved(second);
}
