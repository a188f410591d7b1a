//! A leaf that was expanded is that of one assignment, which goes into the list.

ghost use Rattle.std.specs.Prelude.{◌≡◌, ◌↔◌, ◌+◌, ◌<◌, ◌≤◌, ◌^◌, List, length, vec_len, vec_capacity, IsTrue, OnOk, OnErr};
ghost use Rattle.std.specs.List.{insert};
ghost use Rattle.cfn_model.specs.declared.step.Event.{Event};
ghost use Rattle.cfn_proof.specs.Nodes.{Before, IsFree};
ghost use Rattle.cfn_best.specs.List.{threshold_of};
ghost use Rattle.cfn_ranking.specs.Ranked.{IsRanked, Waits};
ghost use Rattle.cfn_ranking.specs.Changes.{CanStay, Drops, Exchanges, KeepsPaths, Leaves, MakesRoom};

use crate::Listed;
use crate::place::place_of;
use crate::ranking::{Ranking, is_free};
use cfn_net::Network;
use cfn_proof::{Block, NodeId, Tree};
use std::alloc::{AllocError, Global};

impl Ranking {
    /// Puts the one assignment that is left behind a block at a leaf that waits into the list, where it costs less than the
    /// threshold. The last one leaves a list that is full, and its leaf is closed. An `Err` is want of memory, and leaves all as
    /// it was; an assignment that is in the list already counts as that.
    pub fn enter(
        &mut self,
        alloc: Global,
        network: &Network,
        leaf: NodeId,
        block: Block,
        cost: u64,
        values: &[u32],
    ) -> Result<(), AllocError>
        requires ranked { IsRanked network.now self.old }
        requires waits { Waits self.old leaf.number }
        requires few { self.old.spent + 1 < 2 ^ 64 }
        requires leaves { (history : List Event) → Before self.old.nodes leaf.number history → Leaves network.now history self.old.threshold block (record { cost = cost; values = values.now }) }
        ensures ranked { IsRanked network.now self.new }
        ensures spent { OnOk result (self.new.spent ≡ self.old.spent + 1) }
        ensures count { self.new.count ≡ self.old.count }
        ensures paths { OnOk result (KeepsPaths self.old.nodes self.new.nodes) }
        ensures err { OnErr result (self.new ≡ self.old) }
    {
        network.law_limits();
        let Some(place) = place_of(&self.list, cost, values) else {
            return Err(AllocError);
        };
        let values = Vec::from_slice(alloc, values)?;
        self.exchange(leaf, block, place, Listed { cost, values })?;
        self.law_linked();
        self.threshold = self.price(network.ub());
        Ok(())
    }

    /// Puts an assignment into the list, from which the last one goes where it is full, and leaves its leaf open behind a block.
    /// The threshold stays. An `Err`, want of memory, leaves all as it was.
    fn exchange(
        &mut self,
        leaf: NodeId,
        block: Block,
        place: usize,
        listed: Listed,
    ) -> Result<(), AllocError>
        requires long { length self.old.list ≡ length self.old.leaves }
        requires waits { Waits self.old leaf.number }
        requires stays { CanStay self.old leaf.number }
        requires few { self.old.spent + 1 < 2 ^ 64 }
        ensures ok { OnOk result (Exchanges self.old leaf block place listed self.new) }
        ensures err { OnErr result (self.new ≡ self.old) }
    {
        self.list.reserve(1)?;
        self.leaves.reserve(1)?;
        make_room(&mut self.tree, &mut self.list, &mut self.leaves, self.count)?;
        self.tree.law_linked();
        let place = place.min(self.list.len());
        self.tree.leave(leaf, block);
        self.numbers[leaf.number as usize] = Some(0);
        put_at(&mut self.list, place, listed);
        put_at(&mut self.leaves, place, leaf);
        self.spent += 1;
        Ok(())
    }

    /// The threshold of the list, where the network has this upper bound.
    fn price(&self, upper: u64) -> u64
        ensures { result ≡ threshold_of upper self.now.count self.now.list }
    {
        if self.list.len() != self.count {
            return upper;
        }
        match self.list.last() {
            Some(last) => last.cost,
            None => upper,
        }
    }
}

/// Takes the last assignment out of a list that has as many as are asked for. An `Err`, where its leaf is closed, leaves all as
/// it was.
fn make_room(
    tree: &mut Tree,
    list: &mut Vec<Listed>,
    leaves: &mut Vec<NodeId>,
    count: usize,
) -> Result<(), AllocError>
    requires { length list.old.items ≡ length leaves.old.items }
    ensures ok { OnOk result (MakesRoom count tree.old list.old.items leaves.old.items tree.new list.new.items leaves.new.items) }
    ensures list { vec_capacity list.new ≡ vec_capacity list.old }
    ensures leaves { vec_capacity leaves.new ≡ vec_capacity leaves.old }
    ensures err_tree { OnErr result (tree.new ≡ tree.old) }
    ensures err_list { OnErr result (list.new.items ≡ list.old.items) }
    ensures err_leaves { OnErr result (leaves.new.items ≡ leaves.old.items) }
{
    if list.len() != count {
        return Ok(());
    }
    drop_last(tree, list, leaves)
}

/// Takes the last assignment out of a list, and closes its leaf. An `Err`, where there is none or its leaf is closed, leaves all
/// as it was.
fn drop_last(
    tree: &mut Tree,
    list: &mut Vec<Listed>,
    leaves: &mut Vec<NodeId>,
) -> Result<(), AllocError>
    requires { length list.old.items ≡ length leaves.old.items }
    ensures ok { OnOk result (Drops tree.old list.old.items leaves.old.items tree.new list.new.items leaves.new.items) }
    ensures list { vec_capacity list.new ≡ vec_capacity list.old }
    ensures leaves { vec_capacity leaves.new ≡ vec_capacity leaves.old }
    ensures err_tree { OnErr result (tree.new ≡ tree.old) }
    ensures err_list { OnErr result (list.new.items ≡ list.old.items) }
    ensures err_leaves { OnErr result (leaves.new.items ≡ leaves.old.items) }
{
    let Some(leaf) = leaves.pop() else {
        return Err(AllocError);
    };
    if !is_open(tree, leaf) {
        leaves.push_reserved(leaf);
        return Err(AllocError);
    }
    let Some(_last) = list.pop() else {
        leaves.push_reserved(leaf);
        return Err(AllocError);
    };
    tree.shut(leaf);
    Ok(())
}

/// Whether a node is there and is an open leaf.
fn is_open(tree: &Tree, leaf: NodeId) -> bool
    ensures { IsTrue result ↔ ((leaf.number < length tree.now) × IsFree tree.now leaf.number) }
{
    (leaf.number as usize) < tree.len() && is_free(tree.node(leaf).end)
}

/// Puts a value at a place of a list, where there is room.
fn put_at<T: Drop>(list: &mut Vec<T>, place: usize, value: T)
    requires within { place ≤ vec_len list.old }
    requires room { vec_len list.old < vec_capacity list.old }
    ensures { list.new.items ≡ insert list.old.items place value }
{
    let _ = list.insert(place, value);
}
