//! One leaf is expanded: it is closed, or split in two.

ghost use Rattle.std.specs.Prelude.{◌≡◌, true, false, ◌+◌, ◌*◌, ◌<◌, ◌≤◌, ◌^◌, [], ◌∷◌, length, Some, IfOk, IfSome, OnOk};
ghost use Rattle.cfn_model.specs.Sums.{floor};
ghost use Rattle.cfn_model.specs.Tree.{CanClose};
ghost use Rattle.cfn_store.specs.Standing.{history};
ghost use Rattle.cfn_store.specs.Marking.{IsBehind};
ghost use Rattle.cfn_trim.specs.Trimming.{IsBegin};
ghost use Rattle.cfn_branch.specs.Choosing.{AllDecided, IsSplit};
ghost use Rattle.cfn_branch.specs.Weighing.{Blames};
ghost use Rattle.cfn_edac.specs.Settling.{IsBehindSettled};
ghost use Rattle.cfn_dive.specs.Limit.{step_limit};
ghost use Rattle.cfn_dive.specs.Enforcing.{Finds, IsSpent};
ghost use Rattle.cfn_low.specs.Holding.{price_of};
ghost use Rattle.cfn_explore.specs.Falling.{HasFallen};
ghost use Rattle.cfn_proof.specs.Nodes.{node_at, split_end};
ghost use Rattle.cfn_proof.specs.declared.tree.End.TheVariants.{Shut};
ghost use Rattle.cfn_dive.specs.Blaming.{IsWeighed};
ghost use Rattle.cfn_dive.specs.Deciding.{IsSplitByRule};
ghost use Rattle.cfn_dive.specs.Growing.{InGroups};
ghost use Rattle.cfn_dive.specs.Diving.{IsOf, IsWaiting, IsDiving, IsExpanding, IsExpanded, IsClosing, IsSettledOrSpent, IsSameDive, place_of};

use crate::growth::{Growth, Leaf};
use crate::parts::{Parts, Waiting};
use crate::propagation::{Asked, since};
use crate::root::{Around, enforce};
use crate::values::take_values;
use cfn_explore::Halt;
use cfn_gain::Settling;
use cfn_low::{Holder, Incumbent, Low};
use cfn_model::{Decision, Event};
use cfn_net::Network;
use cfn_proof::{Block, NodeId};
use cfn_store::Mark;
use cfn_trim::{law_block_stays_tame, shut};
use std::alloc::{AllocError, Global};

impl<'n> Parts<'n> {
    /// Reads the word, and expands the current leaf: it is closed or split, and counted. At a leaf whose floor is below the threshold it enforces
    /// first, at the root only until `halt` is past. An `Err` is want of memory, after which the tree says nothing.
    pub fn expand<M: Incumbent, H: Halt>(
        &mut self,
        alloc: Global,
        network: &Network,
        growth: &mut Growth,
        leaf: Leaf,
        low: &Low<M>,
        holder: &mut Holder<M>,
        halt: &H,
    ) -> Result<(), AllocError>
        requires network { network.now ≡ self.old.store.network }
        requires word { M.network ≡ self.old.store.network }
        requires diving { IsDiving self.old.store.network self.old growth.old }
        requires current { growth.old.current ≡ Some leaf }
        requires threshold { growth.old.threshold ≡ holder.old.seen }
        requires left { 1 ≤ growth.old.left }
        requires few { growth.old.nodes + 1 < 2 ^ 64 }
        ensures falls { HasFallen M.network holder.old holder.new }
        ensures looked { growth.new.threshold ≤ price_of M.network holder.old }
        ensures named { OnOk result (IsSplitByRule self.old.rule self.old.store.network self.old.weights holder.old.held self.old.store.base (node_at growth.new.tree leaf.id.number)) }
        ensures weighed { OnOk result (IsWeighed self.old.store.network self.old.store.base growth.new.threshold (price_of M.network holder.old) self.old.weights self.new.weights) }
        ensures expanded { OnOk result (IsExpanded self.old.store.network growth.old growth.new self.new) }
        ensures threshold { growth.new.threshold ≡ holder.new.seen }
        ensures dive { IsSameDive growth.old growth.new }
        ensures of { IsOf self.old.store.network self.new }
    {
        growth.threshold = low.look(holder);
        holder.law_kept();
        if leaf.floor >= u128::from(growth.threshold) {
            law_block_stays_tame(&self.store);
            self.close(growth, leaf.id, Block::new(alloc));
            return Ok(());
        }
        let mark = self.store.mark();
        let settled = match self.enforce(alloc, network, growth, leaf, halt)? {
            Settling::Dead => return self.close_dead(alloc, growth, leaf.id, &mark),
            Settling::Settled => true,
            Settling::Spent => false,
        };
        match self.decide(holder.best()) {
            Some(decision) => self.divide(alloc, growth, leaf.id, decision, settled),
            None => self.conclude(alloc, network, growth, leaf.id, low, holder),
        }
    }

    /// Enforces where the store stands, at the current leaf, with room for what closes a leaf. An `Err` is want of memory.
    fn enforce<H: Halt>(
        &mut self,
        alloc: Global,
        network: &Network,
        growth: &Growth,
        leaf: Leaf,
        halt: &H,
    ) -> Result<Settling, AllocError>
        requires network { network.now ≡ self.old.store.network }
        requires diving { IsDiving self.old.store.network self.old growth.now }
        requires current { growth.now.current ≡ Some leaf }
        requires threshold { growth.now.threshold ≤ network.now.upper }
        requires left { 1 ≤ growth.now.left }
        requires few { growth.now.nodes + 1 < 2 ^ 64 }
        ensures expanding { OnOk result (IsExpanding self.old.store.network self.new growth.now leaf.id) }
        ensures finds { IfOk result (Finds self.new.store.network (history self.new.store) growth.now.threshold) }
        ensures groups { OnOk result (InGroups self.new.store.network self.new.store.base self.new.store.block) }
        ensures spent { IfOk result (IsSpent (step_limit network.now) self.new.store) }
        ensures room { OnOk result (length network.now.sizes + 2 * length network.now.functions + 1 ≤ self.new.store.spare) }
        ensures begins { IsBegin self.old.store self.new.store }
        ensures rule { self.new.rule ≡ self.old.rule }
        ensures weights { self.new.weights ≡ self.old.weights }
        ensures of { IsOf self.old.store.network self.new }
    {
        network.law_limits();
        let asked = Asked {
            threshold: growth.threshold,
            steps: self.steps,
            since: leaf.since,
        };
        let around = Around {
            more: network.variables() as usize + 2 * network.functions() as usize + 1,
            is_root: leaf.is_root,
        };
        enforce(
            alloc,
            &mut self.enforcer,
            &mut self.store,
            &self.incidence,
            asked,
            around,
            halt,
        )
    }

    /// Blames the function that projected last at a dead leaf, where one did, and closes the leaf by those steps of the store's
    /// block that its closing needs. An `Err` is want of memory.
    fn close_dead(
        &mut self,
        alloc: Global,
        growth: &mut Growth,
        leaf: NodeId,
        mark: &Mark<'n>,
    ) -> Result<(), AllocError>
        requires begins { IsBegin mark.now self.old.store }
        requires expanding { IsExpanding self.old.store.network self.old growth.old leaf }
        requires closes { CanClose self.old.store.network (history self.old.store) growth.old.threshold }
        ensures blames { Blames self.old.store.block self.old.weights self.new.weights }
        ensures shut { OnOk result ((node_at growth.new.tree leaf.number).end ≡ Shut) }
        ensures expanded { OnOk result (IsExpanded self.old.store.network growth.old growth.new self.new) }
        ensures threshold { growth.new.threshold ≡ growth.old.threshold }
        ensures dive { IsSameDive growth.old growth.new }
        ensures of { IsOf self.old.store.network self.new }
    {
        self.weights.blame_newest(&self.store);
        let block = self
            .trimmer
            .closing_block(alloc, &mut self.store, mark, growth.threshold)?;
        self.close(growth, leaf, block);
        Ok(())
    }

    /// Splits a leaf behind the store's block, by a decision that leaves a live value on each side. The first child is current
    /// then, and the second waits. An `Err` is want of memory.
    fn divide(
        &mut self,
        alloc: Global,
        growth: &mut Growth,
        leaf: NodeId,
        decision: Decision,
        settled: bool,
    ) -> Result<(), AllocError>
        requires expanding { IsExpanding self.old.store.network self.old growth.old leaf }
        requires splits { IsSplit self.old.store decision }
        requires settled { IsSettledOrSpent settled self.old.store growth.old.threshold }
        requires groups { InGroups self.old.store.network self.old.store.base self.old.store.block }
        requires threshold { growth.old.threshold ≤ self.old.store.network.upper }
        requires room { 0 < self.old.store.spare }
        ensures split { OnOk result (node_at growth.new.tree leaf.number ≡ record (node_at growth.old.tree leaf.number) { block = self.old.store.block; end = split_end decision (length growth.old.tree) }) }
        ensures expanded { OnOk result (IsExpanded self.old.store.network growth.old growth.new self.new) }
        ensures threshold { growth.new.threshold ≡ growth.old.threshold }
        ensures weights { self.new.weights ≡ self.old.weights }
        ensures dive { IsSameDive growth.old growth.new }
        ensures of { IsOf self.old.store.network self.new }
    {
        self.waiting.reserve(1)?;
        let block = self.store.block(alloc)?;
        growth.tree.law_linked();
        let (first, second) = growth.tree.split_behind(leaf, block, decision)?;
        growth.tree.law_linked();
        growth.nodes += 1;
        law_block_stays_tame(&self.store);
        let floor = self.store.floor();
        self.waiting.push_reserved(Waiting {
            leaf: second,
            mark: self.store.mark(),
            decision,
            floor,
            settled,
        });
        self.store.take(decision);
        growth.current = Some(Leaf {
            id: first,
            floor,
            since: since(settled, Event::Took(decision)),
            is_root: false,
        });
        Ok(())
    }

    /// Offers the one assignment that is left at a leaf, lowers the word to its price, and closes the leaf. An `Err` is want of
    /// memory.
    fn conclude<M: Incumbent>(
        &mut self,
        alloc: Global,
        network: &Network,
        growth: &mut Growth,
        leaf: NodeId,
        low: &Low<M>,
        holder: &mut Holder<M>,
    ) -> Result<(), AllocError>
        requires network { network.now ≡ self.old.store.network }
        requires word { M.network ≡ self.old.store.network }
        requires expanding { IsExpanding self.old.store.network self.old growth.old leaf }
        requires decided { AllDecided self.old.store }
        requires alive { CanClose self.old.store.network (history self.old.store) growth.old.threshold → ⊥ }
        requires threshold { growth.old.threshold ≡ holder.old.seen }
        requires room { length network.now.sizes + 2 * length network.now.functions ≤ self.old.store.spare }
        ensures falls { HasFallen M.network holder.old holder.new }
        ensures shut { OnOk result ((node_at growth.new.tree leaf.number).end ≡ Shut) }
        ensures expanded { OnOk result (IsExpanded self.old.store.network growth.old growth.new self.new) }
        ensures threshold { growth.new.threshold ≡ holder.new.seen }
        ensures weights { self.new.weights ≡ self.old.weights }
        ensures dive { IsSameDive growth.old growth.new }
        ensures of { IsOf self.old.store.network self.new }
    {
        take_values(&self.store, &mut self.values);
        self.offer.fill(network, &self.values);
        growth.threshold = low.lower(holder, &self.offer);
        holder.law_kept();
        shut(&mut self.store, growth.threshold);
        self.close_here(alloc, growth, leaf)
    }

    /// Closes a leaf behind the store's block. An `Err` is want of memory.
    fn close_here(
        &mut self,
        alloc: Global,
        growth: &mut Growth,
        leaf: NodeId,
    ) -> Result<(), AllocError>
        requires expanding { IsExpanding self.old.store.network self.old growth.old leaf }
        requires closes { CanClose self.old.store.network (history self.old.store) growth.old.threshold }
        ensures shut { OnOk result ((node_at growth.new.tree leaf.number).end ≡ Shut) }
        ensures expanded { OnOk result (IsExpanded self.old.store.network growth.old growth.new self.new) }
        ensures threshold { growth.new.threshold ≡ growth.old.threshold }
        ensures weights { self.new.weights ≡ self.old.weights }
        ensures dive { IsSameDive growth.old growth.new }
        ensures of { IsOf self.old.store.network self.new }
    {
        law_block_stays_tame(&self.store);
        let block = self.store.block(alloc)?;
        self.close(growth, leaf, block);
        Ok(())
    }

    /// Closes a leaf behind a block, counts it, and goes back to the newest leaf that waits, where there is one: that is a
    /// backtrack. It takes no memory.
    fn close(&mut self, growth: &mut Growth, leaf: NodeId, block: Block)
        requires closing { IsClosing self.old.store.network self.old growth.old leaf block }
        ensures shut { (node_at growth.new.tree leaf.number).end ≡ Shut }
        ensures expanded { IsExpanded self.old.store.network growth.old growth.new self.new }
        ensures threshold { growth.new.threshold ≡ growth.old.threshold }
        ensures weights { self.new.weights ≡ self.old.weights }
        ensures dive { IsSameDive growth.old growth.new }
    {
        growth.tree.law_linked();
        growth.tree.close(leaf, block);
        growth.tree.law_linked();
        growth.nodes += 1;
        match self.waiting.pop() {
            None => growth.current = None,
            Some(newest) => {
                growth.current = Some(self.go_back(newest));
                growth.left -= 1;
            }
        }
    }

    /// Goes back to the mark of a leaf that waited, and stands at the leaf. It takes no memory.
    fn go_back(&mut self, waiting: Waiting<'n>) -> Leaf
        requires behind { IsBehind waiting.mark self.old.store }
        requires longer { length (history waiting.mark) < length (history self.old.store) }
        requires waits { IsWaiting self.old.store.network waiting }
        ensures same { self.new ≡ record self.old { store = self.new.store } }
        ensures base { self.new.store.base ≡ (place_of waiting.entry).path }
        ensures block { self.new.store.block ≡ [] }
        ensures network { self.new.store.network ≡ self.old.store.network }
        ensures leaf { result.id ≡ waiting.entry.leaf }
        ensures floor { result.floor ≡ floor self.new.store.network self.new.store.base }
        ensures since { IfSome result.since (IsBehindSettled self.new.store) }
        ensures below { result.is_root ≡ false }
    {
        self.store.undo(&waiting.mark);
        self.store.refuse(waiting.decision);
        Leaf {
            id: waiting.leaf,
            floor: waiting.floor,
            since: since(waiting.settled, Event::Refused(waiting.decision)),
            is_root: false,
        }
    }
}
