//! Trims the block of a dead leaf.

ghost use Rattle.std.specs.Prelude.{◌≡◌, ◌<◌, ◌≤◌, length, IfOk, IfSome};
ghost use Rattle.cfn_model.specs.Paths.{TameBlock};
ghost use Rattle.cfn_model.specs.Steps.{Run, after};
ghost use Rattle.cfn_model.specs.Tree.{CanClose};
ghost use Rattle.cfn_store.specs.Standing.{history};
ghost use Rattle.cfn_store.specs.Marking.{back_at};
ghost use Rattle.cfn_trim.specs.Making.{AreInRange};
ghost use Rattle.cfn_trim.specs.Trimming.{IsBegin, AreSome, IsBeside};

use crate::end::{closes, emptied};
use crate::needs::Needs;
use crate::run::run;
use crate::smallness::law_block_stays_tame;
use cfn_net::Network;
use cfn_proof::Block;
use cfn_store::{Mark, Store};
use std::alloc::{AllocError, Global};
use std::marker::Model;

/// A block with fewer steps is not trimmed.
const FEWEST_STEPS: usize = 4;

/// Room to trim the blocks of closed leaves. Contracts see the network.
#[derive(Drop)]
pub struct Trimmer<'n> {
    needs: Needs<'n>,
    /// Which steps are chosen, the newest first.
    chosen: Vec<bool>,
}

impl<'n> Model for Trimmer<'n> {
    ghost use Rattle.cfn_model.specs.Network.{Network as CostNetwork};

    ghost Value = { CostNetwork };

    ghost view = { λ s. s.needs };
}

impl<'n> Trimmer<'n> {
    /// For stores of a network. An `Err` is want of memory.
    pub fn make(alloc: Global, network: &'n Network) -> Result<Trimmer<'n>, AllocError>
        ensures { IfOk result (λ trimmer. trimmer ≡ network.now) }
    {
        Ok(Trimmer {
            needs: Needs::make(alloc, network)?,
            chosen: Vec::new(alloc),
        })
    }

    /// The block behind which a leaf is closed that is dead where its store stands: of the steps of the store's block those that the
    /// closing needs, where they run and close alone, and else all. Costs stay below 2^64 along it. The store goes back to the mark, where its block began, after an
    /// `Err` too, which is want of memory.
    pub fn closing_block(
        &mut self,
        alloc: Global,
        store: &mut Store<'n>,
        mark: &Mark<'n>,
        threshold: u64,
    ) -> Result<Block, AllocError>
        requires network { store.old.network ≡ self.old }
        requires begins { IsBegin mark.now store.old }
        requires runs { Run self.old store.old.base store.old.block threshold }
        requires closes { CanClose self.old (history store.old) threshold }
        ensures runs { IfOk result (λ block. Run self.old store.old.base block threshold) }
        ensures closes { IfOk result (λ block. CanClose self.old (after block store.old.base) threshold) }
        ensures tame { IfOk result (TameBlock self.old store.old.base) }
        ensures some { IfOk result (λ block. AreSome block store.old.block) }
        ensures no_longer { IfOk result (λ block. length block ≤ length store.old.block) }
        ensures store { store.new ≡ back_at mark.now store.old }
        ensures same { self.new ≡ self.old }
    {
        let result = self.trim(alloc, store, mark, threshold);
        store.undo(mark);
        result
    }

    /// The same, with the store anywhere behind the mark then.
    fn trim(
        &mut self,
        alloc: Global,
        store: &mut Store<'n>,
        begin: &Mark<'n>,
        threshold: u64,
    ) -> Result<Block, AllocError>
        requires network { store.old.network ≡ self.old }
        requires begins { IsBegin begin.now store.old }
        requires runs { Run self.old store.old.base store.old.block threshold }
        requires closes { CanClose self.old (history store.old) threshold }
        ensures runs { IfOk result (λ block. Run self.old store.old.base block threshold) }
        ensures closes { IfOk result (λ block. CanClose self.old (after block store.old.base) threshold) }
        ensures tame { IfOk result (TameBlock self.old store.old.base) }
        ensures some { IfOk result (λ block. AreSome block store.old.block) }
        ensures beside { IsBeside store.old store.new }
        ensures same { self.new ≡ self.old }
    {
        law_block_stays_tame(store);
        let whole = store.block(alloc)?;
        if store.block_len() < FEWEST_STEPS {
            return Ok(whole);
        }
        let empty = emptied(store, threshold);
        if !self.choose(store, threshold, empty)? {
            return Ok(whole);
        }
        store.undo(begin);
        if !run(store, &whole, &mut self.chosen, threshold) || !closes(store, threshold, empty) {
            return Ok(whole);
        }
        law_block_stays_tame(store);
        store.block(alloc)
    }

    /// Chooses the steps of the store's block that its end needs, and answers whether it leaves some out. An `Err` is want of
    /// memory.
    fn choose(
        &mut self,
        store: &Store<'n>,
        threshold: u64,
        empty: Option<u32>,
    ) -> Result<bool, AllocError>
        requires network { store.now.network ≡ self.old }
        requires range { AreInRange self.old store.now.block }
        requires variable { IfSome empty (λ x. x < length self.old.sizes) }
        ensures { self.new ≡ self.old }
    {
        self.needs.begin(store, threshold, empty);
        self.chosen.clear();
        self.chosen.reserve(store.block_len())?;
        let mut leaves_out = false;
        let mut left = store.block_len();
        while left > 0 {
            left -= 1;
            let needed = self.needs.judge(store, store.step(left));
            self.chosen.push(needed)?;
            leaves_out = leaves_out || !needed;
        }
        Ok(leaves_out)
    }
}
