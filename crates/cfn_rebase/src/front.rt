//! The front of a block that is kept: its steps up to the first that may not be made.

ghost use Rattle.std.specs.Prelude.{◌≡◌, true, [], IfOk, OnOk};
ghost use Rattle.cfn_rebase.specs.Fronts.{IsCutFront};

use crate::ground::Ground;
use cfn_proof::Block;
use std::alloc::{AllocError, Global};

impl<'n> Ground<'n> {
    /// Makes the steps of a block up to the first that is not allowed at the threshold, or leaves a cost of 2^64 or more; whether
    /// all are made. An `Err` is want of memory.
    pub(crate) fn front(&mut self, threshold: u64, block: &Block) -> Result<bool, AllocError>
        requires { self.old.block ≡ [] }
        ensures network { OnOk result (self.new.network ≡ self.old.network) }
        ensures base { OnOk result (self.new.base ≡ self.old.base) }
        ensures front { IfOk result (IsCutFront self.old.network self.old.base threshold block.now self.new.block) }
    {
        for step in block.cursor() {
            let made = self.step(threshold, step)?;
            if !made {
                self.law_stays_tame();
                return Ok(false);
            }
        }
        self.law_stays_tame();
        Ok(true)
    }

    /// The front that was made of a block, as a block. An `Err` is want of memory. No step is copied where all of a shared block
    /// is kept.
    pub(crate) fn kept_block(
        &self,
        alloc: Global,
        whole: bool,
        block: &Block,
    ) -> Result<Block, AllocError>
        requires { whole ≡ true → block.now ≡ self.now.block }
        ensures { IfOk result (λ kept. kept ≡ self.now.block) }
    {
        if whole {
            block.copy(alloc)
        } else {
            self.store().block(alloc)
        }
    }
}
