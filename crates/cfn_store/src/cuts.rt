//! Which tuples are cut: a flag for each tuple, so that no cut takes memory.

ghost use Rattle.std.specs.Prelude.{◌≡◌, ◌<◌, [], ◌∷◌, List, IfOk, vec_len, vec_capacity};
ghost use Rattle.cfn_model.specs.declared.step.Step.TheVariants.{CutTuple};
ghost use Rattle.cfn_model.specs.declared.step.Event.{Event};
ghost use Rattle.cfn_model.specs.declared.step.Event.TheVariants.{Did};
ghost use Rattle.cfn_model.specs.Network.{Network as CostNetwork};
ghost use Rattle.cfn_model.specs.Steps.{IsCell};
ghost use Rattle.cfn_store.specs.Cutting.{IsCuts, HasFlags, flag_at};

use cfn_net::Network;
use cfn_rows::Rows;
use std::alloc::{AllocError, Global};

#[derive(Drop)]
pub(crate) struct Cuts {
    /// A row for each function.
    pub(crate) flags: Rows<bool>,
    /// For each cut of a tuple along the path, whether the tuple was not cut before.
    pub(crate) fresh: Vec<bool>,
}

impl Cuts {
    /// No tuple is cut. An `Err` is want of memory.
    pub(crate) fn at_root(alloc: Global, network: &Network) -> Result<Cuts, AllocError>
        ensures { IfOk result (IsCuts network.now []) }
    {
        let mut cells = Vec::with_capacity(alloc, network.functions() as usize)?;
        for f in 0..network.functions() {
            cells.push(network.cells(f))?;
        }
        Ok(Cuts {
            flags: Rows::filled(alloc, &cells, false)?,
            fresh: Vec::new(alloc),
        })
    }

    /// Cuts a tuple.
    pub(crate) fn cut(&mut self, f: u32, cell: u32)
        requires room { vec_len self.old.fresh < vec_capacity self.old.fresh }
        requires cell { (P : CostNetwork) × IsCell P f cell × HasFlags P self.old }
        ensures cuts { (P : CostNetwork) (history : List Event) → IsCell P f cell → IsCuts P history self.old
            → IsCuts P (Did (CutTuple f cell) ∷ history) self.new }
        ensures capacity { vec_capacity self.new.fresh ≡ vec_capacity self.old.fresh }
    {
        let is_fresh = !self.flags.row(f as usize)[cell as usize];
        self.fresh.push_reserved(is_fresh);
        self.flags.set(f as usize, cell as usize, true);
    }

    /// Undoes the newest cut.
    pub(crate) fn undo(&mut self, f: u32, cell: u32)
        requires cell { (P : CostNetwork) × IsCell P f cell × HasFlags P self.old }
        ensures cuts { (P : CostNetwork) (history : List Event) → IsCell P f cell → IsCuts P (Did (CutTuple f cell) ∷ history) self.old
            → IsCuts P history self.new }
        ensures capacity { vec_capacity self.new.fresh ≡ vec_capacity self.old.fresh }
    {
        if let Some(true) = self.fresh.pop() {
            self.flags.set(f as usize, cell as usize, false);
        }
    }
}
