//! The values of an assignment, as a text tells them.

ghost use Rattle.std.specs.Prelude.{◌≡◌, ℕ, ◌↔◌, List, [], ◌∷◌, ◌++◌, true, OnOk, IsTrue};
ghost use Rattle.cfn_model.specs.Network.{Fits, cost};
ghost use Rattle.cfn_check.specs.Assigning.{IsTold};

use cfn_net::{Fit, Network};
use std::alloc::{AllocError, Global};

/// The values that were told, as long as they may be those of an assignment.
#[derive(Drop)]
pub struct Assignment {
    pub values: Vec<u32>,
    pub possible: bool,
}

impl Assignment {
    /// Nothing was told. It takes no memory.
    pub fn new(alloc: Global) -> Assignment
        ensures possible { result.possible ≡ true }
        ensures values { result.values.items ≡ [] }
    {
        Assignment {
            values: Vec::new(alloc),
            possible: true,
        }
    }

    /// Takes the next value. An `Err` is want of memory.
    pub fn add(&mut self, network: &Network, value: u64) -> Result<(), AllocError>
        ensures { OnOk result ((all left : List ℕ) → IsTold network.now self.old all (value ∷ left)
            → IsTold network.now self.new all left) }
    {
        if !self.possible {
            return Ok(());
        }
        network.law_limits();
        let room = self.values.len() < network.variables() as usize;
        if room && value < 4096 {
            self.values.push(value as u32)?;
        } else {
            self.possible = false;
        }
        Ok(())
    }

    /// Whether the values that were told are an assignment of this cost.
    pub fn has_cost(&self, network: &Network, price: u64) -> bool
        ensures { (all : List ℕ) → IsTold network.now self.now all []
            → IsTrue result ↔ (Fits network.now.sizes all × (cost network.now all ≡ price)) }
    {
        if !self.possible {
            return false;
        }
        match network.fits(&self.values) {
            Fit::Fits => network.cost(&self.values).value() == price,
            _ => false,
        }
    }
}
