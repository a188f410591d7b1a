//! The scope that is being read.
//!
//! Each variable carries a stamp, the number of the last scope that it was in. So whether a scope
//! repeats a variable is one comparison, also where a scope has very many variables, and no stamp is
//! ever cleared.

ghost use Rattle.std.specs.Prelude.{◌≡◌, ◌+◌, ◌<◌, ◌^◌, [], ◌∷◌, ◌++◌, pos, None, Some, IfOk, IfErr, OnOk, OnErr};
ghost use Rattle.cfn_model.specs.Network.{cells};
ghost use Rattle.cfn_net.specs.Building.{IsScope, AreSizes};

use cfn_model::{Kind, MOST_TUPLES};
use std::alloc::{AllocError, Global};
use std::marker::Model;

/// A scope over the variables of a network, and which scope of the file it is.
#[derive(Drop)]
pub(crate) struct Scope<'a> {
    sizes: &'a [u32],
    stamps: Vec<u32>,
    number: u32,
    variables: Vec<u32>,
    cells: u32,
}

impl<'a> Model for Scope<'a> {
    ghost use Rattle.cfn_wcsp.specs.Scopes.{Partial, Keeps};

    ghost Value = { Partial };

    ghost view = { λ s. record { sizes = s.sizes.now; variables = s.variables.items; number = s.number } };

    ghost invariant = { λ s. Keeps s.sizes.now s.stamps.items s.number s.variables.items s.cells };
}

impl<'a> Scope<'a> {
    ghost use Rattle.cfn_wcsp.specs.Scopes.{scope_dims, check_next};

    /// An empty scope over variables with these domain sizes.
    pub(crate) fn new(alloc: Global, sizes: &'a [u32]) -> Result<Scope<'a>, AllocError>
        requires { AreSizes sizes.now }
        ensures { IfOk result (λ s. s ≡ record { sizes = sizes.now; variables = []; number = 1 }) }
    {
        Ok(Scope {
            sizes,
            stamps: vec![in alloc; 0; sizes.len()]?,
            number: 1,
            variables: Vec::new(alloc),
            cells: 1,
        })
    }

    /// Begins the next scope.
    pub(crate) fn clear(&mut self)
        requires { self.old.number + 1 < 2 ^ 32 }
        ensures { self.new ≡ record self.old { variables = []; number = self.old.number + 1 } }
    {
        self.variables.clear();
        self.number += 1;
        self.cells = 1;
    }

    /// The variable that a number is, where it can be the scope's next one, or else the first check
    /// that it fails.
    pub(crate) fn check(&self, number: i64) -> Result<u32, Kind>
        ensures passed { IfOk result (λ x. check_next self.now number ≡ None) }
        ensures value { IfOk result (λ x. number ≡ pos x) }
        ensures failed { IfErr result (λ kind. check_next self.now number ≡ Some kind) }
    {
        if number < 0 || number.unsigned_abs() >= self.sizes.len() as u64 {
            return Err(Kind::VariableOutOfRange);
        }
        let x = number as usize;
        if self.stamps[x] == self.number {
            return Err(Kind::RepeatedVariable);
        }
        if u64::from(self.cells) * u64::from(self.sizes[x]) > u64::from(MOST_TUPLES) {
            return Err(Kind::TableTooWide);
        }
        Ok(x as u32)
    }

    /// Adds a variable that passed the checks. Nothing changes where memory is refused.
    pub(crate) fn push(&mut self, x: u32) -> Result<(), AllocError>
        requires { check_next self.old (pos x) ≡ None }
        ensures ok { OnOk result (self.new
            ≡ record self.old { variables = self.old.variables ++ x ∷ [] }) }
        ensures err { OnErr result (self.new ≡ self.old) }
    {
        self.variables.push(x)?;
        self.stamps[x as usize] = self.number;
        self.cells *= self.sizes[x as usize];
        Ok(())
    }

    /// The domain sizes of all variables.
    pub(crate) fn sizes(&self) -> &'a [u32]
        ensures value { result.now ≡ self.now.sizes }
        ensures sizes { AreSizes result.now }
    {
        let _ = &self.stamps;
        self.sizes
    }

    /// The variables so far, which are different.
    pub(crate) fn variables(&self) -> &[u32]
        ensures value { result.now ≡ self.now.variables }
        ensures scope { IsScope self.now.sizes self.now.variables }
    {
        self.variables.as_slice()
    }

    /// How many tuples the variables so far have: 1 to 4,194,304.
    pub(crate) fn cells(&self) -> u32
        ensures { result ≡ cells (scope_dims self.now) }
    {
        self.cells
    }
}
