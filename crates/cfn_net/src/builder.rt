//! Building a network, a function at a time.
ghost use Rattle.std.specs.Prelude.{◌≡◌, ℕ, ◌+◌, ◌-◌, ◌<◌, ◌≤◌, [], ◌∷◌, length, slice_index, All, IfOk, OnOk, OnErr};
ghost use Rattle.cfn_model.specs.declared.limits.TheConstants.{GREATEST};
ghost use Rattle.cfn_model.specs.Words.{IsWord};
ghost use Rattle.cfn_model.specs.Network.{Fits, cells, cell, dims, function_of, dims_at, function_at};
ghost use Rattle.cfn_net.specs.Building.{AreSizes, CanTake, ListingLaw, all_cells, last, list_at_end, listings_of, new_network, share_of, with_function};

use crate::draft::Draft;
use crate::network::Network;
use std::alloc::{AllocError, Global};
use std::marker::Model;

/// A network that is being built: its name, domains and upper bound stand from the start, and functions are added.
#[derive(Drop)]
pub struct Builder {
    draft: Draft,
    cells: u64,
}

impl Model for Builder {
    ghost use Rattle.std.specs.Prelude.{◌≡◌};
    ghost use Rattle.cfn_model.specs.Network.{Network as CostNetwork};
    ghost use Rattle.cfn_net.specs.Building.{all_cells};

    ghost Value = { CostNetwork };

    ghost view = { λ b. b.draft };

    ghost invariant = { λ b. b.cells ≡ all_cells b.draft };
}

impl Builder {
    /// A builder of a network with this name, these domain sizes and this upper bound, and no functions yet.
    pub fn make(alloc: Global, name: &[u8], sizes: &[u32], ub: u64) -> Result<Builder, AllocError>
        requires name { IsWord name.now }
        requires sizes { AreSizes sizes.now }
        requires ub { ub ≤ GREATEST }
        ensures { IfOk result (λ b. b ≡ new_network name.now sizes.now ub) }
    {
        Ok(Builder {
            draft: Draft::of(Network::bare(alloc, name, sizes, ub)?),
            cells: 0,
        })
    }

    /// The number of functions so far, at most 1,048,576.
    pub fn functions(&self) -> u32
        ensures { result ≡ length self.now.functions }
    {
        self.draft.functions()
    }

    /// The number of cells of all functions so far, at most 67,108,864.
    pub fn cells_so_far(&self) -> u64
        ensures { result ≡ all_cells self.now }
    {
        self.cells
    }

    /// What is built so far, as a network.
    pub fn network(&self) -> &Draft
        ensures { result.now ≡ self.now }
    {
        &self.draft
    }

    /// Adds a function that has a cost for each tuple that is listed, the last listing of a tuple counting, and the
    /// default cost for the other tuples (toulbar2 user manual, wcsp format). Costs above the upper bound count as
    /// the upper bound. An error leaves the builder unchanged.
    pub fn function(
        &mut self,
        scope: &[u32],
        default: u64,
        listed: &[(&[u32], u64)],
    ) -> Result<(), AllocError>
        requires room { CanTake self.old scope.now }
        requires listed { All (λ listing. Fits (dims self.old.sizes scope.now) listing.0.now) listed.now }
        ensures ok { OnOk result (self.new ≡ with_function self.old
            (function_of self.old.sizes self.old.upper scope.now default (listings_of listed.now))) }
        ensures err { OnErr result (self.new ≡ self.old) }
    {
        self.begin(scope, default)?;
        for (tuple, cost) in listed {
            let cell = self.draft.cell(tuple);
            self.list(cell, *cost);
        }
        Ok(())
    }

    /// Adds a function with no listings: every tuple of the scope has the default cost. An error leaves the builder
    /// unchanged.
    pub fn begin(&mut self, scope: &[u32], default: u64) -> Result<(), AllocError>
        requires { CanTake self.old scope.now }
        ensures ok { OnOk result (self.new ≡ with_function self.old
            (function_of self.old.sizes self.old.upper scope.now default [])) }
        ensures err { OnErr result (self.new ≡ self.old) }
    {
        self.cells += u64::from(self.draft.begin(scope, default)?);
        Ok(())
    }

    /// Adds a function with the default and the entries of an earlier function, whose variables have as many values
    /// each as those of the scope. The two share one table, unless a cost is listed in the new one. An error leaves the
    /// builder unchanged.
    pub fn shared(&mut self, scope: &[u32], earlier: u32) -> Result<(), AllocError>
        requires room { CanTake self.old scope.now }
        requires earlier { earlier < length self.old.functions }
        requires dims { dims self.old.sizes scope.now ≡ dims_at self.old earlier }
        ensures ok { OnOk result (self.new ≡ with_function self.old (share_of self.old earlier scope.now)) }
        ensures err { OnErr result (self.new ≡ self.old) }
    {
        self.cells += u64::from(self.draft.share(scope, earlier)?);
        Ok(())
    }

    /// Lists a cost at a cell of the last function: its entry there becomes the cost, or the upper bound where that
    /// is less. It takes no memory.
    pub fn list(&mut self, cell: u32, cost: u64)
        requires some { 0 < length self.old.functions }
        requires cell { cell < cells (dims_at self.old (last self.old)) }
        ensures { self.new ≡ list_at_end self.old cell cost }
    {
        self.draft.set_last(cell, cost);
    }

    /// The network that was built. The builder keeps its name, domain sizes and upper bound, and has no functions
    /// afterwards. An error leaves the builder unchanged.
    pub fn finish(&mut self) -> Result<Network, AllocError>
        ensures ok { IfOk result (λ network. network ≡ self.old) }
        ensures emptied { OnOk result (self.new ≡ new_network self.old.name self.old.sizes self.old.upper) }
        ensures err { OnErr result (self.new ≡ self.old) }
    {
        let network = self.draft.finish()?;
        self.cells = 0;
        Ok(network)
    }
}

/// Nothing: its contract is the law by which a caller that lists one tuple at a time has a function of all
/// listings.
pub fn law_listing()
    ensures { ListingLaw }
{}
