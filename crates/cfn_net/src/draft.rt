//! A network whose last function can still be written.
ghost use Rattle.std.specs.Prelude.{◌≡◌, ◌+◌, ◌-◌, ◌<◌, [], length, IfOk, OnOk, OnErr};
ghost use Rattle.cfn_model.specs.Network.{Fits, IsNetwork, cell, cells, dims, dims_at, function_of, scope_at};
ghost use Rattle.cfn_net.specs.Building.{CanTake, last, list_at_end, new_network, share_of, with_function};

use crate::network::Network;
use crate::open::Open;
use std::alloc::{AllocError, Global};
use std::marker::Model;

/// A network that is being built. Its last function is dense, so that writing it takes no memory; it gets the form in
/// which it is kept when the next one is added.
#[derive(Drop)]
pub struct Draft {
    network: Network,
    last: Option<Open>,
}

impl Model for Draft {
    ghost use Rattle.cfn_model.specs.Network.{Network as CostNetwork};
    ghost use Rattle.cfn_net.specs.Drafting.{IsDraft, with_open};

    ghost Value = { CostNetwork };

    ghost view = { λ d. with_open d.network d.last };

    ghost invariant = { λ d. IsDraft d.network d.last };
}

impl Draft {
    /// Nothing: its contract tells a caller that what is built so far keeps the limits of every network.
    pub fn law_limits(&self)
        ensures { IsNetwork self.now }
    {
        self.network.law_limits();
        let _ = &self.last;
    }

    /// The number of variables, from 1 to 1,048,576.
    pub fn variables(&self) -> u32
        ensures { result ≡ length self.now.sizes }
    {
        self.network.variables()
    }

    /// The number of values of each variable.
    pub fn sizes(&self) -> &[u32]
        ensures { result.now ≡ self.now.sizes }
    {
        self.network.sizes()
    }

    /// The number of functions, at most 1,048,576.
    pub fn functions(&self) -> u32
        ensures { result ≡ length self.now.functions }
    {
        self.network.functions() + u32::from(self.last.is_some())
    }

    /// The variables of a function.
    pub fn scope(&self, f: u32) -> &[u32]
        requires { f < length self.now.functions }
        ensures { result.now ≡ scope_at self.now f }
    {
        match &self.last {
            Some(open) if f == self.network.functions() => open.scope(),
            _ => self.network.scope(f),
        }
    }

    /// A network to build, with no functions yet.
    pub(crate) fn of(network: Network) -> Draft
        requires { network.functions ≡ [] }
        ensures { result ≡ network }
    {
        Draft {
            network,
            last: None,
        }
    }

    /// The number of the cell of a tuple of the last function.
    pub(crate) fn cell(&self, tuple: &[u32]) -> u32
        requires some { 0 < length self.now.functions }
        requires fits { Fits (dims_at self.now (last self.now)) tuple.now }
        ensures value { result ≡ cell (dims_at self.now (last self.now)) tuple.now }
        ensures below { result < cells (dims_at self.now (last self.now)) }
    {
        match &self.last {
            Some(open) => self.network.cell_in(open.scope(), tuple),
            None => 0,
        }
    }

    /// Adds a function whose every tuple has the default cost, and answers how many tuples there are. An error leaves all
    /// unchanged.
    pub(crate) fn begin(&mut self, scope: &[u32], default: u64) -> Result<u32, AllocError>
        requires { CanTake self.old scope.now }
        ensures ok { OnOk result (self.new ≡ with_function self.old
            (function_of self.old.sizes self.old.upper scope.now default [])) }
        ensures cells { IfOk result (λ n. n ≡ cells (dims self.old.sizes scope.now)) }
        ensures err { OnErr result (self.new ≡ self.old) }
    {
        let open = Open::behind(&mut self.network, &mut self.last, scope, default)?;
        let cells = open.cells();
        self.last = Some(open);
        Ok(cells)
    }

    /// Adds a function with the default and the entries of an earlier one, and answers how many tuples there are. An error
    /// leaves all unchanged.
    pub(crate) fn share(&mut self, scope: &[u32], earlier: u32) -> Result<u32, AllocError>
        requires room { CanTake self.old scope.now }
        requires earlier { earlier < length self.old.functions }
        requires dims { dims self.old.sizes scope.now ≡ dims_at self.old earlier }
        ensures ok { OnOk result (self.new ≡ with_function self.old (share_of self.old earlier scope.now)) }
        ensures cells { IfOk result (λ n. n ≡ cells (dims self.old.sizes scope.now)) }
        ensures err { OnErr result (self.new ≡ self.old) }
    {
        let mut open = Open::behind(&mut self.network, &mut self.last, scope, 0)?;
        self.network.law_limits();
        open.copy(&self.network, earlier);
        let cells = open.cells();
        self.last = Some(open);
        Ok(cells)
    }

    /// Writes the entry of the last function at a cell.
    pub(crate) fn set_last(&mut self, cell: u32, cost: u64)
        requires some { 0 < length self.old.functions }
        requires cell { cell < cells (dims_at self.old (last self.old)) }
        ensures { self.new ≡ list_at_end self.old cell cost }
    {
        let upper = self.network.ub();
        if let Some(open) = &mut self.last {
            open.set(cell, cost.min(upper));
        }
    }

    /// The network, with its last function in the form in which it is kept. No function is left. An error leaves all
    /// unchanged.
    pub(crate) fn finish(&mut self) -> Result<Network, AllocError>
        ensures ok { IfOk result (λ network. network ≡ self.old) }
        ensures emptied { OnOk result (self.new ≡ new_network self.old.name self.old.sizes self.old.upper) }
        ensures err { OnErr result (self.new ≡ self.old) }
    {
        let next = self.network.without_functions()?;
        if let Some(open) = &mut self.last {
            open.close(&mut self.network)?;
        }
        self.last = None;
        Ok(std::mem::replace(&mut self.network, next))
    }
}
