//! The last function of a network that is being built.
ghost use Rattle.std.specs.Prelude.{◌≡◌, ◌^◌, ◌<◌, [], length, None, Some, IfOk, OnOk, OnErr};
ghost use Rattle.cfn_model.specs.Network.{cells, dims_at, function_of};
ghost use Rattle.cfn_net.specs.Building.{CanTake, share_of, with_function};
ghost use Rattle.cfn_net.specs.Drafting.{IsDraft, IsOpen, open_function, with_open, written};

use crate::network::Network;
use smallvec::SmallVec;
use std::alloc::{AllocError, Global};

/// A function whose entries are all there, so that each can be written. As long as none was, it may be known to have the
/// default and the entries of an earlier function.
#[derive(Drop)]
pub(crate) struct Open {
    scope: SmallVec<u32, 4>,
    default: u64,
    entries: Vec<u64>,
    shares: Option<u32>,
}

impl Open {
    /// A function with the default everywhere, to stand behind what a network and its last function are. The last one is
    /// closed, and its memory is used again where it can be. An error leaves all unchanged.
    pub(crate) fn behind(
        network: &mut Network,
        last: &mut Option<Open>,
        scope: &[u32],
        default: u64,
    ) -> Result<Open, AllocError>
        requires draft { IsDraft network.old last.old }
        requires room { CanTake (with_open network.old last.old) scope.now }
        ensures network { OnOk result (network.new ≡ with_open network.old last.old) }
        ensures function { IfOk result (λ opened. open_function opened
            ≡ function_of network.old.sizes network.old.upper scope.now default []) }
        ensures shares { IfOk result (λ opened. opened.shares ≡ None) }
        ensures err { OnErr result ((network.new ≡ network.old) × (last.new ≡ last.old)) }
    {
        let alloc = network.alloc();
        let cells = network.cells_in(scope) as usize;
        let default = network.ub().min(default);
        let scope = SmallVec::from_slice(alloc, scope)?;
        let mut entries = Vec::with_capacity(alloc, cells)?;
        if let Some(open) = last {
            open.close(network)?;
            if cells <= open.entries.capacity() {
                std::mem::swap(&mut entries, &mut open.entries);
                entries.clear();
            }
        }
        entries.resize(cells, default)?;
        Ok(Open {
            scope,
            default,
            entries,
            shares: None,
        })
    }

    pub(crate) fn scope(&self) -> &[u32]
        ensures { result.now ≡ self.now.scope.items }
    {
        self.scope.as_slice()
    }

    /// The number of cells.
    pub(crate) fn cells(&self) -> u32
        requires { length self.now.entries.items < 2 ^ 32 }
        ensures { result ≡ length self.now.entries.items }
    {
        self.entries.len() as u32
    }

    /// Writes the entry at a cell.
    pub(crate) fn set(&mut self, cell: u32, entry: u64)
        requires { cell < length self.old.entries.items }
        ensures function { open_function self.new ≡ written (open_function self.old) cell entry }
        ensures shares { self.new.shares ≡ None }
    {
        self.shares = None;
        self.entries[cell as usize] = entry;
    }

    /// Takes the default and the entries of an earlier function.
    pub(crate) fn copy(&mut self, network: &Network, earlier: u32)
        requires earlier { earlier < length network.now.functions }
        requires cells { length self.old.entries.items ≡ cells (dims_at network.now earlier) }
        ensures function { open_function self.new ≡ share_of network.now earlier self.old.scope.items }
        ensures shares { self.new.shares ≡ Some earlier }
        ensures cells { length self.new.entries.items ≡ length self.old.entries.items }
    {
        self.default = network.default(earlier);
        network.write_table(earlier, self.entries.as_mut_slice());
        self.shares = Some(earlier);
    }

    /// Hands the function over to the network, which leaves nothing but memory here. An error leaves all unchanged.
    pub(crate) fn close(&mut self, network: &mut Network) -> Result<(), AllocError>
        requires { IsOpen network.old self.old }
        ensures ok { OnOk result (network.new ≡ with_function network.old (open_function self.old)) }
        ensures err { OnErr result ((network.new ≡ network.old) × (self.new ≡ self.old)) }
    {
        let scope = self.scope.as_slice();
        match self.shares {
            Some(earlier) => network.share(scope, earlier),
            None => network.push(scope, self.default, &mut self.entries),
        }
    }
}
