//! Where a store has the tables for which its network has none.

ghost use Rattle.std.specs.Prelude.{◌≡◌, ◌<◌, length};
ghost use Rattle.cfn_model.specs.Network.{function_at};
ghost use Rattle.cfn_store.specs.Shelf.{on_shelf};

use cfn_net::{Network, Tables};

/// Tables of the store's own, or those that it shares with others.
#[derive(Drop)]
pub(crate) enum Shelf<'n> {
    Own(Tables),
    Lent(&'n Tables),
}

impl<'n> Shelf<'n> {
    /// The entries of a function of the network, one at each cell.
    #[inline]
    pub(crate) fn table<'a>(&'a self, network: &'a Network, f: u32) -> &'a [u64]
        requires same { on_shelf self.now ≡ network.now }
        requires function { f < length network.now.functions }
        ensures { result.now ≡ (function_at network.now f).entries }
    {
        match network.table(f) {
            Some(table) => table,
            None => self.tables().table(network, f),
        }
    }

    fn tables(&self) -> &Tables
        ensures { result.now ≡ on_shelf self.now }
    {
        match self {
            Shelf::Own(tables) => tables,
            Shelf::Lent(tables) => tables,
        }
    }
}
