//! A network's tables, all of them dense.
ghost use Rattle.std.specs.Prelude.{◌≡◌, ◌^◌, ◌<◌, length, IfOk};
ghost use Rattle.cfn_model.specs.Network.{function_at};
ghost use Rattle.cfn_net.specs.Expanding.{AreSpread};

use crate::network::Network;
use crate::snapshot::NetworkSnapshot;
use crate::table::Table;
use std::alloc::{AllocError, Global};
use std::marker::Model;

/// The tables of the functions for which their network has none, for those who go over all entries of a function. It is
/// bound to the network that it was made for, and borrows nothing of it. Functions that share a table share it here too.
#[derive(Drop)]
pub struct Tables {
    network: NetworkSnapshot,
    /// The place of each function's table in `spread`, where the network has none.
    places: Vec<u32>,
    spread: Vec<Vec<u64>>,
}

impl Model for Tables {
    ghost use Rattle.std.specs.Prelude.{length};
    ghost use Rattle.cfn_model.specs.Network.{Network as CostNetwork};
    ghost use Rattle.cfn_net.specs.Expanding.{IsExpanded};

    ghost Value = { CostNetwork };

    ghost view = { λ t. t.network.value };

    ghost invariant = { λ t. IsExpanded t.network.value (length t.network.value.functions) t.places.items t.spread.items };
}

impl Tables {
    /// The tables of a network. An `Err` is want of memory.
    pub fn expand(alloc: Global, network: &Network) -> Result<Tables, AllocError>
        ensures { IfOk result (λ tables. tables ≡ network.now) }
    {
        network.law_limits();
        let kepts = network.functions.as_slice();
        let (known, spread) = spread_of(alloc, network.tables.as_slice())?;
        let mut places = Vec::with_capacity(alloc, kepts.len())?;
        for kept in kepts {
            places.push(known[kept.table as usize])?;
        }
        Ok(Tables {
            network: NetworkSnapshot::of(network),
            places,
            spread,
        })
    }

    /// The entries of a function of the network, one at each cell.
    #[inline]
    pub fn table<'a>(&'a self, network: &'a Network, f: u32) -> &'a [u64]
        requires same { network.now ≡ self.now }
        requires function { f < length network.now.functions }
        ensures { result.now ≡ (function_at network.now f).entries }
    {
        match network.table(f) {
            Some(table) => table,
            None => self.spread[self.places[f as usize] as usize].as_slice(),
        }
    }
}

/// The entries of the tables that are not dense, and the place of each such table's among them.
fn spread_of(alloc: Global, tables: &[Table]) -> Result<(Vec<u32>, Vec<Vec<u64>>), AllocError>
    requires { length tables.now < 2 ^ 32 }
    ensures places { IfOk result (λ r. length r.0.items ≡ length tables.now) }
    ensures spread { IfOk result (λ r. AreSpread tables.now (length tables.now) r.0.items r.1.items) }
{
    let mut places = Vec::with_capacity(alloc, tables.len())?;
    let mut spread = Vec::new(alloc);
    for table in tables {
        places.push(spread.len() as u32)?;
        if table.dense().is_none() {
            spread.push(table.expanded(alloc)?)?;
        }
    }
    Ok((places, spread))
}
