//! A network as clauses see it.
ghost use Rattle.std.specs.Prelude.{◌≡◌};
ghost use Rattle.cfn_model.specs.Network.{Network as CostNetwork};
ghost use base.Fml.{ftrue};

use crate::network::Network;
use std::marker::Model;

/// The network that a value was made for. It has no bytes and owns nothing, so that whoever lets it go proves nothing of how
/// a network is let go (as it would with std's snapshot, whose type names the network's). Only a clause ties `value`.
pub struct NetworkSnapshot {
    pub ghost value: { CostNetwork },
}

impl Model for NetworkSnapshot {
    ghost also_owns = { λ _. ftrue };
}

impl NetworkSnapshot {
    /// A snapshot of this network.
    pub fn of(network: &Network) -> NetworkSnapshot
        ensures { result.value ≡ network.now }
    {
        let _ = network;
        NetworkSnapshot {}
    }
}

impl Drop for NetworkSnapshot {
    fn drop(self) {
        let Self {} = self;
    }
}
