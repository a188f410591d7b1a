//! What a search is of.

ghost use Rattle.std.specs.Prelude.{◌≡◌};

use crate::explorers::Explorers;
use cfn_net::Network;
use std::marker::Model;

/// A network, and what makes its explorers. Contracts see the network.
#[derive(Drop)]
pub struct Problem<'n, X: Explorers> {
    network: &'n Network,
    explorers: &'n X,
}

impl<'n, X: Explorers> Model for Problem<'n, X> {
    ghost use Rattle.std.specs.Prelude.{◌≡◌};
    ghost use Rattle.cfn_model.specs.Network.{Network as CostNetwork};

    ghost Value = { CostNetwork };

    ghost view = { λ p. p.network.now };

    ghost invariant = { λ p. X.network p.explorers.now ≡ p.network.now };
}

impl<'n, X: Explorers> Problem<'n, X> {
    /// A network with explorers that are made for it.
    pub fn of(network: &'n Network, explorers: &'n X) -> Problem<'n, X>
        requires { X.network explorers.now ≡ network.now }
        ensures { result ≡ network.now }
    {
        Problem { network, explorers }
    }

    /// The network.
    pub fn network(&self) -> &'n Network
        ensures { result.now ≡ self.now }
    {
        self.network
    }

    /// What makes explorers for it.
    pub fn explorers(&self) -> &'n X
        ensures { X.network result.now ≡ self.now }
    {
        self.explorers
    }
}
