//! What makes the divers of a search.

ghost use Rattle.std.specs.Prelude.{◌≡◌};

use crate::diver::Diver;
use cfn_branch::Rule;
use cfn_explore::Explorers;
use cfn_net::{Network, Tables};
use std::alloc::{AllocError, Global};
use std::marker::Model;

/// Makes divers for a network: what they share of it, and the rule that names their splits. Contracts see the network.
#[derive(Drop)]
pub struct Divers<'n> {
    network: &'n Network,
    tables: &'n Tables,
    rule: Rule,
}

impl<'n> Model for Divers<'n> {
    ghost use Rattle.std.specs.Prelude.{◌≡◌};
    ghost use Rattle.cfn_model.specs.Network.{Network as CostNetwork};

    ghost Value = { CostNetwork };

    ghost view = { λ d. d.network.now };

    ghost invariant = { λ d. d.tables.now ≡ d.network.now };
}

impl<'n> Divers<'n> {
    /// Divers over a network's tables, whose splits are named by weighted degree.
    pub fn over(network: &'n Network, tables: &'n Tables) -> Divers<'n>
        requires { tables.now ≡ network.now }
        ensures { result ≡ network.now }
    {
        Divers::by(network, tables, Rule::Degrees)
    }

    /// Divers over a network's tables, whose splits `rule` names.
    pub fn by(network: &'n Network, tables: &'n Tables, rule: Rule) -> Divers<'n>
        requires { tables.now ≡ network.now }
        ensures { result ≡ network.now }
    {
        Divers {
            network,
            tables,
            rule,
        }
    }
}

impl<'n> Explorers for Divers<'n> {
    type Explorer = Diver<'n>;

    ghost network = { λ d. d };

    fn make(&self, alloc: Global) -> Result<Diver<'n>, AllocError> {
        Diver::make(alloc, self.network, self.tables, self.rule)
    }
}
