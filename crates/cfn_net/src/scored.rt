//! A buffer for one assignment with its cost.
ghost use Rattle.std.specs.Prelude.{◌≡◌, ◌↔◌, ℕ, length, Some, None, IsNone, IfOk, IfSome};
ghost use Rattle.cfn_model.specs.Network.{Fits, cost};
ghost use Rattle.cfn_model.specs.Certificate.{threshold_of};
ghost use Rattle.cfn_net.specs.Scoring.{IsPriced};

use crate::network::Network;
use crate::snapshot::NetworkSnapshot;
use std::alloc::{AllocError, Global};
use std::marker::Model;

/// A value for each variable of a network with its cost there, or nothing yet. It is bound to the network that it
/// was made for, and borrows nothing of it. Only `empty` takes memory.
#[derive(Drop)]
pub struct Scored {
    network: NetworkSnapshot,
    filled: bool,
    price: u64,
    values: Vec<u32>,
}

impl Model for Scored {
    ghost use Rattle.cfn_net.specs.Scoring.{Scoring, IsKept, held_of};

    ghost Value = { Scoring };

    ghost view = { λ s. record { network = s.network.value; held = held_of s.filled s.price s.values.items } };

    ghost invariant = { λ s. IsKept s.network.value s.filled s.price s.values.items };
}

impl Scored {
    /// A buffer for the assignments of a network, which holds nothing yet.
    pub fn empty(alloc: Global, network: &Network) -> Result<Scored, AllocError>
        ensures { IfOk result (λ scored. scored ≡ record { network = network.now; held = None }) }
    {
        Ok(Scored {
            network: NetworkSnapshot::of(network),
            filled: false,
            price: network.ub(),
            values: vec![in alloc; 0; network.variables() as usize]?,
        })
    }

    /// Nothing: its contract tells a caller that what is held fits the network and has its cost there.
    pub fn law_priced(&self)
        ensures { IsPriced self.now.network self.now.held }
    {
        let _ = &self.filled;
    }

    /// Takes an assignment of the network, and its cost there.
    pub fn fill(&mut self, network: &Network, values: &[u32])
        requires same { network.now ≡ self.old.network }
        requires fits { Fits network.now.sizes values.now }
        ensures { self.new ≡ record {
          network = self.old.network;
          held = Some (record { cost = cost self.old.network values.now; values = values.now });
        } }
    {
        self.price = network.cost(values).value();
        self.values.as_mut_slice().copy_from_slice(values);
        self.filled = true;
    }

    /// The assignment that is held, or `None` where nothing is.
    pub fn values(&self) -> Option<&[u32]>
        ensures none { IsNone result ↔ (self.now.held ≡ None) }
        ensures some { IfSome result (λ values. self.now.held ≡ Some (record {
          cost = threshold_of self.now.network.upper self.now.held;
          values = values.now;
        })) }
    {
        if self.filled {
            Some(self.values.as_slice())
        } else {
            None
        }
    }

    /// The cost of the assignment that is held, or the upper bound where nothing is. What is held may cost the
    /// upper bound too.
    pub fn price(&self) -> u64
        ensures { result ≡ threshold_of self.now.network.upper self.now.held }
    {
        self.price
    }

    /// Takes what another buffer of the same network holds.
    pub fn take_over(&mut self, from: &Scored)
        requires { self.old.network ≡ from.now.network }
        ensures { self.new ≡ from.now }
    {
        self.values
            .as_mut_slice()
            .copy_from_slice(from.values.as_slice());
        self.price = from.price;
        self.filled = from.filled;
    }
}
