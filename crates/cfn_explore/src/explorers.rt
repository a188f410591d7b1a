//! What makes the explorers of a network.

use crate::explore::Explore;
use std::alloc::{AllocError, Global};

/// Makes explorers for one network. Each worker of a search has one of its own, which it makes in its own thread.
pub trait Explorers {
    type Explorer: Explore + Send;

    ghost use Rattle.std.specs.Prelude.{◌≡◌, IfOk};
    ghost use Rattle.cfn_model.specs.Network.{Network as CostNetwork};

    /// The network for which it makes them.
    ghost network: { Self → CostNetwork };

    /// An explorer of the network's tasks. An `Err` is want of memory.
    fn make(&self, alloc: Global) -> Result<Self::Explorer, AllocError>
        ensures { IfOk result (λ made. Self.Explorer.made_of made ≡ network self.now) };
}
