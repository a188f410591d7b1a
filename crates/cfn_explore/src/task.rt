//! A leaf that a worker has in hand.

ghost use Rattle.std.specs.Prelude.{◌≡◌};
ghost use Rattle.cfn_machine.specs.Pool.{IsTask};

use cfn_net::{Network, NetworkSnapshot};
use cfn_proof::Path;
use std::marker::Model;

/// A leaf of the pool's tree that was handed out: its number, the worker, how many nodes the worker may make below it,
/// the floor, and what stands before it.
///
/// A task is of its network: its path runs there at some threshold, with small costs all along, and its grant is at
/// least 1.
#[derive(Drop)]
pub struct Task {
    network: NetworkSnapshot,
    leaf: u64,
    worker: u32,
    grant: u64,
    floor: u128,
    path: Path,
}

impl Model for Task {
    ghost use Rattle.cfn_machine.specs.Pool.{IsTask};
    ghost use Rattle.cfn_explore.specs.Values.{TaskValue};

    ghost Value = { TaskValue };

    ghost view = { λ t. record {
      network = t.network.value;
      task = record { leaf = t.leaf; worker = t.worker; grant = t.grant; floor = t.floor; path = t.path };
    } };

    ghost invariant = { λ t. IsTask t.network.value (record { leaf = t.leaf; worker = t.worker; grant = t.grant; floor = t.floor; path = t.path }) };
}

impl Task {
    /// A task of a network. It takes no memory.
    pub fn of(
        network: &Network,
        leaf: u64,
        worker: u32,
        grant: u64,
        floor: u128,
        path: Path,
    ) -> Task
        requires { IsTask network.now (record { leaf = leaf; worker = worker; grant = grant; floor = floor; path = path }) }
        ensures network { result.network ≡ network.now }
        ensures task { result.task ≡ record { leaf = leaf; worker = worker; grant = grant; floor = floor; path = path } }
    {
        Task {
            network: NetworkSnapshot::of(network),
            leaf,
            worker,
            grant,
            floor,
            path,
        }
    }

    /// Nothing: its contract tells a caller what a task keeps.
    pub fn law_kept(&self)
        ensures { IsTask self.now.network self.now.task }
    {
        let _ = &self.leaf;
    }

    /// The number of the leaf.
    pub fn leaf(&self) -> u64
        ensures { result ≡ self.now.task.leaf }
    {
        self.leaf
    }

    /// The number of the worker that has it.
    pub fn worker(&self) -> u32
        ensures { result ≡ self.now.task.worker }
    {
        self.worker
    }

    /// How many nodes the worker may make below the leaf, at least 1.
    pub fn grant(&self) -> u64
        ensures { result ≡ self.now.task.grant }
    {
        self.grant
    }

    /// The floor at the leaf.
    pub fn floor(&self) -> u128
        ensures { result ≡ self.now.task.floor }
    {
        self.floor
    }

    /// What stands before the leaf.
    pub fn path(&self) -> &Path
        ensures { result.now ≡ self.now.task.path }
    {
        &self.path
    }
}
