//! Sets of numbers that are emptied in constant time: a number is in a set where the round in which it was put in is the set's
//! own. After 2^32 rounds one from long ago may be in it, which costs a needless step at most.

ghost use Rattle.std.specs.Prelude.{◌≡◌, ◌<◌, length, IfOk};
ghost use Rattle.cfn_model.specs.Steps.{IsValue};

use cfn_net::Network;
use cfn_rows::Rows;
use std::alloc::{AllocError, Global};
use std::marker::Model;

/// A set of numbers below a limit, which contracts see.
#[derive(Drop)]
pub(crate) struct Flags {
    round: u32,
    rounds: Vec<u32>,
}

impl Model for Flags {
    ghost use Rattle.std.specs.Prelude.{ℕ, length};

    ghost Value = { ℕ };

    ghost view = { λ s. length s.rounds.items };
}

impl Flags {
    /// For numbers below `limit`. An `Err` is want of memory; no other call takes memory.
    pub(crate) fn make(alloc: Global, limit: u32) -> Result<Flags, AllocError>
        ensures { IfOk result (λ flags. flags ≡ limit) }
    {
        Ok(Flags {
            round: 1,
            rounds: vec![in alloc; 0; limit as usize]?,
        })
    }

    /// Takes all numbers out.
    pub(crate) fn clear(&mut self)
        ensures { self.new ≡ self.old }
    {
        self.round = self.round.wrapping_add(1);
    }

    /// Puts a number in.
    pub(crate) fn put(&mut self, i: u32)
        requires { i < self.old }
        ensures { self.new ≡ self.old }
    {
        self.rounds[i as usize] = self.round;
    }

    /// Whether a number is in.
    pub(crate) fn has(&self, i: u32) -> bool
        requires { i < self.now }
    {
        self.rounds[i as usize] == self.round
    }
}

/// A set of values of a network's variables. Contracts see the network.
#[derive(Drop)]
pub(crate) struct ValueFlags<'n> {
    network: &'n Network,
    round: u32,
    rounds: Rows<u32>,
}

impl<'n> Model for ValueFlags<'n> {
    ghost use Rattle.cfn_model.specs.Network.{Network as CostNetwork};
    ghost use Rattle.cfn_trim.specs.Tables.{HasShape};

    ghost Value = { CostNetwork };

    ghost view = { λ s. s.network.now };

    ghost invariant = { λ s. HasShape s.network.now s.rounds };
}

impl<'n> ValueFlags<'n> {
    /// For the values of a network. An `Err` is want of memory; no other call takes memory.
    pub(crate) fn make(alloc: Global, network: &'n Network) -> Result<ValueFlags<'n>, AllocError>
        ensures { IfOk result (λ flags. flags ≡ network.now) }
    {
        Ok(ValueFlags {
            network,
            round: 1,
            rounds: Rows::filled(alloc, network.sizes(), 0)?,
        })
    }

    /// Takes all values out.
    pub(crate) fn clear(&mut self)
        ensures { self.new ≡ self.old }
    {
        self.round = self.round.wrapping_add(1);
    }

    /// Puts a value in.
    pub(crate) fn put(&mut self, x: u32, value: u32)
        requires { IsValue self.old x value }
        ensures { self.new ≡ self.old }
    {
        self.rounds.set(x as usize, value as usize, self.round);
    }

    /// Whether a value is in.
    pub(crate) fn has(&self, x: u32, value: u32) -> bool
        requires { IsValue self.now x value }
    {
        self.rounds.get(x as usize, value as usize) == self.round
    }
}
