//! Node consistency from scratch (Larrosa and Schiex, 2004).
//!
//! A first pass lifts from each variable the least unary cost of its live values, but no more than the floor lacks of the
//! threshold. A second pass cuts each live value whose unary cost reaches what the floor lacks then. No third pass is due:
//! a cut changes neither the floor nor a unary cost, and the value that the first pass left at 0 is not cut.

ghost use Rattle.std.specs.Prelude.{◌≡◌, ℕ, ◌+◌, ◌<◌, ◌≤◌, true, false, length, IfOk};
ghost use Rattle.cfn_model.specs.Sums.{floor};
ghost use Rattle.cfn_model.specs.Tree.{IsWiped};
ghost use Rattle.cfn_store.specs.Standing.{Standing, history};
ghost use Rattle.cfn_gain.specs.Settling.{AddsSteps, Answers};
ghost use Rattle.cfn_gain.specs.Passes.{HasLive, IsLeast, HasRoom, IsLifting, IsCutting};

use crate::settling::Settling;
use cfn_net::Network;
use cfn_store::Store;
use std::alloc::{AllocError, Global};
use std::marker::Model;

/// Enforces node consistency on stores of a network. Contracts see the network.
#[derive(Drop)]
pub struct NodeConsistency<'n> {
    network: &'n Network,
}

impl<'n> Model for NodeConsistency<'n> {
    ghost use Rattle.cfn_model.specs.Network.{Network};

    ghost Value = { Network };

    ghost view = { λ s. s.network.now };
}

impl<'n> NodeConsistency<'n> {
    /// For stores of this network. An `Err` is want of memory; none is taken here.
    pub fn make(_alloc: Global, network: &'n Network) -> Result<NodeConsistency<'n>, AllocError>
        ensures { IfOk result (λ nodes. nodes ≡ network.now) }
    {
        Ok(NodeConsistency { network })
    }

    /// Makes a store node consistent at the threshold `k`, while its block has fewer than `limit` steps.
    pub fn settle(&mut self, store: &mut Store<'_>, k: u64, limit: usize) -> Settling
        requires network { store.old.network ≡ self.old }
        requires threshold { k ≤ self.old.upper }
        requires room { HasRoom store.old limit }
        ensures steps { AddsSteps store.old store.new k limit }
        ensures answer { Answers store.new k limit result }
        ensures same { self.new ≡ self.old }
    {
        if store.floor() >= u128::from(k) || is_wiped(self.network, store) {
            return Settling::Dead;
        }
        match lift(self.network, store, k, limit) {
            Settling::Settled => cut(self.network, store, k, limit),
            answer => answer,
        }
    }
}

/// Whether the block has as many steps as it may have.
fn is_full(store: &Store<'_>, limit: usize) -> bool
    ensures full { result ≡ true → limit ≤ length store.now.block }
    ensures room { result ≡ false → length store.now.block < limit }
{
    store.block_len() >= limit
}

/// Whether a variable has no live value.
pub fn is_wiped(network: &Network, store: &Store<'_>) -> bool
    requires { store.now.network ≡ network.now }
    ensures wiped { result ≡ true → IsWiped network.now (history store.now) }
    ensures some { result ≡ false → (x : ℕ) → x < length network.now.sizes → HasLive network.now (history store.now) x }
{
    for x in 0..network.variables() {
        if store.live(x).is_empty() {
            return true;
        }
    }
    false
}

/// The least unary cost of the live values of a variable that has some.
pub fn least(store: &Store<'_>, x: u32) -> u64
    requires variable { x < length store.now.network.sizes }
    requires some { HasLive store.now.network (history store.now) x }
    ensures { IsLeast store.now.network (history store.now) x result }
{
    let values = store.live(x);
    let mut least = store.unary(x, values[0]);
    for a in values {
        least = least.min(store.unary(x, *a));
    }
    least
}

/// Lifts what each variable's live values have in common. `Settled` says that each variable has a live value of unary cost
/// 0 then, and the floor is below the threshold.
fn lift(network: &Network, store: &mut Store<'_>, k: u64, limit: usize) -> Settling
    requires network { store.old.network ≡ network.now }
    requires threshold { k ≤ network.now.upper }
    requires start { IsLifting store.old store.old k limit 0 }
    ensures steps { AddsSteps store.old store.new k limit }
    ensures settled { result ≡ Settling.Settled → IsLifting store.old store.new k limit (length network.now.sizes) }
    ensures dead { result ≡ Settling.Dead → Answers store.new k limit Settling.Dead }
    ensures spent { result ≡ Settling.Spent → Answers store.new k limit Settling.Spent }
{
    network.law_limits();
    for x in 0..network.variables() {
        let least = least(store, x);
        if least > 0 {
            if is_full(store, limit) {
                return Settling::Spent;
            }
            let lacks = k - store.floor() as u64;
            store.lift(x, least.min(lacks));
            if least >= lacks {
                return Settling::Dead;
            }
        }
    }
    Settling::Settled
}

/// Cuts the live values whose unary cost reaches what the floor lacks of the threshold.
fn cut(network: &Network, store: &mut Store<'_>, k: u64, limit: usize) -> Settling
    requires network { store.old.network ≡ network.now }
    requires threshold { k ≤ network.now.upper }
    requires start { (before : Standing) × IsLifting before store.old k limit (length network.now.sizes) }
    ensures steps { (before : Standing) → AddsSteps before store.old k limit → AddsSteps before store.new k limit }
    ensures answer { Answers store.new k limit result }
{
    network.law_limits();
    let lacks = k - store.floor() as u64;
    for x in 0..network.variables() {
        for a in 0..network.size(x) {
            if store.is_live(x, a) && store.unary(x, a) >= lacks {
                if is_full(store, limit) {
                    return Settling::Spent;
                }
                store.cut_value(x, a);
            }
        }
    }
    Settling::Settled
}
