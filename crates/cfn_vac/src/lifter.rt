//! Lifts by the plan of a derivation.

ghost use Rattle.std.specs.Prelude.{◌≡◌, ℕ, ◌+◌, ◌-◌, ◌<◌, ◌≤◌, length, reverse, IfOk, OnErr};
ghost use Rattle.cfn_model.specs.Sums.{is_live};
ghost use Rattle.cfn_consistency.specs.Virtual.{Bans, IsDerivation, IsPlan};
ghost use Rattle.cfn_store.specs.Standing.{history};
ghost use Rattle.cfn_gain.specs.Calls.{Adds};
ghost use Rattle.cfn_vac.specs.declared.lifter.Lifting.TheVariants.{Blocked};
ghost use Rattle.cfn_vac.specs.Running.{AreShifts, amount_of, IsFactor};
ghost use Rattle.cfn_vac.specs.Lifts.{Tells, TellsOf, LiftsBy, RisesBy};

use crate::numbering::{NONE, number, take_back};
use crate::plan::Plan;
use crate::run::{Refusal, amount, run};
use crate::walk::walk;
use cfn_consistency::Deletion;
use cfn_gain::Limits;
use cfn_model::Step;
use cfn_net::Network;
use cfn_rows::Rows;
use cfn_store::Store;
use std::alloc::{AllocError, Global};
use std::marker::Model;

/// What trying to lift came to. Lifted: the floor rose. Closed: nothing can be gathered at the amount. Blocked: a step of the plan,
/// with its number from 0 on, asks for more than its place has. Spent: the block has no room for the plan.
#[derive(Clone, Copy, PartialEq, Eq)]
pub enum Lifting {
    Lifted,
    Closed,
    Blocked {
        number: usize,
        step: Step,
        demand: u64,
        capacity: u64,
    },
    Spent,
}

/// Room for a plan, and for where values stand among deletions: between lifts no value has a number. Contracts see the network.
#[derive(Drop)]
pub(crate) struct Lifter<'n> {
    network: &'n Network,
    plan: Plan<'n>,
    positions: Rows<u64>,
}

impl<'n> Model for Lifter<'n> {
    ghost use Rattle.std.specs.Prelude.{◌≡◌};
    ghost use Rattle.cfn_model.specs.Network.{Network as CostNetwork};
    ghost use Rattle.cfn_vac.specs.Tables.{AreFilled};
    ghost use Rattle.cfn_vac.specs.declared.numbering.TheConstants.{NONE};

    ghost Value = { CostNetwork };

    ghost view = { λ s. s.network.now };

    ghost invariant = { λ s. (s.plan.network ≡ s.network.now) × AreFilled s.network.now NONE s.positions };
}

impl<'n> Lifter<'n> {
    /// For stores of a network. An `Err` is want of memory.
    pub(crate) fn make(alloc: Global, network: &'n Network) -> Result<Lifter<'n>, AllocError>
        ensures { IfOk result (λ lifter. lifter ≡ network.now) }
    {
        Ok(Lifter {
            network,
            plan: Plan::make(alloc, network)?,
            positions: Rows::filled(alloc, network.sizes(), NONE)?,
        })
    }

    /// Lifts by the plan of a derivation that empties `x`. It costs what the derivation and its plan cost, and the plan of the lift
    /// before. After an `Err`, want of memory, the store is as it was.
    pub(crate) fn lift(
        &mut self,
        store: &mut Store<'_>,
        limits: Limits,
        q: u64,
        deletions: &[Deletion],
        x: u32,
    ) -> Result<Lifting, AllocError>
        requires network { store.old.network ≡ self.old }
        requires variable { x < length self.old.sizes }
        requires derivation { (bans : Bans) × IsDerivation self.old (history store.old) q bans deletions.now }
        requires room { limits.steps ≤ length store.old.block + store.old.spare }
        requires cuts { length deletions.now ≤ store.old.spare }
        ensures network { self.new ≡ self.old }
        ensures adds { Adds store.old store.new limits }
        ensures live { (y a : ℕ) → is_live (history store.new) y a ≡ is_live (history store.old) y a }
        ensures lifts { IfOk result (LiftsBy self.old limits store.old store.new q deletions.now x) }
        ensures err { OnErr result (store.new ≡ store.old) }
    {
        self.plan.begin(x)?;
        number(self.network, &mut self.positions, deletions);
        let walked = walk(&mut self.plan, store, &self.positions, q, deletions);
        take_back(self.network, &mut self.positions, deletions);
        walked?;
        Ok(make(store, limits, q, self.plan.steps()))
    }
}

/// Makes the steps of a plan, the last of which stands first: with as great a factor as `q` allows, or else with 1.
fn make(store: &mut Store<'_>, limits: Limits, q: u64, steps: &[Step]) -> Lifting
    requires shifts { AreShifts store.old.network steps.now }
    requires rises { RisesBy (reverse steps.now) }
    requires room { limits.steps ≤ length store.old.block + store.old.spare }
    ensures adds { Adds store.old store.new limits }
    ensures live { (y a : ℕ) → is_live (history store.new) y a ≡ is_live (history store.old) y a }
    ensures tells { Tells q limits store.old store.new (reverse steps.now) result }
{
    if limits.steps.saturating_sub(store.block_len()) < steps.len() {
        return Lifting::Spent;
    }
    let factor = factor(steps, q);
    match run(store, steps, factor) {
        Ok(()) => Lifting::Lifted,
        Err(_) if factor > 1 => make_once(store, limits, steps),
        Err(refusal) => blocked(refusal),
    }
}

/// Makes them with the factor 1, where the block has room for them.
fn make_once(store: &mut Store<'_>, limits: Limits, steps: &[Step]) -> Lifting
    requires shifts { AreShifts store.old.network steps.now }
    requires rises { RisesBy (reverse steps.now) }
    requires room { limits.steps ≤ length store.old.block + store.old.spare }
    requires short { length steps.now ≤ limits.steps - length store.old.block }
    ensures adds { Adds store.old store.new limits }
    ensures live { (y a : ℕ) → is_live (history store.new) y a ≡ is_live (history store.old) y a }
    ensures tells { TellsOf (λ factor. factor ≡ 1) limits store.old store.new (reverse steps.now) result }
{
    match run(store, steps, 1) {
        Ok(()) => Lifting::Lifted,
        Err(refusal) => blocked(refusal),
    }
}

/// What a step that cannot be made tells.
fn blocked(refusal: Refusal) -> Lifting
    ensures { result ≡ Blocked refusal.number refusal.step (amount_of refusal.step) refusal.capacity }
{
    Lifting::Blocked {
        number: refusal.number,
        step: refusal.step,
        demand: amount(refusal.step),
        capacity: refusal.capacity,
    }
}

/// How many times the greatest amount of the steps goes into `q`, at least 1.
fn factor(steps: &[Step], q: u64) -> u64
    ensures { IsFactor q steps.now result }
{
    let mut greatest = 1;
    for step in steps {
        greatest = amount(*step).max(greatest);
    }
    (q / greatest).max(1)
}
