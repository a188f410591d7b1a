//! A plan while it is built, from its last step on, and what it asks of each value.
//!
//! Invariant: each step is a shift, and the number of a value is what the steps so far ask of it.

ghost use Rattle.std.specs.Prelude.{◌≡◌, ◌<◌, ◌≤◌, List, [], ◌∷◌, length, reverse, IfOk, OnOk, OnErr};
ghost use Rattle.cfn_model.specs.declared.limits.TheConstants.{GREATEST};
ghost use Rattle.cfn_model.specs.declared.step.Step.{Step};
ghost use Rattle.cfn_model.specs.declared.step.Step.TheVariants.{Project, Extend, Lift};
ghost use Rattle.cfn_model.specs.Network.{variable_at};
ghost use Rattle.cfn_model.specs.Steps.{IsValue, IsPlace};
ghost use Rattle.cfn_consistency.specs.Virtual.{asked};
ghost use Rattle.cfn_vac.specs.Running.{IsShift, AreShifts};
ghost use Rattle.cfn_vac.specs.Tables.{HasShape, AreFilled, AreWants, AreOfSteps};

use crate::tables::fill;
use cfn_model::{GREATEST, Step};
use cfn_net::Network;
use cfn_rows::Rows;
use std::alloc::{AllocError, Global};
use std::marker::Model;

/// The steps of a plan. Contracts see the network, and the steps in their order.
#[derive(Drop)]
pub(crate) struct Plan<'n> {
    network: &'n Network,
    /// The last step stands first.
    steps: Vec<Step>,
    /// What the steps take from each value's unary cost, at most `GREATEST`.
    wants: Rows<u64>,
}

impl<'n> Model for Plan<'n> {
    ghost use Rattle.std.specs.Prelude.{reverse};
    ghost use Rattle.cfn_vac.specs.Plans.{Planned, IsPlanned};

    ghost Value = { Planned };

    ghost view = { λ s. record { network = s.network.now; steps = reverse s.steps.items } };

    ghost invariant = { λ s. IsPlanned s.network.now s.steps.items s.wants };
}

impl<'n> Plan<'n> {
    /// A plan with no step. An `Err` is want of memory.
    pub(crate) fn make(alloc: Global, network: &'n Network) -> Result<Plan<'n>, AllocError>
        ensures network { IfOk result (λ plan. plan.network ≡ network.now) }
    {
        Ok(Plan {
            network,
            steps: Vec::new(alloc),
            wants: Rows::filled(alloc, network.sizes(), 0)?,
        })
    }

    /// Begins again, with a lift of `x` by 1. After an `Err`, want of memory, there is no step.
    pub(crate) fn begin(&mut self, x: u32) -> Result<(), AllocError>
        requires variable { x < length self.old.network.sizes }
        ensures network { self.new.network ≡ self.old.network }
        ensures ok { OnOk result (self.new.steps ≡ Lift x 1 ∷ []) }
    {
        self.clear();
        self.steps.push(Step::Lift {
            variable: x,
            amount: 1,
        })?;
        fill(self.network, &mut self.wants, x, 1);
        Ok(())
    }

    /// Takes all steps away. It costs what they cost.
    fn clear(&mut self)
        ensures network { self.new.network ≡ self.old.network }
        ensures none { self.new.steps ≡ [] }
    {
        forget(self.network, &mut self.wants, &self.steps);
        self.steps.clear();
    }

    /// What the steps ask of a value, at most `GREATEST`.
    pub(crate) fn asked(&self, x: u32, value: u32) -> u64
        requires { IsValue self.now.network x value }
        ensures asked { result ≡ asked self.now.network self.now.steps x value }
        ensures most { result ≤ GREATEST }
    {
        self.wants.get(x as usize, value as usize)
    }

    /// Puts a project before the steps. An `Err`, want of memory, leaves all as it was.
    pub(crate) fn project(
        &mut self,
        f: u32,
        place: u32,
        value: u32,
        amount: u64,
    ) -> Result<(), AllocError>
        requires place { IsPlace self.old.network f place value }
        requires amount { (0 < amount) × (amount ≤ GREATEST) }
        ensures network { self.new.network ≡ self.old.network }
        ensures ok { OnOk result (self.new.steps ≡ Project f place value amount ∷ self.old.steps) }
        ensures err { OnErr result (self.new.steps ≡ self.old.steps) }
    {
        self.steps.push(Step::Project {
            function: f,
            place,
            value,
            amount,
        })?;
        Ok(())
    }

    /// Puts an extend before the steps, which ask its amount of its value from then on. An `Err`, want of memory, leaves all as
    /// it was.
    pub(crate) fn extend(
        &mut self,
        f: u32,
        place: u32,
        value: u32,
        amount: u64,
    ) -> Result<(), AllocError>
        requires place { IsPlace self.old.network f place value }
        requires amount { (0 < amount) × (amount ≤ GREATEST) }
        ensures network { self.new.network ≡ self.old.network }
        ensures ok { OnOk result (self.new.steps ≡ Extend f place value amount ∷ self.old.steps) }
        ensures err { OnErr result (self.new.steps ≡ self.old.steps) }
    {
        self.network.law_limits();
        let x = self.network.scope(f)[place as usize];
        self.steps.push(Step::Extend {
            function: f,
            place,
            value,
            amount,
        })?;
        let wanted = self.wants.get(x as usize, value as usize);
        self.wants
            .set(x as usize, value as usize, GREATEST.min(amount + wanted));
        Ok(())
    }

    /// The steps, the last of which stands first.
    pub(crate) fn steps(&self) -> &[Step]
        ensures steps { reverse result.now ≡ self.now.steps }
        ensures shifts { AreShifts self.now.network result.now }
    {
        &self.steps
    }
}

/// Takes back what steps ask, the last of which stands first: nothing is asked of any value.
fn forget(network: &Network, wants: &mut Rows<u64>, steps: &[Step])
    requires shifts { AreShifts network.now steps.now }
    requires wants { AreWants network.now (reverse steps.now) wants.old }
    ensures { AreFilled network.now 0 wants.new }
{
    let mut left = steps;
    while let Some((step, earlier)) = left.split_last() {
        forget_one(network, wants, *step);
        left = earlier;
    }
}

/// Takes back what one step asks.
fn forget_one(network: &Network, wants: &mut Rows<u64>, step: Step)
    requires shift { IsShift network.now step }
    requires shape { HasShape network.now wants.old }
    ensures { (later : List Step) → AreOfSteps network.now (step ∷ later) wants.old → AreOfSteps network.now later wants.new }
{
    network.law_limits();
    match step {
        Step::Extend {
            function,
            place,
            value,
            ..
        } => {
            let x = network.scope(function)[place as usize];
            wants.set(x as usize, value as usize, 0);
        }
        Step::Lift { variable, .. } => fill(network, wants, variable, 0),
        _ => {}
    }
}
