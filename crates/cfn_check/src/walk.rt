//! The way down and up a certificate's tree, in the order of its lines.

ghost use Rattle.std.specs.Prelude.{◌≡◌, ℕ, ◌<◌, ◌≤◌, ◌↔◌, List, [], ◌∷◌, length, IfOk, OnOk, IsTrue};
ghost use Rattle.cfn_model.specs.declared.step.Event.{Event};
ghost use Rattle.cfn_certtext.specs.Reading.{step_of, decision_of};
ghost use Rattle.cfn_fault.specs.Fault.{refusal_of};
ghost use Rattle.cfn_check.specs.Asking.{HasOnly};
ghost use Rattle.cfn_check.specs.Walking.{Steps, Opens, Closes, Splits, fault_of, with_paths};

use crate::asked::{Judged, decision_in_range};
use crate::ledger::Ledger;
use crate::only::has_only;
use crate::owed::Owed;
use cfn_certtext::{DecisionText, StepText};
use cfn_fault::FaultKind;
use cfn_model::Event as PathEvent;
use cfn_net::Network;
use std::alloc::{AllocError, Global};
use std::marker::Model;

/// A path down a tree with the splits on it that still owe their second side. Contracts see the paths to all nodes
/// that are due, the next one first. It takes memory for the tables, the path's events, and the splits on it.
#[derive(Drop)]
pub struct Walk {
    ledger: Ledger,
    owed: Vec<Owed>,
    over: bool,
    threshold: u64,
    least: u64,
}

impl Model for Walk {
    ghost use Rattle.std.specs.Prelude.{◌≡◌, ◌≤◌, reverse, length};
    ghost use Rattle.cfn_check.specs.Walking.{Walking, AreOwed, due_paths};

    ghost Value = { Walking };

    ghost view = { λ w. record {
      network = w.ledger.network;
      threshold = w.threshold;
      paths = due_paths w.over w.ledger.history (reverse w.owed.items);
      least = w.least;
    } };

    ghost invariant = { λ w. AreOwed w.ledger.network (length w.ledger.history) (reverse w.owed.items) };
}

impl Walk {
    /// The root is due. An `Err` is want of memory.
    pub fn make(alloc: Global, network: &Network, threshold: u64) -> Result<Walk, AllocError>
        ensures { IfOk result (λ w. w ≡ record {
          network = network.now;
          threshold = threshold;
          paths = [] ∷ [];
          least = threshold;
        }) }
    {
        Ok(Walk {
            ledger: Ledger::make(alloc, network)?,
            owed: Vec::new(alloc),
            over: false,
            threshold,
            least: threshold,
        })
    }

    /// The least of the threshold and the floors of the open leaves so far.
    pub fn least(&self) -> u64
        ensures { result ≡ self.now.least }
    {
        self.least
    }

    /// Whether no node is due.
    pub fn is_over(&self) -> bool
        ensures { IsTrue result ↔ (self.now.paths ≡ []) }
    {
        self.over
    }

    /// Judges a step of the block of the node that is due, and makes it if it is allowed. The answer is how it fails.
    pub fn step(
        &mut self,
        network: &Network,
        step: StepText,
    ) -> Result<Option<FaultKind>, AllocError>
        requires { network.now ≡ self.old.network }
        ensures network { self.new.network ≡ self.old.network }
        ensures steps { IfOk result (λ fault. (history : List Event) (paths : List (List Event))
            → self.old.paths ≡ history ∷ paths → Steps self.old self.new (step_of step) history paths fault) }
    {
        let judged = self.ledger.judge(network, self.threshold, step)?;
        Ok(fault_of(judged, step))
    }

    /// The node that is due is an open leaf.
    pub fn open(&mut self, network: &Network) -> Result<(), AllocError>
        requires { network.now ≡ self.old.network }
        ensures network { self.new.network ≡ self.old.network }
        ensures opens { OnOk result ((history : List Event) (paths : List (List Event))
            → self.old.paths ≡ history ∷ paths → Opens self.old self.new history paths) }
    {
        self.least = (self.least as u128).min(self.ledger.floor()) as u64;
        self.leave(network)
    }

    /// The node that is due is a closed leaf. The answer is whether it may be closed.
    pub fn close(&mut self, network: &Network) -> Result<bool, AllocError>
        requires { network.now ≡ self.old.network }
        ensures network { self.new.network ≡ self.old.network }
        ensures closes { IfOk result (λ answer. (history : List Event) (paths : List (List Event))
            → self.old.paths ≡ history ∷ paths → Closes self.old self.new history paths answer) }
    {
        if !self.ledger.can_close(self.threshold) {
            return Ok(false);
        }
        self.leave(network)?;
        Ok(true)
    }

    /// The node that is due is a split. The answer is whether its decision is in range.
    pub fn split(&mut self, network: &Network, decision: DecisionText) -> Result<bool, AllocError>
        requires { network.now ≡ self.old.network }
        ensures network { self.new.network ≡ self.old.network }
        ensures splits { IfOk result (λ answer. (history : List Event) (paths : List (List Event))
            → self.old.paths ≡ history ∷ paths → Splits self.old self.new (decision_of decision) history paths answer) }
    {
        let Some(decision) = decision_in_range(network, decision) else {
            return Ok(false);
        };
        let mark = self.ledger.mark();
        self.ledger.record(network, PathEvent::Took(decision))?;
        self.owed.push(Owed { mark, decision })?;
        Ok(true)
    }

    /// Whether no value is live at the node that is due but those of an assignment. It takes time for the values of all
    /// variables.
    pub fn has_only(&self, network: &Network, values: &[u32]) -> bool
        requires same { network.now ≡ self.now.network }
        requires long { length values.now ≡ length network.now.sizes }
        ensures { (history : List Event) (paths : List (List Event)) → self.now.paths ≡ history ∷ paths
            → IsTrue result ↔ HasOnly network.now history values.now }
    {
        has_only(&self.ledger, network, values)
    }

    /// Goes from a leaf to the next node that is due, if there is one. An `Err` is want of memory.
    pub fn leave(&mut self, network: &Network) -> Result<(), AllocError>
        requires { network.now ≡ self.old.network }
        ensures network { self.new.network ≡ self.old.network }
        ensures leaves { OnOk result ((history : List Event) (paths : List (List Event))
            → self.old.paths ≡ history ∷ paths → self.new ≡ with_paths paths self.old) }
    {
        let Some(owed) = self.owed.pop() else {
            self.over = true;
            return Ok(());
        };
        let Owed { mark, decision } = owed;
        self.ledger.undo(network, mark);
        self.ledger.record(network, PathEvent::Refused(decision))?;
        Ok(())
    }
}

/// How a step fails on which this is answered, if it does.
fn fault_of(judged: Judged, step: StepText) -> Option<FaultKind>
    ensures { result ≡ fault_of judged (step_of step) }
{
    match judged {
        Judged::Done => None,
        Judged::Range => Some(FaultKind::Range),
        Judged::NotAllowed => Some(refusal_of(step)),
    }
}

/// How a step fails that is in range and not allowed.
fn refusal_of(step: StepText) -> FaultKind
    ensures { result ≡ refusal_of (step_of step) }
{
    match step {
        StepText::Project { .. } => FaultKind::Project,
        StepText::Extend { .. } => FaultKind::Extend,
        StepText::Lift { .. } => FaultKind::Lift,
        StepText::CutValue { .. } => FaultKind::Cut,
        StepText::CutTuple { .. } => FaultKind::Cut,
    }
}
