//! Acts in a ledger, one after another from the root on.

ghost use Rattle.std.specs.Prelude.{◌≡◌};

use crate::networks::Which;
use cfn_certtext::{DecisionText, StepText};
use cfn_check::{Judged, Ledger, Mark};
use cfn_net::Network;
use std::alloc::{AllocError, Global};
use std::test::Fail;

/// The greatest amount of a certificate.
pub(crate) const MOST: u64 = 9223372036854775807;

/// A step, with its numbers in the order of a certificate's line.
#[derive(Clone, Copy)]
pub(crate) enum Move {
    Project(u64, u64, u64, u64),
    Extend(u64, u64, u64, u64),
    Lift(u64, u64),
    Cut(u64, u64),
    CutTuple(u64, u64),
}

impl Move {
    /// The step that a line says.
    fn text(self) -> StepText {
        match self {
            Move::Project(function, place, value, amount) => StepText::Project {
                function,
                place,
                value,
                amount,
            },
            Move::Extend(function, place, value, amount) => StepText::Extend {
                function,
                place,
                value,
                amount,
            },
            Move::Lift(variable, amount) => StepText::Lift { variable, amount },
            Move::Cut(variable, value) => StepText::CutValue { variable, value },
            Move::CutTuple(function, cell) => StepText::CutTuple { function, cell },
        }
    }
}

/// A decision, by its variable and its value.
#[derive(Clone, Copy)]
pub(crate) enum Choice {
    Is(u64, u64),
    Most(u64, u64),
}

impl Choice {
    /// The decision that a line says.
    fn text(self) -> DecisionText {
        match self {
            Choice::Is(variable, value) => DecisionText::Is { variable, value },
            Choice::Most(variable, value) => DecisionText::Most { variable, value },
        }
    }
}

/// What is done or asked, and what is to come of it.
#[derive(Clone, Copy)]
pub(crate) enum Act {
    /// A step that is made at a threshold.
    Done(u64, Move),
    /// A step that is not allowed at a threshold.
    Barred(u64, Move),
    /// A step with a number that is out of range.
    Far(Move),
    /// Takes a decision, which is in range or not.
    Take(Choice, bool),
    /// Refuses a decision, which is in range or not.
    Refuse(Choice, bool),
    /// Asks whether a leaf may be closed at a threshold.
    Closes(u64, bool),
    Floor(u128),
    /// Asks how long the path is.
    Events(usize),
    /// Goes back to the root.
    Undo,
}

/// Whether a step that is judged at a threshold is judged so.
fn is_judged(
    ledger: &mut Ledger,
    network: &Network,
    k: u64,
    step: Move,
    judged: Judged,
) -> Result<bool, AllocError>
    requires { network.now ≡ ledger.old.network }
    ensures { ledger.new.network ≡ ledger.old.network }
{
    Ok(ledger.judge(network, k, step.text())? == judged)
}

/// Makes an act, and answers whether what is to come of it came.
fn goes(ledger: &mut Ledger, network: &Network, root: Mark, act: Act) -> Result<bool, AllocError>
    requires { network.now ≡ ledger.old.network }
    ensures { ledger.new.network ≡ ledger.old.network }
{
    match act {
        Act::Done(k, step) => is_judged(ledger, network, k, step, Judged::Done),
        Act::Barred(k, step) => is_judged(ledger, network, k, step, Judged::NotAllowed),
        Act::Far(step) => is_judged(ledger, network, 0, step, Judged::Range),
        Act::Take(choice, in_range) => Ok(ledger.take(network, choice.text())? == in_range),
        Act::Refuse(choice, in_range) => Ok(ledger.refuse(network, choice.text())? == in_range),
        Act::Closes(k, closes) => Ok(ledger.can_close(k) == closes),
        Act::Floor(floor) => Ok(ledger.floor() == floor),
        Act::Events(events) => Ok(ledger.mark().events == events),
        Act::Undo => {
            if ledger.mark().events < root.events {
                return Ok(false);
            }
            ledger.undo(network, root);
            Ok(true)
        }
    }
}

/// The first act of a list that goes otherwise than it is to, by its place from 0 on.
fn first_odd(alloc: Global, network: &Network, acts: &[Act]) -> Result<Option<usize>, AllocError> {
    let mut ledger = Ledger::make(alloc, network)?;
    let root = ledger.mark();
    for (place, act) in acts.iter().enumerate() {
        if !goes(&mut ledger, network, root, *act)? {
            return Ok(Some(place));
        }
    }
    Ok(None)
}

/// The same in one of the networks.
pub(crate) fn first_odd_in(
    alloc: Global,
    which: Which,
    acts: &[Act],
) -> Result<Option<usize>, Fail> {
    let network = which.network(alloc)?;
    Ok(first_odd(alloc, &network, acts)?)
}
