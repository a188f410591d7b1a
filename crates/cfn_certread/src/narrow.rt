//! Steps and decisions of a text whose numbers have 32 bits.

ghost use Rattle.std.specs.Prelude.{◌≡◌, Some, None, if◌then◌else◌, IsTrue, ◌<◌};
ghost use Rattle.cfn_certtext.specs.Reading.{step_of, decision_of};
ghost use Rattle.cfn_certread.specs.Narrowing.{is_small, is_small_step, is_small_decision};

use cfn_certtext::{DecisionText, StepText};
use cfn_model::{Decision, Step};

/// A number with 32 bits, where it is below 2^32.
fn small(number: u64) -> Option<u32>
    ensures { result ≡ (if is_small number then Some number else None) }
{
    if number < 4294967296 {
        Some(number as u32)
    } else {
        None
    }
}

/// The step that a line says, where all its numbers but the amount are below 2^32.
pub(crate) fn small_step(step: StepText) -> Option<Step>
    ensures { result ≡ (if is_small_step (step_of step) then Some (step_of step) else None) }
{
    match step {
        StepText::Project {
            function,
            place,
            value,
            amount,
        } => Some(Step::Project {
            function: small(function)?,
            place: small(place)?,
            value: small(value)?,
            amount,
        }),
        StepText::Extend {
            function,
            place,
            value,
            amount,
        } => Some(Step::Extend {
            function: small(function)?,
            place: small(place)?,
            value: small(value)?,
            amount,
        }),
        StepText::Lift { variable, amount } => Some(Step::Lift {
            variable: small(variable)?,
            amount,
        }),
        StepText::CutValue { variable, value } => Some(Step::CutValue {
            variable: small(variable)?,
            value: small(value)?,
        }),
        StepText::CutTuple { function, cell } => Some(Step::CutTuple {
            function: small(function)?,
            cell: small(cell)?,
        }),
    }
}

/// The decision that a line says, where all its numbers are below 2^32.
pub(crate) fn small_decision(decision: DecisionText) -> Option<Decision>
    ensures { result ≡ (if is_small_decision (decision_of decision) then Some (decision_of decision) else None) }
{
    match decision {
        DecisionText::Is { variable, value } => Some(Decision::Is {
            variable: small(variable)?,
            value: small(value)?,
        }),
        DecisionText::Most { variable, value } => Some(Decision::Most {
            variable: small(variable)?,
            value: small(value)?,
        }),
    }
}
