//! Steps and decisions as a text has them, and which of them are in range.

ghost use Rattle.std.specs.Prelude.{◌≡◌, ◌<◌, ◌↔◌, length, IsTrue, MatchOption};
ghost use Rattle.cfn_model.specs.Steps.{IsValue, IsDecision, IsPlace, IsCell, InRange};
ghost use Rattle.cfn_certtext.specs.Reading.{step_of, decision_of};
ghost use Rattle.cfn_check.specs.Numbers.{HasSmallNumbers};

use cfn_certtext::{DecisionText, StepText};
use cfn_model::{Decision, Step};
use cfn_net::Network;

/// What became of a step that was asked for.
#[derive(Clone, Copy, Debug, PartialEq, Eq)]
pub enum Judged {
    /// The step is allowed, and made.
    Done,
    /// A number is out of range.
    Range,
    /// All numbers are in range, and the step is not allowed.
    NotAllowed,
}

/// The step that is asked for, where its numbers are in range.
pub(crate) fn in_range(network: &Network, step: StepText) -> Option<Step>
    ensures { MatchOption result (InRange network.now (step_of step) → ⊥)
        (λ found. (found ≡ step_of step) × InRange network.now (step_of step)) }
{
    if is_in_range(network, step) {
        Some(narrowed(step))
    } else {
        None
    }
}

/// Whether a step's numbers are in range.
fn is_in_range(network: &Network, step: StepText) -> bool
    ensures answer { IsTrue result ↔ InRange network.now (step_of step) }
    ensures small { IsTrue result → HasSmallNumbers (step_of step) }
{
    match step {
        StepText::Project {
            function,
            place,
            value,
            ..
        } => is_place(network, function, place, value),
        StepText::Extend {
            function,
            place,
            value,
            ..
        } => is_place(network, function, place, value),
        StepText::Lift { variable, .. } => variable < network.variables() as u64,
        StepText::CutValue { variable, value } => is_value(network, variable, value),
        StepText::CutTuple { function, cell } => is_cell(network, function, cell),
    }
}

/// The same step, with numbers of 32 bits.
fn narrowed(step: StepText) -> Step
    requires { HasSmallNumbers (step_of step) }
    ensures { result ≡ step_of step }
{
    match step {
        StepText::Project {
            function,
            place,
            value,
            amount,
        } => Step::Project {
            function: function as u32,
            place: place as u32,
            value: value as u32,
            amount,
        },
        StepText::Extend {
            function,
            place,
            value,
            amount,
        } => Step::Extend {
            function: function as u32,
            place: place as u32,
            value: value as u32,
            amount,
        },
        StepText::Lift { variable, amount } => Step::Lift {
            variable: variable as u32,
            amount,
        },
        StepText::CutValue { variable, value } => Step::CutValue {
            variable: variable as u32,
            value: value as u32,
        },
        StepText::CutTuple { function, cell } => Step::CutTuple {
            function: function as u32,
            cell: cell as u32,
        },
    }
}

/// The decision that is asked for, where its numbers are in range.
pub(crate) fn decision_in_range(network: &Network, decision: DecisionText) -> Option<Decision>
    ensures { MatchOption result (IsDecision network.now (decision_of decision) → ⊥)
        (λ found. (found ≡ decision_of decision) × IsDecision network.now (decision_of decision)) }
{
    match decision {
        DecisionText::Is { variable, value } => {
            let (variable, value) = value_in_range(network, variable, value)?;
            Some(Decision::Is { variable, value })
        }
        DecisionText::Most { variable, value } => {
            let (variable, value) = value_in_range(network, variable, value)?;
            Some(Decision::Most { variable, value })
        }
    }
}

/// A variable and one of its values, where they are that.
fn value_in_range(network: &Network, x: u64, value: u64) -> Option<(u32, u32)>
    ensures { MatchOption result (IsValue network.now x value → ⊥)
        (λ found. (found.0 ≡ x) × (found.1 ≡ value) × IsValue network.now x value) }
{
    if is_value(network, x, value) {
        Some((x as u32, value as u32))
    } else {
        None
    }
}

/// Whether `x` is a variable, and `value` one of its values.
fn is_value(network: &Network, x: u64, value: u64) -> bool
    ensures answer { IsTrue result ↔ IsValue network.now x value }
    ensures small { IsTrue result → (x < 4294967296) × (value < 4294967296) }
{
    x < network.variables() as u64 && value < network.size(x as u32) as u64
}

/// Whether `f` is a function, `place` one of its places, and `value` one of the values there.
fn is_place(network: &Network, f: u64, place: u64, value: u64) -> bool
    ensures answer { IsTrue result ↔ IsPlace network.now f place value }
    ensures small { IsTrue result → (f < 4294967296) × (place < 4294967296) × (value < 4294967296) }
{
    network.law_limits();
    has_value(network, f, place, value)
}

/// Whether `f` is a function, `place` one of its places, and `value` one of the values there.
fn has_value(network: &Network, f: u64, place: u64, value: u64) -> bool
    ensures { IsTrue result ↔ IsPlace network.now f place value }
{
    if f >= network.functions() as u64 {
        return false;
    }
    network.law_limits();
    match network.scope(f as u32).get(place as usize) {
        Some(x) => value < network.size(*x) as u64,
        None => false,
    }
}

/// Whether `f` is a function, and `cell` the number of one of its tuples.
fn is_cell(network: &Network, f: u64, cell: u64) -> bool
    ensures answer { IsTrue result ↔ IsCell network.now f cell }
    ensures small { IsTrue result → (f < 4294967296) × (cell < 4294967296) }
{
    f < network.functions() as u64 && cell < network.cells(f as u32) as u64
}
