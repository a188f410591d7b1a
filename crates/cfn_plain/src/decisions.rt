//! What a decision is about, and which values are on its first side.

ghost use Rattle.std.specs.Prelude.{◌≡◌};
ghost use Rattle.cfn_model.specs.Decisions.{variable_of, value_of, keeps};

use cfn_model::Decision;

/// The variable that a decision is about.
pub(crate) fn variable_of(decision: Decision) -> u32
    ensures { result ≡ variable_of decision }
{
    match decision {
        Decision::Is { variable, .. } | Decision::Most { variable, .. } => variable,
    }
}

/// The value that a decision names.
pub(crate) fn value_of(decision: Decision) -> u32
    ensures { result ≡ value_of decision }
{
    match decision {
        Decision::Is { value, .. } | Decision::Most { value, .. } => value,
    }
}

/// Whether a value is on the first side of a decision: it is the one that is named, or at most that.
pub fn keeps(decision: Decision, a: u32) -> bool
    ensures { result ≡ keeps decision a }
{
    match decision {
        Decision::Is { value, .. } => value == a,
        Decision::Most { value, .. } => a <= value,
    }
}
