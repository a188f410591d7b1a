//! The two sides of a decision.

ghost use Rattle.std.specs.Prelude.{◌≡◌};
ghost use Rattle.cfn_model.specs.Decisions.{keeps};
ghost use Rattle.cfn_tables.specs.Sides.{is_on, side_variable};

use cfn_model::Decision;

/// The values on one side of a decision: those that it keeps are the first side, the others the second.
#[derive(Clone, Copy)]
pub(crate) enum Side {
    First(Decision),
    Second(Decision),
}

impl Side {
    /// The variable that the decision is about.
    pub(crate) fn variable(self) -> u32
        ensures { result ≡ side_variable self }
    {
        let (Side::First(decision) | Side::Second(decision)) = self;
        let (Decision::Is { variable, .. } | Decision::Most { variable, .. }) = decision;
        variable
    }

    /// Whether a value is on this side.
    pub(crate) fn has(self, value: u32) -> bool
        ensures { result ≡ is_on self value }
    {
        match self {
            Side::First(decision) => keeps(decision, value),
            Side::Second(decision) => !keeps(decision, value),
        }
    }
}

/// Whether a value is on the first side of a decision.
fn keeps(decision: Decision, value: u32) -> bool
    ensures { result ≡ keeps decision value }
{
    match decision {
        Decision::Is { value: only, .. } => only == value,
        Decision::Most { value: most, .. } => value <= most,
    }
}
