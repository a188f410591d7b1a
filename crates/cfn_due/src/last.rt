//! What was put last while events are noted. As long as nothing is taken away all of it waits, and need not be put again.

ghost use Rattle.std.specs.Prelude.{◌≡◌, true, Some};
ghost use Rattle.cfn_model.specs.Network.{Network};
ghost use Rattle.cfn_due.specs.Dues.{Dues};
ghost use Rattle.cfn_due.specs.Remembered.{IsLast};

/// What was put last of each kind.
#[derive(Clone, Copy)]
pub(crate) struct Last {
    /// The variable whose unary costs rose.
    pub risen: Option<u32>,
    /// The variable that lost values.
    pub lost: Option<u32>,
    /// The function whose costs rose, or of which a tuple was cut.
    pub changed: Option<u32>,
}

impl Last {
    /// Nothing was put yet.
    pub fn nothing() -> Last
        ensures { (P : Network) (due : Dues) → IsLast P result due }
    {
        Last {
            risen: None,
            lost: None,
            changed: None,
        }
    }
}

/// Whether what was put last is of this number.
pub(crate) fn is_of(last: Option<u32>, number: u32) -> bool
    ensures { result ≡ true → last ≡ Some number }
{
    last == Some(number)
}
