//! Why reading stops.

ghost use Rattle.std.specs.Prelude.{◌≡◌};
ghost use Rattle.cfn_certread.specs.declared.stop.Stop.TheVariants.{Memory, Text};

use cfn_certtext::TextFault;
use std::alloc::{AllocError, AllocFailed};

/// Why reading stops.
#[derive(Clone, Copy)]
pub(crate) enum Stop {
    /// A line does not follow the grammar.
    Text(TextFault),
    /// Memory was refused.
    Memory,
}

impl From<TextFault> for Stop {
    ghost from_gives = { λ fault stop. stop ≡ Text fault };

    fn from(fault: TextFault) -> Stop {
        Stop::Text(fault)
    }
}

impl From<AllocError> for Stop {
    ghost from_gives = { λ _ stop. stop ≡ Memory };

    fn from(_e: AllocError) -> Stop {
        Stop::Memory
    }
}

impl<T: Drop> From<AllocFailed<T>> for Stop {
    ghost from_gives = { λ _ stop. stop ≡ Memory };

    fn from(_e: AllocFailed<T>) -> Stop {
        Stop::Memory
    }
}
