//! What a certificate comes to.

ghost use Rattle.std.specs.Prelude.{◌≡◌, Err};
ghost use Rattle.cfn_check.specs.declared.answer.Stop.TheVariants.{Refused, Memory};

use cfn_fault::FaultKind;
use std::alloc::{AllocError, AllocFailed};

/// What a certificate comes to.
#[derive(Clone, Copy, Debug, PartialEq, Eq)]
pub enum Check {
    /// It is good: no assignment costs less than `lower`, and `best`, where there is one, is the cost of an assignment.
    Verified { lower: u64, best: Option<u64> },
    /// It is not: the line that fails, counted from 1, and how it fails.
    Refused { kind: FaultKind, line: u64 },
}

/// Why judging stops.
#[derive(Clone, Copy)]
pub(crate) enum Stop {
    /// A line fails.
    Refused { kind: FaultKind, line: u64 },
    /// Memory was refused.
    Memory,
}

impl From<AllocError> for Stop {
    ghost from_gives = { λ _ stop. stop ≡ Memory };

    fn from(_e: AllocError) -> Stop {
        Stop::Memory
    }
}

impl<T: Drop> From<AllocFailed<T>> for Stop {
    ghost from_gives = { λ _ stop. stop ≡ Memory };

    fn from(_e: AllocFailed<T>) -> Stop {
        Stop::Memory
    }
}
