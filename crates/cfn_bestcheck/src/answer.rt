//! What a list comes to.

ghost use Rattle.std.specs.Prelude.{◌≡◌};
ghost use Rattle.cfn_bestcheck.specs.declared.answer.Stop.TheVariants.{Memory};

use cfn_best::ListFault;
use cfn_fault::FaultKind;
use std::alloc::{AllocError, AllocFailed};

/// What a list of assignments comes to.
#[derive(Clone, Copy, Debug, PartialEq, Eq)]
pub enum BestCheck {
    /// It is good: it has `count` assignments, and every other assignment costs at least `lower`. It is complete where that is
    /// the threshold: the last cost of a list that has as many as were asked for, and else the upper bound.
    Verified {
        lower: u64,
        count: u64,
        complete: bool,
    },
    /// It is not: the line that fails, counted from 1, and how it fails.
    Refused {
        kind: ListFault,
        line: u64,
    },
}

/// Why judging stops.
#[derive(Clone, Copy)]
pub(crate) enum Stop {
    /// A line fails.
    Refused { kind: ListFault, line: u64 },
    /// Memory was refused.
    Memory,
}

impl From<AllocError> for Stop {
    ghost from_gives = { λ _ stop. stop ≡ Memory };

    fn from(_e: AllocError) -> Stop {
        Stop::Memory
    }
}

impl<T: Drop> From<AllocFailed<T>> for Stop {
    ghost from_gives = { λ _ stop. stop ≡ Memory };

    fn from(_e: AllocFailed<T>) -> Stop {
        Stop::Memory
    }
}
