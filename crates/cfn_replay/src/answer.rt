//! What a record comes to.

ghost use Rattle.std.specs.Prelude.{◌≡◌};
ghost use Rattle.cfn_replay.specs.declared.answer.Stop.TheVariants.{Memory, Refused};

use cfn_record::RecordFault;
use std::alloc::{AllocError, AllocFailed};

/// What the text of a record comes to.
#[derive(Drop)]
pub enum Replay {
    /// It is that of a good record. These are the bytes of the certificate that it comes to.
    Certificate(Vec<u8>),
    /// It is not: the first line that fails, counted from 1, and how it fails.
    Refused { kind: RecordFault, line: u64 },
    /// Memory was refused.
    Memory,
}

/// Why a replay stops.
#[derive(Clone, Copy)]
pub(crate) enum Stop {
    /// A line fails.
    Refused { kind: RecordFault, line: u64 },
    /// Memory was refused.
    Memory,
}

/// A line that fails.
pub(crate) fn refused(kind: RecordFault, line: u64) -> Stop
    ensures { result ≡ Refused kind line }
{
    Stop::Refused { kind, line }
}

impl From<AllocError> for Stop {
    ghost from_gives = { λ _ stop. stop ≡ Memory };

    fn from(_e: AllocError) -> Stop {
        Stop::Memory
    }
}

impl<T: Drop> From<AllocFailed<T>> for Stop {
    ghost from_gives = { λ _ stop. stop ≡ Memory };

    fn from(_e: AllocFailed<T>) -> Stop {
        Stop::Memory
    }
}
