//! Why a file is not read.

ghost use Rattle.std.specs.Prelude.{◌≡◌};
ghost use Rattle.cfn_wcsp.specs.declared.fault.ReadFault.TheVariants.{Memory};

use cfn_model::Refusal;
use std::alloc::{AllocError, AllocFailed};

/// Why a file is not read as a network.
#[derive(Debug, Drop)]
pub enum ReadFault {
    /// A word of the file fails a check: which word, and why.
    Refused(Refusal),
    /// Memory was refused.
    Memory,
}

impl From<AllocError> for ReadFault {
    ghost from_gives = { λ _ e. e ≡ Memory };

    fn from(_e: AllocError) -> ReadFault {
        ReadFault::Memory
    }
}

impl<T: Drop> From<AllocFailed<T>> for ReadFault {
    ghost from_gives = { λ _ e. e ≡ Memory };

    fn from(_e: AllocFailed<T>) -> ReadFault {
        ReadFault::Memory
    }
}
