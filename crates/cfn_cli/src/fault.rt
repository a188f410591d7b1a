//! Why words gave no command.

ghost use Rattle.std.specs.Prelude.{◌≡◌, ◌≢◌};
ghost use Rattle.clap.specs.Words.{kind_of};
ghost use Rattle.clap.specs.declared.error.kind.ErrorKind.TheVariants.{OutOfMemory};
ghost use Rattle.cfn_cli.specs.declared.fault.CliFault.TheVariants.{Memory};

use clap::error::ErrorKind;
use std::alloc::{AllocError, AllocFailed};

/// Why words gave no command.
#[derive(Clone, Copy, Debug, PartialEq, Eq)]
pub enum CliFault {
    /// The words spell no command, or they ask for help.
    Usage,
    /// Memory was refused. This says nothing of the words.
    Memory,
}

impl From<AllocError> for CliFault {
    ghost from_gives = { λ _ fault. fault ≡ Memory };

    fn from(_error: AllocError) -> CliFault {
        CliFault::Memory
    }
}

impl<T: Drop> From<AllocFailed<T>> for CliFault {
    ghost from_gives = { λ _ fault. fault ≡ Memory };

    fn from(_error: AllocFailed<T>) -> CliFault {
        CliFault::Memory
    }
}

/// The fault that an error of clap stands for.
pub(crate) fn fault_of(error: &clap::Error) -> CliFault
    ensures memory { kind_of error.now ≡ OutOfMemory → result ≡ CliFault.Memory }
    ensures usage { kind_of error.now ≢ OutOfMemory → result ≡ CliFault.Usage }
{
    match error.kind() {
        ErrorKind::OutOfMemory => CliFault::Memory,
        _ => CliFault::Usage,
    }
}
