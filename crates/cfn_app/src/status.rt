//! The statuses that a run ends with.

ghost use Rattle.std.specs.Prelude.{◌≡◌, if◌then◌else◌, is_ok};
ghost use Rattle.cfn_app.specs.Endings.{code};
ghost use Rattle.cfn_app.specs.declared.status.Status.TheVariants.{Fault};

use cfn_desk::Failed;

/// How a run ended.
#[derive(Clone, Copy, Debug, PartialEq, Eq)]
pub enum Status {
    /// What was asked for is done: an optimum, a good certificate, or a cost.
    Done,
    /// No assignment is below the file's upper bound.
    Nothing,
    /// A limit that was asked for is spent: the budget of nodes, time, or the leaves of one part.
    LimitSpent,
    /// The words are no command.
    Usage,
    /// The file or an assignment is refused.
    Refused,
    /// A read or a write failed.
    Fault,
    /// Memory was refused.
    NoMemory,
    /// The certificate is refused.
    Disproved,
}

impl Status {
    /// The number of the status, 0 to 7.
    pub fn code(self) -> u8
        ensures { result ≡ code self }
    {
        match self {
            Status::Done => 0,
            Status::Nothing => 1,
            Status::LimitSpent => 2,
            Status::Usage => 3,
            Status::Refused => 4,
            Status::Fault => 5,
            Status::NoMemory => 6,
            Status::Disproved => 7,
        }
    }
}

/// The status that is due where a text was said, or that of a fault.
pub fn ending(said: Result<(), Failed>, due: Status) -> Status
    ensures { result ≡ (if is_ok said then due else Fault) }
{
    match said {
        Ok(()) => due,
        Err(Failed) => Status::Fault,
    }
}
