//! Why a file is not read.

ghost use Rattle.std.specs.Prelude.{◌≡◌};
ghost use Rattle.cfn_wcnf.specs.declared.fault.ReadFault.TheVariants.{Memory};
ghost use Rattle.cfn_wcnf.specs.Giving.{of_words};

use cfn_model::Refusal;
use cfn_wcsp::ReadFault as WordFault;
use std::alloc::AllocError;

/// The first word of a wcnf file that fails a check, counted from 1, and why.
#[derive(Clone, Copy, Debug)]
pub enum Unread {
    /// The word is not the header's: word 1 is not `p`, or word 2 is not `wcnf`.
    Header(u64),
    /// The word is missing, or fails a check of its number.
    Word(Refusal),
}

/// Why a file is not read as a network.
#[derive(Debug, Drop)]
pub enum ReadFault {
    /// A word of the file fails a check: which word, and why.
    Unread(Unread),
    /// Memory was refused.
    Memory,
}

impl From<WordFault> for ReadFault {
    ghost from_gives = { λ fault e. e ≡ of_words fault };

    fn from(fault: WordFault) -> ReadFault {
        match fault {
            WordFault::Refused(refusal) => ReadFault::Unread(Unread::Word(refusal)),
            WordFault::Memory => ReadFault::Memory,
        }
    }
}
