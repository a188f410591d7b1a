//! The texts of certificates that are merged.

ghost use Rattle.cfn_line.specs.Appending.{Appends};
ghost use Rattle.cfn_line.specs.declared.channel.Channel.TheVariants.{Screen};
ghost use Rattle.cfn_report.specs.Texts.{merged_text, refused_in_text};

use crate::message::fault_name;
use crate::word::word_of;
use cfn_desk::{Desk, Failed};
use cfn_fault::FaultKind;
use cfn_line::{Channel, Word, write_line};

/// Says that certificates were merged, with the lower bound and the cost of the best assignment, if there is one, of what they
/// come to. An `Err` has said some front of it.
pub fn write_merged<D: Desk>(lower: u64, best: Option<u64>, desk: &mut D) -> Result<(), Failed>
    ensures { Appends Screen (D.outside desk.old)
        (merged_text lower best)
        result (D.outside desk.new) }
{
    let words = [
        Word::Name("merged"),
        Word::Name("lower"),
        Word::Number(lower),
        Word::Name("best"),
        word_of(best),
    ];
    write_line(Channel::Screen, &words, desk)
}

/// Says that one of several certificates is refused: how its first line that fails does so, the number of that line, and which
/// certificate it is, both from 1. An `Err` has said some front of it.
pub fn write_refused_in<D: Desk>(
    kind: FaultKind,
    line: u64,
    number: u64,
    desk: &mut D,
) -> Result<(), Failed>
    ensures { Appends Screen (D.outside desk.old)
        (refused_in_text kind line number)
        result (D.outside desk.new) }
{
    let words = [
        Word::Name("refused"),
        Word::Name(fault_name(kind)),
        Word::Name("at"),
        Word::Number(line),
        Word::Name("in"),
        Word::Number(number),
    ];
    write_line(Channel::Screen, &words, desk)
}
