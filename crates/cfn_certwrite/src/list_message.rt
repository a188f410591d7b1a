//! What is said of a list that was checked.
//!
//! In each text an `Err` is a call of the desk that failed: some front of the text was said, and the rest was not tried.

ghost use Rattle.cfn_line.specs.Appending.{Appends};
ghost use Rattle.cfn_line.specs.declared.channel.Channel.TheVariants.{Screen};
ghost use Rattle.cfn_best.specs.declared.kind.ListFault.TheVariants.{Listed};
ghost use Rattle.cfn_certwrite.specs.ListTexts.{list_open_text, list_refused_text, list_verified_text};

use cfn_best::ListFault;
use cfn_desk::{Desk, Failed};
use cfn_line::{Channel, Word, write_line};
use cfn_report::write_refused;

/// Says that a list is good, with its lower bound and the number of its assignments. An `Err` has said some front of it.
pub fn write_list_verified<D: Desk>(lower: u64, count: u64, desk: &mut D) -> Result<(), Failed>
    ensures { Appends Screen (D.outside desk.old)
        (list_verified_text lower count) result (D.outside desk.new) }
{
    let words = [
        Word::Name("verified"),
        Word::Name("lower"),
        Word::Number(lower),
        Word::Name("count"),
        Word::Number(count),
    ];
    write_line(Channel::Screen, &words, desk)
}

/// Says that a list is good, with its lower bound and the number of its assignments, and that it is not complete. An `Err` has
/// said some front of it.
pub fn write_list_open<D: Desk>(lower: u64, count: u64, desk: &mut D) -> Result<(), Failed>
    ensures { Appends Screen (D.outside desk.old)
        (list_open_text lower count) result (D.outside desk.new) }
{
    write_list_verified(lower, count, desk)?;
    write_line(Channel::Screen, &[Word::Name("open")], desk)
}

/// Says that a list is refused: how its first line that fails does so, and the number of that line, from 1. An `Err` has
/// said some front of it.
pub fn write_list_refused<D: Desk>(kind: ListFault, line: u64, desk: &mut D) -> Result<(), Failed>
    ensures { Appends Screen (D.outside desk.old)
        (list_refused_text kind line) result (D.outside desk.new) }
{
    match kind {
        ListFault::Certificate(kind) => write_refused(kind, line, desk),
        ListFault::Listed => say_listed_fault(line, desk),
    }
}

/// Says that a leaf is no leaf of the listed assignment with its number, and the number of its line.
fn say_listed_fault<D: Desk>(line: u64, desk: &mut D) -> Result<(), Failed>
    ensures { Appends Screen (D.outside desk.old)
        (list_refused_text Listed line) result (D.outside desk.new) }
{
    let words = [
        Word::Name("refused"),
        Word::Name("listed"),
        Word::Name("at"),
        Word::Number(line),
    ];
    write_line(Channel::Screen, &words, desk)
}
