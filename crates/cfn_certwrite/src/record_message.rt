//! What is said of a record that was replayed.
//!
//! In each text an `Err` is a call of the desk that failed: some front of the text was said, and the rest was not tried.

ghost use Rattle.std.specs.Prelude.{◌≡◌};
ghost use Rattle.cfn_line.specs.Appending.{Appends};
ghost use Rattle.cfn_line.specs.declared.channel.Channel.TheVariants.{Screen};
ghost use Rattle.cfn_certwrite.specs.RecordTexts.{record_fault_name, record_refused_text, replayed_text};

use cfn_desk::{Desk, Failed};
use cfn_line::{Channel, Word, send, write_line};
use cfn_record::RecordFault;

/// Says that the certificate was written that a record comes to. An `Err` has said some front of it.
pub fn write_replayed<D: Desk>(desk: &mut D) -> Result<(), Failed>
    ensures { Appends Screen (D.outside desk.old)
        replayed_text result (D.outside desk.new) }
{
    send(Channel::Screen, b"replayed\n", desk)
}

/// Says that a record is refused: how its first line that fails does so, and the number of that line, from 1. An `Err` has
/// said some front of it.
pub fn write_record_refused<D: Desk>(
    kind: RecordFault,
    line: u64,
    desk: &mut D,
) -> Result<(), Failed>
    ensures { Appends Screen (D.outside desk.old)
        (record_refused_text kind line) result (D.outside desk.new) }
{
    let words = [
        Word::Name("refused"),
        Word::Name(fault_name(kind)),
        Word::Name("at"),
        Word::Number(line),
    ];
    write_line(Channel::Screen, &words, desk)
}

/// The name of the way in which a record's line fails.
fn fault_name(kind: RecordFault) -> &'static str
    ensures { result.now ≡ record_fault_name kind }
{
    match kind {
        RecordFault::Text => "text",
        RecordFault::Network => "network",
        RecordFault::Take => "take",
        RecordFault::Give => "give",
        RecordFault::Back => "back",
        RecordFault::Seen => "seen",
        RecordFault::Certificate => "certificate",
    }
}
