//! What is said of a search for a list.

ghost use Rattle.std.specs.Prelude.{◌≡◌, map};
ghost use Rattle.cfn_model.specs.Text.{line, text};
ghost use Rattle.cfn_line.specs.Appending.{Appends};
ghost use Rattle.cfn_line.specs.declared.channel.Channel.TheVariants.{Screen};
ghost use Rattle.cfn_ranking.specs.Certificates.{list_certificate_of, solution_of};
ghost use Rattle.cfn_certwrite.specs.ListTexts.{cost_words, end_lines, list_report, list_word};

use crate::number::write_number;
use cfn_desk::{Desk, Failed};
use cfn_line::{Channel, Word, write_line, write_list_behind};
use cfn_ranking::{BestCertificate, ListWord, Listed};

/// Says what a search for a list found: how many assignments are listed, each with its cost, the lower bound of all
/// others, and how the search ended. A line of at most 4,096 bytes is one call. It takes no memory.
///
/// An `Err` is a call of the desk that failed: some front of the text was said, and the rest was not tried.
pub fn write_list_report<D: Desk>(
    certificate: &BestCertificate,
    word: ListWord,
    desk: &mut D,
) -> Result<(), Failed>
    ensures { Appends Screen (D.outside desk.old)
        (list_report (list_certificate_of certificate.now) word) result (D.outside desk.new) }
{
    let list: &[Listed] = &certificate.list;
    write_number(Channel::Screen, "count", list.len() as u64, desk)?;
    say_list(list, desk)?;
    say_end(certificate.lower, word, desk)
}

/// Says a line for each listed assignment.
fn say_list<D: Desk>(list: &[Listed], desk: &mut D) -> Result<(), Failed>
    ensures { Appends Screen (D.outside desk.old)
        (text (map (λ listed. cost_words (solution_of listed)) list.now)) result (D.outside desk.new) }
{
    for listed in list {
        say_listed(listed, desk)?;
    }
    Ok(())
}

/// Says the line of a listed assignment: its cost, and its values.
fn say_listed<D: Desk>(listed: &Listed, desk: &mut D) -> Result<(), Failed>
    ensures { Appends Screen (D.outside desk.old)
        (line (cost_words (solution_of listed.now))) result (D.outside desk.new) }
{
    let words = [
        Word::Name("cost"),
        Word::Number(listed.cost),
        Word::Name("values"),
    ];
    write_list_behind(Channel::Screen, &words, &listed.values, desk)
}

/// Says the lower bound, and how the search ended.
fn say_end<D: Desk>(lower: u64, word: ListWord, desk: &mut D) -> Result<(), Failed>
    ensures { Appends Screen (D.outside desk.old)
        (text (end_lines lower word)) result (D.outside desk.new) }
{
    write_number(Channel::Screen, "lower", lower, desk)?;
    write_line(
        Channel::Screen,
        &[Word::Name("result"), Word::Name(name_of(word))],
        desk,
    )
}

/// The word for how a search ended.
fn name_of(word: ListWord) -> &'static str
    ensures { result.now ≡ list_word word }
{
    match word {
        ListWord::Complete => "complete",
        ListWord::Budget => "budget",
        ListWord::Time => "time",
        ListWord::Memory => "memory",
    }
}
