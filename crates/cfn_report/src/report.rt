//! The report of a search.

ghost use Rattle.std.specs.Prelude.{◌≡◌, [], ◌∷◌, None, Some, decimal, map};
ghost use Rattle.cfn_model.specs.Text.{line, report as report_text, result_word, row_words, text, upper_lines};
ghost use Rattle.cfn_proof.specs.Certificates.{certificate_of, solution_of};
ghost use Rattle.cfn_line.specs.Appending.{Appends};
ghost use Rattle.cfn_line.specs.Words.{word_text};
ghost use Rattle.cfn_line.specs.declared.channel.Channel.TheVariants.{Screen};
ghost use Rattle.cfn_report.specs.Texts.{bound_lines, end_lines, size_lines};

use crate::word::word_of;
use cfn_desk::{Desk, Failed};
use cfn_line::{Channel, Word, write_line, write_list};
use cfn_model::{ResultWord, Row};
use cfn_net::Scored;
use cfn_proof::Certificate;

/// What is reported of a search.
#[derive(Clone, Copy)]
pub struct Report<'a> {
    /// How many workers were asked for.
    pub workers: u32,
    /// The certificate that was written.
    pub certificate: &'a Certificate,
    /// Bounds in the order in which they held.
    pub rows: &'a [Row],
    /// How many nodes were searched.
    pub nodes: u64,
    /// How the search ended.
    pub word: ResultWord,
}

/// Says a report, a line of at most 4,096 bytes at a time. It takes no memory.
///
/// An `Err` is a call of the desk that failed: some front of the text was said, and the rest was not tried.
pub fn write<D: Desk>(report: &Report, desk: &mut D) -> Result<(), Failed>
    ensures { Appends Screen (D.outside desk.old)
        (report_text report.now.workers (certificate_of report.now.certificate.now)
        report.now.rows.now report.now.nodes report.now.word)
        result (D.outside desk.new) }
{
    say_sizes(report.certificate, report.workers, desk)?;
    say_rows(report.rows, desk)?;
    say_bounds(report.certificate, desk)?;
    say_end(report.nodes, report.word, desk)
}

/// Says how large the network is, and how many workers there were.
fn say_sizes<D: Desk>(certificate: &Certificate, workers: u32, desk: &mut D) -> Result<(), Failed>
    ensures { Appends Screen (D.outside desk.old)
        (text (size_lines certificate.now.variables certificate.now.functions workers))
        result (D.outside desk.new) }
{
    say_number("variables", u64::from(certificate.variables), desk)?;
    say_number("functions", u64::from(certificate.functions), desk)?;
    say_number("workers", u64::from(workers), desk)
}

/// Says a line for each row of bounds.
fn say_rows<D: Desk>(rows: &[Row], desk: &mut D) -> Result<(), Failed>
    ensures { Appends Screen (D.outside desk.old)
        (text (map row_words rows.now)) result (D.outside desk.new) }
{
    for row in rows {
        say_row(*row, desk)?;
    }
    Ok(())
}

/// Says the line of one row.
fn say_row<D: Desk>(row: Row, desk: &mut D) -> Result<(), Failed>
    ensures { Appends Screen (D.outside desk.old)
        (line (row_words row)) result (D.outside desk.new) }
{
    let words = [
        Word::Name("row"),
        Word::Number(row.lower),
        word_of(row.upper),
    ];
    write_line(Channel::Screen, &words, desk)
}

/// Says the lower bound, and the best assignment that is known.
fn say_bounds<D: Desk>(certificate: &Certificate, desk: &mut D) -> Result<(), Failed>
    ensures { Appends Screen (D.outside desk.old)
        (text (bound_lines certificate.now.lower (solution_of certificate.now.best)))
        result (D.outside desk.new) }
{
    say_number("lower", certificate.lower, desk)?;
    say_best(&certificate.best, desk)
}

/// Says the best assignment that is known.
fn say_best<D: Desk>(best: &Option<Scored>, desk: &mut D) -> Result<(), Failed>
    ensures { Appends Screen (D.outside desk.old)
        (text (upper_lines (solution_of best.now))) result (D.outside desk.new) }
{
    match best {
        Some(scored) => say_scored(scored, desk),
        None => say_none(desk),
    }
}

/// Says what a buffer holds.
fn say_scored<D: Desk>(scored: &Scored, desk: &mut D) -> Result<(), Failed>
    ensures { Appends Screen (D.outside desk.old)
        (text (upper_lines scored.now.held)) result (D.outside desk.new) }
{
    match scored.values() {
        Some(values) => say_solution(scored.price(), values, desk),
        None => say_none(desk),
    }
}

/// Says that no assignment is known.
fn say_none<D: Desk>(desk: &mut D) -> Result<(), Failed>
    ensures { Appends Screen (D.outside desk.old)
        (text (upper_lines None)) result (D.outside desk.new) }
{
    write_line(
        Channel::Screen,
        &[Word::Name("upper"), Word::Name("none")],
        desk,
    )
}

/// Says an assignment with its cost.
fn say_solution<D: Desk>(cost: u64, values: &[u32], desk: &mut D) -> Result<(), Failed>
    ensures { Appends Screen (D.outside desk.old)
        (text (upper_lines (Some (record { cost = cost; values = values.now })))) result (D.outside desk.new) }
{
    say_number("upper", cost, desk)?;
    write_list(Channel::Screen, "values", values, desk)
}

/// Says how many nodes were searched, and how the search ended.
fn say_end<D: Desk>(nodes: u64, word: ResultWord, desk: &mut D) -> Result<(), Failed>
    ensures { Appends Screen (D.outside desk.old)
        (text (end_lines nodes word)) result (D.outside desk.new) }
{
    say_number("nodes", nodes, desk)?;
    write_line(
        Channel::Screen,
        &[Word::Name("result"), Word::Name(name_of(word))],
        desk,
    )
}

/// Says a line of a name and a number.
pub(crate) fn say_number<D: Desk>(
    name: &'static str,
    number: u64,
    desk: &mut D,
) -> Result<(), Failed>
    ensures { Appends Screen (D.outside desk.old)
        (line (name.now ∷ decimal number ∷ [])) result (D.outside desk.new) }
{
    write_line(
        Channel::Screen,
        &[Word::Name(name), Word::Number(number)],
        desk,
    )
}

/// The word for how a search ended.
fn name_of(word: ResultWord) -> &'static str
    ensures { result.now ≡ result_word word }
{
    match word {
        ResultWord::Optimum => "optimum",
        ResultWord::Nothing => "none",
        ResultWord::Budget => "budget",
        ResultWord::Time => "time",
        ResultWord::Part => "part",
        ResultWord::Memory => "memory",
    }
}
