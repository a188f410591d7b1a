//! The texts of one line or two: refusals, faults, costs.
//!
//! In each of them an `Err` is a call of the desk that failed: some front of the text was said, and the rest was not
//! tried.

ghost use Rattle.std.specs.Prelude.{◌≡◌};
ghost use Rattle.cfn_model.specs.Text.{allowed_word, cost_text, kind_name, memory_fault_text, read_fault_text, refusal_text, value_fault_text, values_fault_text, write_fault_text};
ghost use Rattle.cfn_line.specs.Appending.{Appends};
ghost use Rattle.cfn_line.specs.Words.{word_text};
ghost use Rattle.cfn_line.specs.declared.channel.Channel.TheVariants.{Screen};
ghost use Rattle.cfn_report.specs.Texts.{fault_name, header_text, migrated_text, refused_text, trial_text, usage_text, verified_text};

use crate::report::say_number;
use crate::word::word_of;
use cfn_desk::{Desk, Failed};
use cfn_fault::FaultKind;
use cfn_line::{Channel, Word, send, write_line};
use cfn_model::{Kind, Refusal};

/// Says that a file is refused: the kind of what is wrong, and the number of the word, from 1. An `Err` has said
/// some front of it.
pub fn write_refusal<D: Desk>(refusal: &Refusal, desk: &mut D) -> Result<(), Failed>
    ensures { Appends Screen (D.outside desk.old)
        (refusal_text refusal.now)
        result (D.outside desk.new) }
{
    let words = [
        Word::Name("error"),
        Word::Name(name_of(refusal.kind)),
        Word::Name("at"),
        Word::Number(refusal.ordinal),
    ];
    write_line(Channel::Screen, &words, desk)
}

/// Says that a wcnf file's header is not `p wcnf`, and the number of the word that differs, from 1. An `Err` has said some
/// front of it.
pub fn write_header_fault<D: Desk>(ordinal: u64, desk: &mut D) -> Result<(), Failed>
    ensures { Appends Screen (D.outside desk.old)
        (header_text ordinal) result (D.outside desk.new) }
{
    let words = [
        Word::Name("error"),
        Word::Name("header"),
        Word::Name("at"),
        Word::Number(ordinal),
    ];
    write_line(Channel::Screen, &words, desk)
}

/// Says that a file was not read. An `Err` has said some front of it.
pub fn write_read_fault<D: Desk>(desk: &mut D) -> Result<(), Failed>
    ensures { Appends Screen (D.outside desk.old)
        read_fault_text result (D.outside desk.new) }
{
    send(Channel::Screen, b"error read\n", desk)
}

/// Says that a file was not written. An `Err` has said some front of it.
pub fn write_write_fault<D: Desk>(desk: &mut D) -> Result<(), Failed>
    ensures { Appends Screen (D.outside desk.old)
        write_fault_text result (D.outside desk.new) }
{
    send(Channel::Screen, b"error write\n", desk)
}

/// Says that memory was refused. An `Err` has said some front of it.
pub fn write_memory_fault<D: Desk>(desk: &mut D) -> Result<(), Failed>
    ensures { Appends Screen (D.outside desk.old)
        memory_fault_text result (D.outside desk.new) }
{
    send(Channel::Screen, b"error memory\n", desk)
}

/// Says that the program was called wrongly, and how it is called. An `Err` has said some front of it.
pub fn write_usage<D: Desk>(desk: &mut D) -> Result<(), Failed>
    ensures { Appends Screen (D.outside desk.old)
        usage_text result (D.outside desk.new) }
{
    send(
        Channel::Screen,
        b"error usage\nwcspsolve solve FILE CERT [--workers W] [--budget B] [--seconds S] [--wcnf] [--progress] [--record REC]\nwcspsolve check FILE CERT [--wcnf]\nwcspsolve cost FILE VALUES.. [--wcnf]\nwcspsolve normal FILE [--wcnf]\nwcspsolve trial SEED SIZE [--workers W]\nwcspsolve migrate FILE CERT OUT\nwcspsolve rebase FILE OLD CERT [--workers W] [--budget B] [--seconds S] [--wcnf] [--progress] [--part I] [--parts N]\nwcspsolve merge FILE OUT CERT.. [--wcnf]\nwcspsolve replay FILE REC CERT [--wcnf]\nwcspsolve kbest FILE K CERT [--budget B] [--seconds S] [--wcnf]\nwcspsolve checkbest FILE CERT [--wcnf] [--complete]\n",
        desk,
    )
}

/// Says the cost of an assignment, and whether it is allowed: an assignment whose cost reaches the upper bound is
/// forbidden (toulbar2 user manual, wcsp format). An `Err` has said some front of it.
pub fn write_cost<D: Desk>(upper: u64, cost: u64, desk: &mut D) -> Result<(), Failed>
    ensures { Appends Screen (D.outside desk.old)
        (cost_text upper cost)
        result (D.outside desk.new) }
{
    let words = [Word::Name("cost"), Word::Number(cost), allowed(upper, cost)];
    write_line(Channel::Screen, &words, desk)
}

/// Says that an assignment has another number of values than there are variables. An `Err` has said some front of it.
pub fn write_values_fault<D: Desk>(expected: u64, got: u64, desk: &mut D) -> Result<(), Failed>
    ensures { Appends Screen (D.outside desk.old)
        (values_fault_text expected got)
        result (D.outside desk.new) }
{
    let words = [
        Word::Name("error"),
        Word::Name("values"),
        Word::Name("expected"),
        Word::Number(expected),
        Word::Name("got"),
        Word::Number(got),
    ];
    write_line(Channel::Screen, &words, desk)
}

/// Says that the value of a variable, counted from 0, is not in its domain. An `Err` has said some front of it.
pub fn write_value_fault<D: Desk>(x: u32, desk: &mut D) -> Result<(), Failed>
    ensures { Appends Screen (D.outside desk.old)
        (value_fault_text x)
        result (D.outside desk.new) }
{
    let words = [
        Word::Name("error"),
        Word::Name("value"),
        Word::Name("at"),
        Word::Number(u64::from(x)),
    ];
    write_line(Channel::Screen, &words, desk)
}

/// Says that a certificate is good, with its lower bound and the cost of its best assignment, if it has one. An `Err`
/// has said some front of it.
pub fn write_verified<D: Desk>(lower: u64, best: Option<u64>, desk: &mut D) -> Result<(), Failed>
    ensures { Appends Screen (D.outside desk.old)
        (verified_text lower best)
        result (D.outside desk.new) }
{
    let words = [
        Word::Name("verified"),
        Word::Name("lower"),
        Word::Number(lower),
        Word::Name("best"),
        word_of(best),
    ];
    write_line(Channel::Screen, &words, desk)
}

/// Says how large a drawn network is, and the least cost of its assignments. An `Err` has said some front of it.
pub fn write_trial<D: Desk>(
    variables: u32,
    functions: u32,
    least: u64,
    desk: &mut D,
) -> Result<(), Failed>
    ensures { Appends Screen (D.outside desk.old)
        (trial_text variables functions least)
        result (D.outside desk.new) }
{
    say_number("variables", u64::from(variables), desk)?;
    say_number("functions", u64::from(functions), desk)?;
    say_number("least", least, desk)
}

/// Says that a certificate was written in the second version. An `Err` has said some front of it.
pub fn write_migrated<D: Desk>(desk: &mut D) -> Result<(), Failed>
    ensures { Appends Screen (D.outside desk.old)
        migrated_text result (D.outside desk.new) }
{
    send(Channel::Screen, b"migrated\n", desk)
}

/// Says that a certificate is refused: how its first line that fails does so, and the number of that line, from 1. An
/// `Err` has said some front of it.
pub fn write_refused<D: Desk>(kind: FaultKind, line: u64, desk: &mut D) -> Result<(), Failed>
    ensures { Appends Screen (D.outside desk.old)
        (refused_text kind line)
        result (D.outside desk.new) }
{
    let words = [
        Word::Name("refused"),
        Word::Name(fault_name(kind)),
        Word::Name("at"),
        Word::Number(line),
    ];
    write_line(Channel::Screen, &words, desk)
}

/// The name of the way in which a certificate's line fails.
pub(crate) fn fault_name(kind: FaultKind) -> &'static str
    ensures { result.now ≡ fault_name kind }
{
    match kind {
        FaultKind::Text => "text",
        FaultKind::Network => "network",
        FaultKind::Best => "best",
        FaultKind::Range => "range",
        FaultKind::Project => "project",
        FaultKind::Extend => "extend",
        FaultKind::Lift => "lift",
        FaultKind::Cut => "cut",
        FaultKind::Close => "close",
        FaultKind::Lower => "lower",
    }
}

/// Whether a cost is below the upper bound, as a word.
fn allowed(upper: u64, cost: u64) -> Word
    ensures { word_text result ≡ allowed_word upper cost }
{
    if cost < upper {
        Word::Name("allowed")
    } else {
        Word::Name("forbidden")
    }
}

/// The name of a refusal's kind.
fn name_of(kind: Kind) -> &'static str
    ensures { result.now ≡ kind_name kind }
{
    match kind {
        Kind::Short => "short",
        Kind::NotNumber => "not-number",
        Kind::TooLarge => "too-large",
        Kind::NoVariables => "no-variables",
        Kind::NegativeCount => "negative-count",
        Kind::EmptyDomain => "empty-domain",
        Kind::IntervalDomain => "interval-domain",
        Kind::DomainTooLarge => "domain-too-large",
        Kind::NegativeCost => "negative-cost",
        Kind::Keyword => "keyword",
        Kind::SharedTable => "shared-table",
        Kind::VariableOutOfRange => "variable-out-of-range",
        Kind::RepeatedVariable => "repeated-variable",
        Kind::ValueOutOfRange => "value-out-of-range",
        Kind::TableTooWide => "table-too-wide",
        Kind::TooMany => "too-many",
    }
}
