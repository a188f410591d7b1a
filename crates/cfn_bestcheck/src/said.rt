//! What one line says, by the words on it.

ghost use Rattle.std.specs.Prelude.{◌≡◌, Some, IfSome};
ghost use Rattle.std.specs.Str.{bytes_eq};
ghost use Rattle.cfn_fault.specs.Decoding.{word_from, words_in};
ghost use Rattle.cfn_certtext.specs.Giving.{Gives};
ghost use Rattle.cfn_certtext.specs.Parsed.{IsWholeLine, line_of_parsed};
ghost use Rattle.cfn_best.specs.Decoding.{count_line, heading_line, line_said, line_said_by, lists_line};
ghost use Rattle.cfn_best.specs.Lines.{Says};
ghost use Rattle.cfn_bestcheck.specs.Said.{IsWholeSaid, line_of_said};

use cfn_certtext::{Fields, Item, Parsed, parse as parse_certificate};

/// What a line says: one of the list's own lines, or one that certificates have too.
#[derive(Drop)]
pub(crate) enum Said<'a> {
    Heading,
    Count(u64),
    Listed(u64),
    Item(Item),
    Values { first: u64, others: Fields<'a> },
}

/// What a line says, given without its LF, where it is one of a list.
#[tactic(auto, unfolding(cfn_best::specs::Decoding::line_said))]
pub(crate) fn parse(front: &[u8]) -> Option<Said<'_>>
    ensures gives { Gives line_of_said result (line_said (words_in front.now)) }
    ensures whole { IfSome result IsWholeSaid }
{
    let mut fields = Fields::of(front);
    let word = fields.word()?;
    parse_behind(front, word, fields)
}

/// What a line says, behind its first word.
#[tactic(auto, unfolding(cfn_best::specs::Decoding::line_said_by))]
fn parse_behind<'a>(front: &'a [u8], word: &[u8], fields: Fields<'a>) -> Option<Said<'a>>
    requires { word_from (words_in front.now) ≡ Some (word.now, fields) }
    ensures gives { Gives line_of_said result (line_said_by word.now fields.entry) }
    ensures whole { IfSome result IsWholeSaid }
{
    if is(word, b"wcspbest") {
        return heading(fields);
    }
    if is(word, b"count") {
        return count(fields);
    }
    if is(word, b"listed") {
        return listed(fields);
    }
    Some(certificate(parse_certificate(front)?))
}

/// The version, which is 1.
#[tactic(auto, unfolding(cfn_best::specs::Decoding::heading_line))]
fn heading<'a>(mut fields: Fields<'a>) -> Option<Said<'a>>
    ensures gives { Gives line_of_said result (heading_line fields.entry) }
    ensures whole { IfSome result IsWholeSaid }
{
    let word = fields.word()?;
    if !is(word, b"1") {
        return None;
    }
    fields.end()?;
    Some(Said::Heading)
}

/// Whether a word is this one.
fn is(word: &[u8], key: &[u8]) -> bool
    ensures { result ≡ bytes_eq word.now key.now }
{
    word == key
}

/// How many assignments were asked for, one at least.
#[tactic(auto, unfolding(cfn_best::specs::Decoding::count_line))]
fn count<'a>(mut fields: Fields<'a>) -> Option<Said<'a>>
    ensures gives { Gives line_of_said result (count_line fields.entry) }
    ensures whole { IfSome result IsWholeSaid }
{
    let count = fields.amount()?;
    fields.end()?;
    Some(Said::Count(count))
}

/// The number of a listed assignment, counted from 0.
#[tactic(auto, unfolding(cfn_best::specs::Decoding::lists_line))]
fn listed<'a>(mut fields: Fields<'a>) -> Option<Said<'a>>
    ensures gives { Gives line_of_said result (lists_line fields.entry) }
    ensures whole { IfSome result IsWholeSaid }
{
    let number = fields.number()?;
    fields.end()?;
    Some(Said::Listed(number))
}

/// A line that certificates have too.
fn certificate<'a>(parsed: Parsed<'a>) -> Said<'a>
    requires { IsWholeLine parsed }
    ensures says { line_of_said result ≡ Says (line_of_parsed parsed.entry) }
    ensures whole { IsWholeSaid result }
{
    match parsed {
        Parsed::One(item) => Said::Item(item),
        Parsed::Values { first, others } => Said::Values { first, others },
    }
}
