//! What one line says, by the words on it.

ghost use Rattle.std.specs.Prelude.{◌≡◌, Some, IfSome};
ghost use Rattle.std.specs.Str.{bytes_eq};
ghost use Rattle.cfn_fault.specs.Decoding.{at_end, word_from, words_in};
ghost use Rattle.cfn_certtext.specs.Giving.{Gives};
ghost use Rattle.cfn_certtext.specs.Parsed.{IsWholeLine, line_of_parsed};
ghost use Rattle.cfn_record.specs.Decoding.{heading_line, line_said};
ghost use Rattle.cfn_record.specs.Lines as lines;
ghost use Rattle.cfn_record.specs.Lines.{Says};
ghost use Rattle.cfn_replay.specs.Said.{IsWholeSaid, line_of_said};
ghost use Rattle.cfn_replay.specs.Words.{back_line, budget_line, give_line, said_by, sweep_line, take_line};

use cfn_certtext::{Fields, Item, Parsed, parse as parse_certificate};

/// An event, as its line has it: each number is at most 9,223,372,036,854,775,807.
#[derive(Clone, Copy)]
pub(crate) enum EventLine {
    Take {
        worker: u64,
        want: u64,
        leaf: u64,
        grant: u64,
    },
    Give {
        worker: u64,
        leaf: u64,
        grant: u64,
        threshold: u64,
        seen: u64,
    },
    Back {
        worker: u64,
        leaf: u64,
        grant: u64,
    },
    Recall,
    Sweep {
        seen: u64,
    },
}

/// What a line says: one of the record's own lines, or one that certificates have too.
#[derive(Drop)]
pub(crate) enum Said<'a> {
    Heading,
    Budget(u64),
    Event(EventLine),
    Item(Item),
    Values { first: u64, others: Fields<'a> },
}

/// What a line says, given without its LF, where it is one of a record.
#[tactic(auto, unfolding(cfn_record::specs::Decoding::line_said))]
pub(crate) fn parse(front: &[u8]) -> Option<Said<'_>>
    ensures gives { Gives line_of_said result (line_said (words_in front.now)) }
    ensures whole { IfSome result IsWholeSaid }
{
    let mut fields = Fields::of(front);
    let word = fields.word()?;
    parse_behind(front, word, fields)
}

/// What a line says, behind its first word.
#[tactic(auto, unfolding(crate::specs::Words::said_by))]
fn parse_behind<'a>(front: &'a [u8], word: &[u8], fields: Fields<'a>) -> Option<Said<'a>>
    requires { word_from (words_in front.now) ≡ Some (word.now, fields) }
    ensures gives { Gives line_of_said result (said_by word.now fields.entry) }
    ensures whole { IfSome result IsWholeSaid }
{
    if is(word, b"wcsprecord") {
        return heading(fields);
    }
    if is(word, b"budget") {
        return budget(fields);
    }
    if is(word, b"take") {
        return take(fields);
    }
    if is(word, b"give") {
        return give(fields);
    }
    if is(word, b"back") {
        return back(fields);
    }
    if is(word, b"recall") {
        return recall(fields);
    }
    if is(word, b"sweep") {
        return sweep(fields);
    }
    Some(certificate(parse_certificate(front)?))
}

/// Whether a word is this one.
fn is(word: &[u8], key: &[u8]) -> bool
    ensures { result ≡ bytes_eq word.now key.now }
{
    word == key
}

/// The version, which is 1.
#[tactic(auto, unfolding(cfn_record::specs::Decoding::heading_line))]
fn heading<'a>(mut fields: Fields<'a>) -> Option<Said<'a>>
    ensures gives { Gives line_of_said result (heading_line fields.entry) }
    ensures whole { IfSome result IsWholeSaid }
{
    let word = fields.word()?;
    if !is(word, b"1") {
        return None;
    }
    fields.end()?;
    Some(Said::Heading)
}

/// How many nodes the search might make.
#[tactic(auto, unfolding(crate::specs::Words::budget_line))]
fn budget<'a>(mut fields: Fields<'a>) -> Option<Said<'a>>
    ensures gives { Gives line_of_said result (budget_line fields.entry) }
    ensures whole { IfSome result IsWholeSaid }
{
    let budget = fields.number()?;
    fields.end()?;
    Some(Said::Budget(budget))
}

/// A leaf that was taken.
#[tactic(auto, unfolding(crate::specs::Words::take_line))]
fn take<'a>(mut fields: Fields<'a>) -> Option<Said<'a>>
    ensures gives { Gives line_of_said result (take_line fields.entry) }
    ensures whole { IfSome result IsWholeSaid }
{
    let worker = fields.number()?;
    let want = fields.number()?;
    let leaf = fields.number()?;
    let grant = fields.number()?;
    fields.end()?;
    Some(Said::Event(EventLine::Take {
        worker,
        want,
        leaf,
        grant,
    }))
}

/// A piece that was given.
#[tactic(auto, unfolding(crate::specs::Words::give_line))]
fn give<'a>(mut fields: Fields<'a>) -> Option<Said<'a>>
    ensures gives { Gives line_of_said result (give_line fields.entry) }
    ensures whole { IfSome result IsWholeSaid }
{
    let worker = fields.number()?;
    let leaf = fields.number()?;
    let grant = fields.number()?;
    let threshold = fields.number()?;
    let seen = fields.number()?;
    fields.end()?;
    Some(Said::Event(EventLine::Give {
        worker,
        leaf,
        grant,
        threshold,
        seen,
    }))
}

/// A leaf that was given back.
#[tactic(auto, unfolding(crate::specs::Words::back_line))]
fn back<'a>(mut fields: Fields<'a>) -> Option<Said<'a>>
    ensures gives { Gives line_of_said result (back_line fields.entry) }
    ensures whole { IfSome result IsWholeSaid }
{
    let worker = fields.number()?;
    let leaf = fields.number()?;
    let grant = fields.number()?;
    fields.end()?;
    Some(Said::Event(EventLine::Back {
        worker,
        leaf,
        grant,
    }))
}

/// The call for all leaves.
fn recall<'a>(fields: Fields<'a>) -> Option<Said<'a>>
    ensures gives { Gives line_of_said result (at_end lines.Recall fields.entry) }
    ensures whole { IfSome result IsWholeSaid }
{
    fields.end()?;
    Some(Said::Event(EventLine::Recall))
}

/// A sweep.
#[tactic(auto, unfolding(crate::specs::Words::sweep_line))]
fn sweep<'a>(mut fields: Fields<'a>) -> Option<Said<'a>>
    ensures gives { Gives line_of_said result (sweep_line fields.entry) }
    ensures whole { IfSome result IsWholeSaid }
{
    let seen = fields.number()?;
    fields.end()?;
    Some(Said::Event(EventLine::Sweep { seen }))
}

/// A line that certificates have too.
fn certificate<'a>(parsed: Parsed<'a>) -> Said<'a>
    requires { IsWholeLine parsed }
    ensures says { line_of_said result ≡ Says (line_of_parsed parsed.entry) }
    ensures whole { IsWholeSaid result }
{
    match parsed {
        Parsed::One(item) => Said::Item(item),
        Parsed::Values { first, others } => Said::Values { first, others },
    }
}
