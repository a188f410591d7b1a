//! The reader of certificates: the events of a text, one pass from its first byte, with no memory.
//!
//! A line is read whole before its first event is told: its words are parted and looked at, the line that is due says
//! which lines may come in this version, and of the tree's shape no more is kept than how many trees are still to come.

ghost use Rattle.std.specs.Prelude.{◌≡◌, ◌+◌, ◌<◌, ◌≤◌, List, [], length, drop, position, IfErr, IfNone, IfOk, IfSome, IsErr, OnErr, ◌==◌, ◌↔◌, IsTrue};
ghost use Rattle.cfn_model.specs.declared.limits.TheConstants.{GREATEST};
ghost use Rattle.cfn_fault.specs.Lines as lines;
ghost use Rattle.cfn_fault.specs.Lines.{Line, State};
ghost use Rattle.cfn_certtext.specs.Reading.{HasRead, NoneBegins, Tells, item_of, values_behind};
ghost use Rattle.cfn_certtext.specs.declared.stage.Stage.TheVariants as stages;
ghost use Rattle.cfn_certtext.specs.Parsed.{IsWholeLine, line_of_parsed};
ghost use Rattle.cfn_certtext.specs.Stages.{owed_of, value_of, values_of};
ghost use Rattle.cfn_certtext.specs.Steps.{IsNextLine, IsNoLine};

use crate::event::{Event, Item, TextFault};
use crate::fields::{Fields, numeral};
use crate::parsed::Parsed;
use crate::parsing::parse;
use crate::stage::{Stage, after};
use std::marker::Model;

/// A certificate's text of which events are taken from its begin.
#[derive(Drop)]
pub struct Reader<'a> {
    text: &'a [u8],
    /// The first byte behind the lines that were read.
    at: usize,
    /// How many lines were read.
    count: u64,
    stage: Stage,
    /// The values of the last line that are still to be told.
    values: Fields<'a>,
}

impl<'a> Model for Reader<'a> {
    ghost use Rattle.std.specs.Prelude.{◌≤◌, length, drop};
    ghost use Rattle.cfn_certtext.specs.Reading.{Reading};
    ghost use Rattle.cfn_certtext.specs.Stages.{owed_of, values_of};

    ghost Value = { Reading };

    ghost view = { λ r. record { text = r.text.now; rest = drop r.at r.text.now; count = r.count; due = r.stage; left = values_of r.values } };

    ghost invariant = { λ r. (r.count ≤ r.at) × (r.at ≤ length r.text.now) × (owed_of r.stage ≤ r.count) };
}

impl<'a> Reader<'a> {
    /// A text of which nothing has been read.
    pub fn new(text: &'a [u8]) -> Reader<'a>
        ensures start { result ≡ record {
          text = text.now;
          rest = text.now;
          count = 0;
          due = stages.Version;
          left = [];
        } }
        ensures read { HasRead result [] lines.AtVersion }
    {
        Reader {
            text,
            at: 0,
            count: 0,
            stage: Stage::Version,
            values: Fields::none(),
        }
    }

    /// Takes the next event. At an `Err` a line does not follow the grammar, and each further call answers it again.
    pub fn next(&mut self) -> Result<Event, TextFault>
        ensures text { self.new.text ≡ self.old.text }
        // Of the lines that were read, an event tells the next one, one value more, or that nothing follows.
        ensures event { IfOk result (λ event. (ls : List Line) (s : State) →
            HasRead self.old ls s → Tells self.old self.new ls s event) }
        // A fault is at the line behind those that were read, and no certificate begins with that line too.
        ensures line { IfErr result (λ fault. fault.line ≡ self.old.count + 1) }
        ensures fault { OnErr result ((ls : List Line) (s : State) →
            HasRead self.old ls s → NoneBegins self.old) }
        // It comes where no value is left to be told, leaves all but what is due, and comes again.
        ensures told { OnErr result (self.old.left ≡ []) }
        ensures failed { OnErr result (self.new ≡ record self.old { due = stages.Failed }) }
        ensures again { self.old.due ≡ stages.Failed → self.old.left ≡ [] → IsErr result }
    {
        if let Some(word) = self.values.word() {
            let item = Item::Value(value(word));
            return Ok(Event {
                line: self.count,
                item,
            });
        }
        let rest = &self.text[self.at..];
        if rest.is_empty() && is_over(self.stage) {
            return Ok(Event {
                line: self.count,
                item: Item::Over,
            });
        }
        match next_line(rest, self.stage) {
            Some(next) => {
                self.at += next.length;
                self.count += 1;
                self.stage = next.stage;
                self.values = next.values;
                Ok(Event {
                    line: self.count,
                    item: next.item,
                })
            }
            None => {
                self.stage = Stage::Failed;
                Err(TextFault {
                    line: self.count + 1,
                })
            }
        }
    }
}

/// Whether nothing is due.
fn is_over(stage: Stage) -> bool
    ensures { IsTrue result ↔ (stage ≡ stages.Over) }
{
    matches!(stage, Stage::Over)
}

/// The next line, as it was read.
#[derive(Drop)]
struct NextLine<'a> {
    /// How many bytes it has.
    length: usize,
    /// What is due behind it.
    stage: Stage,
    item: Item,
    values: Fields<'a>,
}

/// Reads the line at the front of the rest of a text, where one may come.
fn next_line(rest: &[u8], stage: Stage) -> Option<NextLine<'_>>
    requires few { owed_of stage ≤ GREATEST }
    ensures some { IfSome result (λ next. IsNextLine rest.now stage next.length next.stage next.item (values_of next.values)) }
    ensures none { IfNone result (IsNoLine rest.now stage) }
{
    let end = line_end(rest)?;
    let parsed = parse(&rest[..end])?;
    let stage = after(stage, &parsed)?;
    let (item, values) = first_event(parsed);
    Some(NextLine {
        length: end + 1,
        stage,
        item,
        values,
    })
}

/// How many bytes stand before the first LF, if there is one.
fn line_end(rest: &[u8]) -> Option<usize>
    ensures { result ≡ position (λ b. b == 10) rest.now }
{
    rest.iter().position(|byte| *byte == b'\n')
}

/// The first event of a line, and the values that are still to be told.
fn first_event(parsed: Parsed<'_>) -> (Item, Fields<'_>)
    requires { IsWholeLine parsed }
    ensures item { result.0 ≡ item_of (line_of_parsed parsed.entry) }
    ensures left { values_of result.1 ≡ values_behind (line_of_parsed parsed.entry) }
{
    match parsed {
        Parsed::One(item) => (item, Fields::none()),
        Parsed::Values { first, others } => (Item::Value(first), others),
    }
}

/// The number that a word of values is.
fn value(word: &[u8]) -> u64
    ensures { result ≡ value_of word.now }
{
    numeral(word).unwrap_or(0)
}
