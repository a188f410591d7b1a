//! The lines of a text, one after another.

ghost use Rattle.std.specs.Prelude.{◌≡◌, ◌+◌, ◌==◌, ◌↔◌, [], position, IsTrue};
ghost use Rattle.cfn_replay.specs.Position.{Tells};
ghost use Rattle.cfn_replay.specs.Said.{IsWholeIn, line_in};

use crate::said::{Said, parse};
use std::marker::Model;

/// A text of which lines are taken from its begin.
#[derive(Drop)]
pub(crate) struct Lines<'a> {
    text: &'a [u8],
    /// The first byte behind the lines that were read.
    at: usize,
    /// How many lines were read.
    count: u64,
}

impl<'a> Model for Lines<'a> {
    ghost use Rattle.std.specs.Prelude.{◌≤◌, length, drop};
    ghost use Rattle.cfn_replay.specs.Position.{Position};

    ghost Value = { Position };

    ghost view = { λ r. record { text = r.text.now; rest = drop r.at r.text.now; count = r.count } };

    ghost invariant = { λ r. (r.count ≤ r.at) × (r.at ≤ length r.text.now) };
}

impl<'a> Lines<'a> {
    /// A text of which nothing has been read.
    pub(crate) fn of(text: &'a [u8]) -> Lines<'a>
        ensures { result ≡ record { text = text.now; rest = text.now; count = 0 } }
    {
        Lines {
            text,
            at: 0,
            count: 0,
        }
    }

    /// The number of the line that is due.
    pub(crate) fn due(&self) -> u64
        ensures { result ≡ self.now.count + 1 }
    {
        self.count + 1
    }

    /// Whether nothing is left.
    pub(crate) fn is_over(&self) -> bool
        ensures { IsTrue result ↔ (self.now.rest ≡ []) }
    {
        self.at == self.text.len()
    }

    /// Takes the next line, if one stands there, whatever is due.
    pub(crate) fn next(&mut self) -> Option<Said<'a>>
        ensures text { self.new.text ≡ self.old.text }
        ensures tells { Tells self.old self.new (line_in result) }
        ensures whole { IsWholeIn result }
    {
        let rest = &self.text[self.at..];
        let end = line_end(rest)?;
        let said = parse(&rest[..end])?;
        self.at += end + 1;
        self.count += 1;
        Some(said)
    }
}

/// How many bytes stand before the first LF, if there is one.
fn line_end(rest: &[u8]) -> Option<usize>
    ensures { result ≡ position (λ b. b == 10) rest.now }
{
    rest.iter().position(|byte| *byte == b'\n')
}
