//! The next word of the lines that are no comments, and the next number.

ghost use Rattle.std.specs.Prelude.{◌≡◌, IfOk};
ghost use Rattle.cfn_model.specs.Reading.{word_at, natural_at};
ghost use Rattle.cfn_wcsp.specs.Fields.{check_of, InRange};
ghost use Rattle.cfn_wcsp.specs.Giving.{Gives};
ghost use Rattle.cfn_wcnf.specs.Lines.{text_words};

use crate::lines::Lines;
use cfn_model::Kind;
use cfn_wcsp::{Field, ReadFault, numeral, refused};
use std::marker::Model;

/// A text of whose lines that are no comments words are taken from left to right. Contracts see the words that are left
/// and the ordinal of the next one.
#[derive(Drop)]
pub(crate) struct Tokens<'a> {
    lines: Lines<'a>,
    next: u64,
}

impl<'a> Model for Tokens<'a> {
    ghost use Rattle.std.specs.Prelude.{◌≤◌, ◌+◌, ◌^◌};
    ghost use Rattle.cfn_model.specs.Reading.{At};
    ghost use Rattle.cfn_wcnf.specs.Places.{words_left, bytes_left};

    ghost Value = { At };

    ghost view = { λ t. record { words = words_left t.lines; next = t.next } };

    ghost invariant = { λ t. t.next + bytes_left t.lines ≤ 2 ^ 63 };
}

impl<'a> Tokens<'a> {
    /// The words of a text, of which none has been taken.
    pub(crate) fn new(text: &'a [u8]) -> Tokens<'a>
        ensures { result ≡ record { words = text_words text.now; next = 1 } }
    {
        Tokens {
            lines: Lines::new(text),
            next: 1,
        }
    }

    /// The next word and its ordinal.
    pub(crate) fn word(&mut self) -> Result<(&'a [u8], u64), ReadFault>
        ensures gives { Gives (λ w. (w.0.now, self.new)) result (word_at self.old) }
        ensures ordinal { IfOk result (λ w. w.1 ≡ self.old.next) }
    {
        let ordinal = self.next;
        match self.lines.word() {
            None => Err(refused(Kind::Short, ordinal)),
            Some(word) => {
                self.next += 1;
                Ok((word, ordinal))
            }
        }
    }

    /// The next number, which passes the checks of its field.
    #[tactic(auto, unfolding(cfn_model::specs::Reading::natural_at))]
    pub(crate) fn natural(&mut self, field: Field) -> Result<u64, ReadFault>
        ensures gives { Gives (λ n. (n, self.new)) result (natural_at (check_of field) self.old) }
        ensures range { IfOk result (λ n. InRange field n) }
    {
        let (word, ordinal) = self.word()?;
        let number = numeral(word, ordinal)?;
        match field.check(number) {
            Some(kind) => Err(refused(kind, ordinal)),
            None => Ok(number.unsigned_abs()),
        }
    }
}
