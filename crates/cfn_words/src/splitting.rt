//! A text is split at its white space, word by word.

ghost use Rattle.std.specs.Prelude.{◌≡◌, ◌+◌, ◌-◌, ◌<◌, ◌≤◌, ◌↔◌, [], ◌∷◌, length, slice_range, position, not, IsNone, IfSome, IfNone};
ghost use Rattle.cfn_model.specs.Words.{is_space, IsWord};
ghost use Rattle.cfn_words.specs.Splitting.{left};

use std::marker::Model;

/// Where a word stands in its text.
#[derive(Clone, Copy)]
pub struct Word {
    /// The index of its first byte.
    pub start: usize,
    /// The index behind its last byte.
    pub end: usize,
    /// Which word of the text it is, counted from 1.
    pub ordinal: u64,
}

/// A text of which words are taken from left to right.
#[derive(Drop)]
pub struct Words<'a> {
    text: &'a [u8],
    at: usize,
    count: u64,
}

impl<'a> Model for Words<'a> {
    ghost use Rattle.std.specs.Prelude.{◌≤◌, length};
    ghost use Rattle.cfn_words.specs.Splitting.{Place};

    ghost Value = { Place };

    ghost view = { λ w. record { text = w.text.now; at = w.at; count = w.count } };

    ghost invariant = { λ w. (w.count ≤ w.at) × (w.at ≤ length w.text.now) };
}

impl<'a> Words<'a> {
    /// The words of a text, of which none has been taken.
    pub fn new(text: &'a [u8]) -> Words<'a>
        ensures { result ≡ record { text = text.now; at = 0; count = 0 } }
    {
        Words {
            text,
            at: 0,
            count: 0,
        }
    }

    /// Takes the next word: `None` where no word is left, and then nothing changes.
    pub fn next(&mut self) -> Option<Word>
        ensures none { IsNone result ↔ (left self.old ≡ []) }
        ensures unchanged { IfNone result (self.new ≡ self.old) }
        // The word is the first of those that were left, and the others stay.
        ensures first { IfSome result (λ word. left self.old
            ≡ slice_range self.old.text word.start word.end ∷ left self.new) }
        ensures word { IfSome result (λ word. IsWord (slice_range self.old.text word.start word.end)) }
        ensures from { IfSome result (λ word. self.old.at ≤ word.start) }
        ensures within { IfSome result (λ word. (word.start < word.end)
            × (word.end ≤ length self.old.text)) }
        ensures after { IfSome result (λ word. self.new
            ≡ record self.old { at = word.end; count = word.ordinal }) }
        ensures ordinal { IfSome result (λ word. word.ordinal ≡ self.old.count + 1) }
    {
        let start = self.at + word_start(&self.text[self.at..])?;
        let rest = &self.text[start..];
        let end = start + word_end(rest).unwrap_or(rest.len());
        self.at = end;
        self.count += 1;
        Some(Word {
            start,
            end,
            ordinal: self.count,
        })
    }

    /// The number that the next word has or would have, counted from 1.
    pub fn next_ordinal(&self) -> u64
        ensures { result ≡ self.now.count + 1 }
    {
        self.count + 1
    }

    /// The whole text, of which the places of words are slices.
    pub fn text(&self) -> &'a [u8]
        ensures { result.now ≡ self.now.text }
    {
        self.text
    }
}

fn is_space(byte: u8) -> bool
    ensures { result ≡ is_space byte }
{
    byte == b' ' || (9..=13).contains(&byte)
}

/// How many bytes stand before the first word, if there is a word.
fn word_start(bytes: &[u8]) -> Option<usize>
    ensures { result ≡ position (λ b. not (is_space b)) bytes.now }
{
    bytes.iter().position(|byte| !is_space(*byte))
}

/// How many bytes stand before the first white space, if there is white space.
fn word_end(bytes: &[u8]) -> Option<usize>
    ensures { result ≡ position is_space bytes.now }
{
    bytes.iter().position(|byte| is_space(*byte))
}
