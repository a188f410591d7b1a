//! The words of one line, taken from left to right, and the numbers that they are.

ghost use Rattle.std.specs.Prelude.{◌≡◌, [], ◌==◌, IfNone, IfSome, is_some, position};
ghost use Rattle.std.specs.List.{list_all};
ghost use Rattle.cfn_model.specs.Words.{is_digit};
ghost use Rattle.cfn_fault.specs.Decoding.{amount_from, has_one_form, number_from, numbers_in, numeral, word_from, words_in};
ghost use Rattle.cfn_certtext.specs.Giving.{Gives};

use cfn_words::number;
use std::marker::Model;

/// The words of a line that are left.
#[derive(Drop)]
pub struct Fields<'a> {
    bytes: &'a [u8],
    ended: bool,
}

impl<'a> Model for Fields<'a> {
    ghost use Rattle.std.specs.Prelude.{ℕ, List, [], if◌then◌else◌};
    ghost use Rattle.cfn_fault.specs.Decoding.{words_in};

    ghost Value = { List (List ℕ) };

    ghost view = { λ f. if f.ended then [] else words_in f.bytes.now };
}

impl<'a> Fields<'a> {
    /// The words of a line, given without its LF.
    pub fn of(front: &'a [u8]) -> Fields<'a>
        ensures { result ≡ words_in front.now }
    {
        Fields {
            bytes: front,
            ended: false,
        }
    }

    /// No words.
    pub fn none() -> Fields<'a>
        ensures { result ≡ [] }
    {
        Fields {
            bytes: b"",
            ended: true,
        }
    }

    /// The same words again.
    pub fn again(&self) -> Fields<'a>
        ensures { result ≡ self.now }
    {
        Fields {
            bytes: self.bytes,
            ended: self.ended,
        }
    }

    /// Takes the next word.
    pub fn word(&mut self) -> Option<&'a [u8]>
        ensures gives { Gives (λ w. (w.now, self.new)) result (word_from self.old) }
        ensures unchanged { IfNone result (self.new ≡ self.old) }
    {
        if self.ended {
            return None;
        }
        let bytes = self.bytes;
        match first_space(bytes) {
            Some(space) => {
                self.bytes = &bytes[space + 1..];
                Some(&bytes[..space])
            }
            None => {
                self.ended = true;
                Some(bytes)
            }
        }
    }

    /// Takes the next word, a number.
    #[tactic(auto, unfolding(cfn_fault::specs::Decoding::number_from))]
    pub fn number(&mut self) -> Option<u64>
        ensures { Gives (λ n. (n, self.new)) result (number_from self.old) }
    {
        numeral(self.word()?)
    }

    /// Takes the next word, a number of at least 1.
    #[tactic(auto, unfolding(cfn_fault::specs::Decoding::amount_from))]
    pub fn amount(&mut self) -> Option<u64>
        ensures { Gives (λ n. (n, self.new)) result (amount_from self.old) }
    {
        let amount = self.number()?;
        if amount == 0 { None } else { Some(amount) }
    }

    /// Whether no word is left.
    pub fn end(&self) -> Option<()>
        ensures some { IfSome result (λ _. self.now ≡ []) }
        ensures none { IfNone result (self.now ≡ [] → ⊥) }
    {
        if self.ended { Some(()) } else { None }
    }

    /// Whether each word that is left is a number.
    pub fn are_numbers(&self) -> bool
        ensures { result ≡ is_some (numbers_in self.now) }
    {
        let mut left = self.again();
        while let Some(word) = left.word() {
            if numeral(word).is_none() {
                return false;
            }
        }
        true
    }
}

/// How many bytes stand before the first space, if there is one.
fn first_space(bytes: &[u8]) -> Option<usize>
    ensures { result ≡ position (λ b. b == 32) bytes.now }
{
    bytes.iter().position(|byte| *byte == b' ')
}

/// The number that a word is: `0`, or digits that begin with 1 to 9, at most 9,223,372,036,854,775,807.
pub fn numeral(word: &[u8]) -> Option<u64>
    ensures { result ≡ numeral word.now }
{
    if !has_one_form(word) || !are_digits(word) {
        return None;
    }
    match number(word) {
        Ok(value) => Some(value.unsigned_abs()),
        Err(_) => None,
    }
}

/// Whether a word has a byte, and no 0 before another one.
fn has_one_form(word: &[u8]) -> bool
    ensures { result ≡ has_one_form word.now }
{
    !word.is_empty() && (word.len() == 1 || word[0] != b'0')
}

fn are_digits(word: &[u8]) -> bool
    ensures { result ≡ list_all is_digit word.now }
{
    word.iter().all(|byte| (b'0'..=b'9').contains(byte))
}
