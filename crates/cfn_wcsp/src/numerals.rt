//! The next word of a file, and the next number.

ghost use Rattle.std.specs.Prelude.{◌≡◌, pos, None, IfOk};
ghost use Rattle.cfn_model.specs.Words.{IsWord, number_of};
ghost use Rattle.cfn_model.specs.Reading.{word_at, number_in, number_at, natural_at};
ghost use Rattle.cfn_wcsp.specs.Giving.{Gives, state};
ghost use Rattle.cfn_wcsp.specs.Fields.{check_of, InRange};
ghost use Rattle.cfn_wcsp.specs.Scopes.{check_next};

use crate::fault::ReadFault;
use crate::field::Field;
use crate::scope::Scope;
use cfn_model::{Kind, NumberFault, Refusal};
use cfn_words::{Words, number};

/// The fault of a word that fails a check: its kind, and the word's ordinal, counted from 1.
pub fn refused(kind: Kind, ordinal: u64) -> ReadFault
    ensures { result ≡ ReadFault.Refused (record { kind = kind; ordinal = ordinal }) }
{
    ReadFault::Refused(Refusal { kind, ordinal })
}

/// The next word and its ordinal.
pub(crate) fn word<'a>(words: &mut Words<'a>) -> Result<(&'a [u8], u64), ReadFault>
    ensures gives { Gives (λ w. (w.0.now, state words.new)) result (word_at (state words.old)) }
    ensures ordinal { IfOk result (λ w. w.1 ≡ (state words.old).next) }
    ensures word { IfOk result (λ w. IsWord w.0.now) }
{
    let ordinal = words.next_ordinal();
    match words.next() {
        None => Err(refused(Kind::Short, ordinal)),
        Some(word) => Ok((&words.text()[word.start..word.end], ordinal)),
    }
}

/// The number that the word with an ordinal is: an optional `-` and decimal digits, at most 2^63 - 1 in absolute value
/// (toulbar2 user manual, wcsp format). A word that is no such number is refused at its ordinal.
pub fn numeral(word: &[u8], ordinal: u64) -> Result<i64, ReadFault>
    ensures { Gives (λ z. z) result (number_in (number_of word.now) ordinal) }
{
    match number(word) {
        Ok(number) => Ok(number),
        Err(NumberFault::NotNumber) => Err(refused(Kind::NotNumber, ordinal)),
        Err(NumberFault::TooLarge) => Err(refused(Kind::TooLarge, ordinal)),
    }
}

/// The next number and its ordinal.
pub(crate) fn integer(words: &mut Words<'_>) -> Result<(i64, u64), ReadFault>
    ensures gives { Gives (λ n. (n.0, state words.new)) result (number_at (state words.old)) }
    ensures ordinal { IfOk result (λ n. n.1 ≡ (state words.old).next) }
{
    let (word, ordinal) = word(words)?;
    Ok((numeral(word, ordinal)?, ordinal))
}

/// The next number, which passes the checks of its field.
#[tactic(auto, unfolding(cfn_model::specs::Reading::natural_at))]
pub(crate) fn natural(words: &mut Words<'_>, field: Field) -> Result<u64, ReadFault>
    ensures gives { Gives (λ n. (n, state words.new)) result
        (natural_at (check_of field) (state words.old)) }
    ensures range { IfOk result (λ n. InRange field n) }
{
    let (number, ordinal) = integer(words)?;
    match field.check(number) {
        Some(kind) => Err(refused(kind, ordinal)),
        None => Ok(number.unsigned_abs()),
    }
}

/// The next number as a scope's next variable.
#[tactic(auto, unfolding(cfn_model::specs::Reading::natural_at))]
pub(crate) fn variable(words: &mut Words<'_>, scope: &Scope<'_>) -> Result<u32, ReadFault>
    ensures gives { Gives (λ x. (x, state words.new)) result
        (natural_at (check_next scope.now) (state words.old)) }
    ensures passed { IfOk result (λ x. check_next scope.now (pos x) ≡ None) }
{
    let (number, ordinal) = integer(words)?;
    match scope.check(number) {
        Ok(x) => Ok(x),
        Err(kind) => Err(refused(kind, ordinal)),
    }
}
