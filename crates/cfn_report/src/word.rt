//! A number that may be missing, as a word.

ghost use Rattle.std.specs.Prelude.{◌≡◌};
ghost use Rattle.cfn_model.specs.Text.{number_or_none};
ghost use Rattle.cfn_line.specs.Words.{word_text};

use cfn_line::Word;

/// A number, or `none`.
pub fn word_of(number: Option<u64>) -> Word
    ensures { word_text result ≡ number_or_none number }
{
    match number {
        Some(number) => Word::Number(number),
        None => Word::Name("none"),
    }
}
