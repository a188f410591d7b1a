//! The number that a word is.

ghost use Rattle.std.specs.Prelude.{◌≡◌, ◌≤◌, ◌<◌, Option, Some, None, if◌then◌else◌, nat_lt, IsTrue};
ghost use Rattle.std.specs.List.{list_all};
ghost use Rattle.cfn_model.specs.Words.{number_of, digits_behind, is_digit, greatest};

use cfn_model::{GREATEST, NumberFault};

/// The number that a word is: an optional `-` and one or more decimal digits, whose number is at most
/// 9,223,372,036,854,775,807. Leading zeros and `-0` are taken.
pub fn number(word: &[u8]) -> Result<i64, NumberFault>
    ensures { result ≡ number_of word.now }
{
    let (negative, digits) = match word {
        [b'-', rest @ ..] => (true, rest),
        _ => (false, word),
    };
    if digits.is_empty() || !are_digits(digits) {
        return Err(NumberFault::NotNumber);
    }
    let value = magnitude(digits).ok_or(NumberFault::TooLarge)? as i64;
    Ok(if negative { -value } else { value })
}

fn are_digits(word: &[u8]) -> bool
    ensures { result ≡ list_all is_digit word.now }
{
    word.iter().all(|byte| (b'0'..=b'9').contains(byte))
}

/// The number that decimal digits are, unless it is above the greatest.
fn magnitude(digits: &[u8]) -> Option<u64>
    requires { IsTrue (list_all is_digit digits.now) }
    ensures { let n = digits_behind 0 digits.now in
        result ≡ (if nat_lt greatest n then None else Some n) }
{
    let mut value = 0;
    for byte in digits {
        let digit = u64::from(*byte - b'0');
        if value > (GREATEST - digit) / 10 {
            return None;
        }
        value = 10 * value + digit;
    }
    Some(value)
}
