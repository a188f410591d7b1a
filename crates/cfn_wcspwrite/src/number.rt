//! Numbers, each with the byte behind it.

ghost use Rattle.std.specs.Prelude.{[], ◌∷◌, ◌++◌, decimal, flat_map};
ghost use Rattle.cfn_line.specs.Appending.{Adds};
ghost use Rattle.cfn_wcspwrite.specs.Canonical.{spaced};

use cfn_desk::{Desk, Failed};
use cfn_line::{Line, Word, add_word};

/// What stands behind a word that is not the last one of its line.
pub const SPACE: u8 = b' ';

/// What stands behind the last word of a line.
pub const LF: u8 = b'\n';

/// Adds a number and the byte behind it.
pub fn add_number<D: Desk>(
    into: &mut Line,
    number: u64,
    end: u8,
    desk: &mut D,
) -> Result<(), Failed>
    ensures { Adds (D.outside desk.old) into.old (decimal number ++ end ∷ []) result
        (D.outside desk.new) into.new }
{
    add_word(into, Word::Number(number), end, desk)
}

/// Adds numbers, each with a space behind it.
pub fn add_numbers<D: Desk>(into: &mut Line, numbers: &[u32], desk: &mut D) -> Result<(), Failed>
    ensures { Adds (D.outside desk.old) into.old (spaced numbers.now) result
        (D.outside desk.new) into.new }
{
    for number in numbers {
        add_number(into, u64::from(*number), SPACE, desk)?;
    }
    Ok(())
}
