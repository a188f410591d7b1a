//! A line of a name and a number.

ghost use Rattle.std.specs.Prelude.{◌≡◌, [], ◌∷◌, decimal};
ghost use Rattle.cfn_model.specs.Text.{line};
ghost use Rattle.cfn_line.specs.Appending.{Appends, IsOpen};

use cfn_desk::{Desk, Failed};
use cfn_line::{Channel, Word, write_line};

/// Writes a line of a name and a number.
pub fn write_number<D: Desk>(
    channel: Channel,
    name: &'static str,
    number: u64,
    desk: &mut D,
) -> Result<(), Failed>
    requires { IsOpen channel (D.outside desk.old).calls }
    ensures { Appends channel (D.outside desk.old)
        (line (name.now ∷ decimal number ∷ [])) result (D.outside desk.new) }
{
    write_line(channel, &[Word::Name(name), Word::Number(number)], desk)
}
