//! Where a text goes, and sending bytes there in one call.

ghost use Rattle.cfn_line.specs.Appending.{Appends, IsOpen};

use cfn_desk::{Desk, Failed};

/// Where a text goes.
#[derive(Clone, Copy)]
pub enum Channel {
    /// Behind the bytes of the file that is being written.
    File,
    /// To standard output.
    Screen,
}

/// Sends bytes, in one call. After an `Err` some front of them was sent.
#[inline(always)]
pub fn send<D: Desk>(channel: Channel, bytes: &[u8], desk: &mut D) -> Result<(), Failed>
    requires { IsOpen channel (D.outside desk.old).calls }
    ensures { Appends channel (D.outside desk.old) bytes.now result (D.outside desk.new) }
{
    match channel {
        Channel::File => desk.put(bytes),
        Channel::Screen => desk.say(bytes),
    }
}
