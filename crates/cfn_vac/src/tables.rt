//! Numbers for the values of a network's variables, in rows.

ghost use Rattle.std.specs.Prelude.{◌<◌, length};
ghost use Rattle.cfn_vac.specs.Tables.{HasShape, IsFilled};

use cfn_net::Network;
use cfn_rows::Rows;

/// Gives all values of a variable a number.
pub(crate) fn fill(network: &Network, rows: &mut Rows<u64>, x: u32, number: u64)
    requires shape { HasShape network.now rows.old }
    requires variable { x < length network.now.sizes }
    ensures { IsFilled network.now x number rows.old rows.new }
{
    for value in 0..network.size(x) {
        rows.set(x as usize, value as usize, number);
    }
}
