//! Whether the numbers of steps and decisions are in range.

ghost use Rattle.std.specs.Prelude.{◌↔◌, IsTrue};
ghost use Rattle.cfn_model.specs.Steps.{IsValue, IsPlace, IsCell};

use cfn_net::Network;

/// Whether `x` is a variable, and `value` one of its values.
pub(crate) fn is_value(network: &Network, x: u32, value: u32) -> bool
    ensures { IsTrue result ↔ IsValue network.now x value }
{
    x < network.variables() && value < network.size(x)
}

/// Whether `f` is a function, `place` one of its places, and `value` one of the values there.
pub(crate) fn is_place(network: &Network, f: u32, place: u32, value: u32) -> bool
    ensures { IsTrue result ↔ IsPlace network.now f place value }
{
    if f >= network.functions() {
        return false;
    }
    network.law_limits();
    match network.scope(f).get(place as usize) {
        Some(x) => value < network.size(*x),
        None => false,
    }
}

/// Whether `f` is a function, and `cell` the number of one of its tuples.
pub(crate) fn is_cell(network: &Network, f: u32, cell: u32) -> bool
    ensures { IsTrue result ↔ IsCell network.now f cell }
{
    f < network.functions() && cell < network.cells(f)
}
