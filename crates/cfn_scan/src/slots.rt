//! Rows with one place for each value at each place of a function, the function's places one behind another: amounts that were moved
//! out of a function lie so, and flags of what is banned.

ghost use Rattle.std.specs.Prelude.{◌≡◌, ◌+◌, ◌<◌, length, map, IfOk, IfSome};
ghost use Rattle.cfn_model.specs.Network.{arity, dims_at, function_at};
ghost use Rattle.cfn_model.specs.Steps.{IsPlace};
ghost use Rattle.cfn_scan.specs.Shifts.{offset, width_of};

use cfn_net::Network;
use std::alloc::{AllocError, Global};

/// How many places each function's row has: one for each value of each of its variables. An `Err` is want of memory, or of numbers below
/// 2^32.
pub fn widths(alloc: Global, network: &Network) -> Result<Vec<u32>, AllocError>
    ensures { IfOk result (λ widths. widths.items ≡ map (width_of network.now) network.now.functions) }
{
    let mut widths = Vec::with_capacity(alloc, network.functions() as usize)?;
    for f in 0..network.functions() {
        widths.push(width(network, f).ok_or(AllocError)?)?;
    }
    Ok(widths)
}

/// How many places a function's row has; `None` where that is 2^32 or more.
fn width(network: &Network, f: u32) -> Option<u32>
    requires { f < length network.now.functions }
    ensures { IfSome result (λ width. width ≡ width_of network.now (function_at network.now f)) }
{
    network.law_limits();
    let mut width: u32 = 0;
    for x in network.scope(f) {
        width = width.checked_add(network.size(*x))?;
    }
    Some(width)
}

/// Where a value at a place of `f` stands in the function's row, which has so many places.
pub fn slot_of(network: &Network, f: u32, place: u32, value: u32, width: usize) -> usize
    requires place { IsPlace network.now f place value }
    requires width { width ≡ offset (dims_at network.now f) (arity network.now f) }
    ensures { result ≡ offset (dims_at network.now f) place + value }
{
    network.law_limits();
    let mut slot = value as usize;
    for x in &network.scope(f)[..place as usize] {
        slot += network.size(*x) as usize;
    }
    slot
}
