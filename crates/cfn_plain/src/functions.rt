//! What a network says of a function that may not be there: a function that is missing has no variables and costs
//! nothing.

ghost use Rattle.std.specs.Prelude.{◌≡◌, ◌<◌, ◌+◌, ◌≤◌, length};
ghost use Rattle.cfn_model.specs.declared.limits.TheConstants.{GREATEST};
ghost use Rattle.cfn_model.specs.Network.{Fits, scope_at, variable_at, dims_at, entry_at, function_at, cell};

use cfn_net::Network;

/// The variables of a function.
pub(crate) fn scope(network: &Network, f: u32) -> &[u32]
    ensures { result.now ≡ scope_at network.now f }
{
    if f < network.functions() {
        network.scope(f)
    } else {
        &[]
    }
}

/// The variable of a function at a place, or 0 where there is none.
pub(crate) fn variable(network: &Network, f: u32, place: usize) -> u32
    ensures { result ≡ variable_at network.now f place }
{
    match scope(network, f).get(place) {
        Some(x) => *x,
        None => 0,
    }
}

/// The number of a tuple of a function.
pub(crate) fn number(network: &Network, f: u32, tuple: &[u32]) -> u32
    requires { Fits (dims_at network.now f) tuple.now }
    ensures { result ≡ cell (dims_at network.now f) tuple.now }
{
    if f < network.functions() {
        network.cell(f, tuple)
    } else {
        0
    }
}

/// The entry of a function at a tuple.
pub(crate) fn entry(network: &Network, f: u32, tuple: &[u32]) -> u64
    requires { Fits (dims_at network.now f) tuple.now }
    ensures value { result ≡ entry_at network.now f tuple.now }
    ensures small { result ≤ GREATEST }
{
    network.law_limits();
    if f < network.functions() {
        network.entry(f, network.cell(f, tuple))
    } else {
        0
    }
}
