//! By how many steps enforcing may go at a node: four for each value of a variable and of a place of a function, and 1,024
//! more, but never more than 2^20.

ghost use Rattle.std.specs.Prelude.{◌≡◌, ◌+◌, ◌<◌, ◌≤◌, min, length};
ghost use Rattle.cfn_model.specs.Network.{scope_at};
ghost use Rattle.cfn_dive.specs.declared.limit.TheConstants.{MOST_STEPS};
ghost use Rattle.cfn_dive.specs.Limit.{values_of, variable_values as all_values, place_values as all_place_values, step_limit as limit_of};

use cfn_net::Network;

/// The greatest limit, and the greatest sum that counts.
pub const MOST_STEPS: usize = 1_048_576;

/// The limit for a network.
pub fn step_limit(network: &Network) -> usize
    ensures { result ≡ limit_of network.now }
{
    let values = capped(variable_values(network), place_values(network));
    MOST_STEPS.min(1_024 + 4 * values)
}

/// A sum and a number more, or the greatest sum.
fn capped(sum: usize, more: usize) -> usize
    requires { sum ≤ MOST_STEPS }
    ensures { result ≡ min MOST_STEPS (sum + more) }
{
    MOST_STEPS.min(sum.saturating_add(more))
}

/// How many values variables have.
fn variable_values(network: &Network) -> usize
    ensures { result ≡ min MOST_STEPS (all_values network.now) }
{
    let mut total = 0;
    for x in 0..network.variables() {
        total = capped(total, network.size(x) as usize);
    }
    total
}

/// How many values stand at the places of functions.
fn place_values(network: &Network) -> usize
    ensures { result ≡ min MOST_STEPS (all_place_values network.now) }
{
    let mut total = 0;
    for f in 0..network.functions() {
        total = capped(total, values_at(network, f));
    }
    total
}

/// How many values stand at the places of `f`.
fn values_at(network: &Network, f: u32) -> usize
    requires { f < length network.now.functions }
    ensures { result ≡ min MOST_STEPS (values_of network.now (scope_at network.now f)) }
{
    network.law_limits();
    let mut total = 0;
    for x in network.scope(f) {
        total = capped(total, network.size(*x) as usize);
    }
    total
}
