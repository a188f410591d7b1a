//! The cost of an assignment, and the least cost by going over all assignments.

ghost use Rattle.std.specs.Prelude.{◌≡◌, ◌⊎◌, ℕ, ◌<◌, ◌≤◌, List, length, take, slice_index, IfOk, IfSome, IfNone};
ghost use Rattle.cfn_model.specs.Network.{Fits, total, cost, Least};

use cfn_net::Network;
use std::alloc::{AllocError, Global};

/// The sum of the entries of all functions at an assignment.
pub fn total(network: &Network, values: &[u32]) -> u128
    requires { Fits network.now.sizes values.now }
    ensures { result ≡ total network.now values.now }
{
    let mut sum = 0;
    for f in 0..network.functions() {
        sum += network.entry_of(f, values) as u128;
    }
    sum
}

/// The cost of an assignment: the total, or the upper bound where that is less (toulbar2 user manual, wcsp format).
pub fn cost(network: &Network, values: &[u32]) -> u64
    requires { Fits network.now.sizes values.now }
    ensures { result ≡ cost network.now values.now }
{
    total(network, values).min(network.ub() as u128) as u64
}

/// The least cost below the upper bound, or `None` where every assignment costs the upper bound. It goes over all
/// assignments. An `Err` is want of memory.
pub fn least(alloc: Global, network: &Network) -> Result<Option<u64>, AllocError>
    ensures some { IfOk result (λ found. IfSome found (λ c. Least network.now c)) }
    ensures none { IfOk result (λ found. IfNone found
        ((values : List ℕ) → Fits network.now.sizes values → cost network.now values ≡ network.now.upper)) }
{
    let mut values = vec![in alloc; 0; network.variables() as usize]?;
    network.law_limits();
    let c = least_from(network, values.as_mut_slice(), 0, network.ub());
    Ok(if c < network.ub() { Some(c) } else { None })
}

/// The least of `best` and the costs of the assignments that have the values before `x`. The values from `x` on may
/// change.
fn least_from(network: &Network, values: &mut [u32], x: u32, best: u64) -> u64
    requires place { x ≤ length network.now.sizes }
    requires fits { Fits network.now.sizes values.old }
    ensures fits { Fits network.now.sizes values.new }
    ensures before { take x values.new ≡ take x values.old }
    ensures below { result ≤ best }
    ensures bound { (other : List ℕ) → Fits network.now.sizes other → take x other ≡ take x values.old → result ≤ cost network.now other }
    ensures reached { (result ≡ best) ⊎ ((other : List ℕ) × Fits network.now.sizes other × (cost network.now other ≡ result)) }
{
    if x == network.variables() {
        return best.min(cost(network, values));
    }
    let mut least = best;
    for value in 0..network.size(x) {
        values[x as usize] = value;
        least = least_from(network, values, x + 1, least);
    }
    least
}
