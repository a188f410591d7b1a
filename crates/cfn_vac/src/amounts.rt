//! The amount at which virtual arc consistency is tried first.

ghost use Rattle.std.specs.Prelude.{◌<◌, ◌≤◌, length};

use crate::power::power_within;
use cfn_net::Network;
use cfn_store::Store;

/// The greatest power of two that is at most a threshold, and at most the greatest of the live values' unary costs and
/// of the entries below the upper bound; 1 where these are all 0. Clauses say only that it is from 1 to the threshold.
pub(crate) fn first_amount(store: &Store<'_>, threshold: u64) -> u64
    requires { 0 < threshold }
    ensures some { 0 < result }
    ensures within { result ≤ threshold }
{
    let greatest = greatest_unary(store).max(greatest_entry(store));
    power_within(threshold.min(greatest.max(1)))
}

/// The greatest unary cost of a live value, or 0.
fn greatest_unary(store: &Store<'_>) -> u64 {
    store.network().law_limits();
    let mut greatest = 0;
    for x in 0..store.network().variables() {
        for value in store.live(x) {
            greatest = greatest.max(store.unary(x, *value));
        }
    }
    greatest
}

/// The greatest entry of a function below the upper bound, or 0.
fn greatest_entry(store: &Store<'_>) -> u64 {
    let network = store.network();
    let mut greatest = 0;
    for f in 0..network.functions() {
        greatest = greatest.max(greatest_of(network, f));
    }
    greatest
}

/// The greatest entry of one function below the upper bound, or 0.
fn greatest_of(network: &Network, f: u32) -> u64
    requires { f < length network.now.functions }
{
    let upper = network.ub();
    let mut greatest = 0;
    if let Some(table) = network.table(f) {
        for entry in table {
            greatest = greatest.max(below(*entry, upper));
        }
    }
    if let Some(listed) = network.listed(f) {
        greatest = below(listed.rest, upper);
        for (_, entry) in listed.cells {
            greatest = greatest.max(below(*entry, upper));
        }
    }
    greatest
}

/// An entry that is below the upper bound, and 0 for another.
fn below(entry: u64, upper: u64) -> u64 {
    if entry < upper { entry } else { 0 }
}
