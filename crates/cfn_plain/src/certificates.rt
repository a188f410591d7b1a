//! Whether a certificate is good.

ghost use Rattle.std.specs.Prelude.{◌≡◌, ◌↔◌, length, IsTrue, IfOk};
ghost use Rattle.cfn_model.specs.Certificate.{IsSolution, IsBest, Good, threshold};
ghost use Rattle.cfn_proof.specs.Certificates.{solution_of, certificate_of};

use crate::costs::cost;
use crate::trees::{bound, valid};
use cfn_net::{Fit, Network, Scored};
use cfn_proof::Certificate;
use std::alloc::{AllocError, Global};

/// Whether a certificate is good for a network: it has the network's numbers of variables and functions and its
/// upper bound, its best is a solution, its tree is valid at its threshold, and its lower bound is at most the tree's
/// bound (Allouche et al. 2015). An `Err` is want of memory.
pub fn good(alloc: Global, network: &Network, certificate: &Certificate) -> Result<bool, AllocError>
    ensures { IfOk result (λ answer. IsTrue answer ↔ Good network.now (certificate_of certificate.now)) }
{
    if !is_of(network, certificate) || !is_best(network, &certificate.best) {
        return Ok(false);
    }
    let k = threshold(certificate);
    if !valid(alloc, network, &certificate.tree, k)? {
        return Ok(false);
    }
    let most = bound(alloc, network, &certificate.tree, k)?;
    Ok(certificate.lower <= most)
}

/// Whether a certificate has the network's numbers of variables and functions and its upper bound.
fn is_of(network: &Network, certificate: &Certificate) -> bool
    ensures { IsTrue result ↔ ((certificate.now.variables ≡ length network.now.sizes)
        × (certificate.now.functions ≡ length network.now.functions)
        × (certificate.now.upper ≡ network.now.upper)) }
{
    certificate.variables == network.variables()
        && certificate.functions == network.functions()
        && certificate.upper == network.ub()
}

/// The cost of the best assignment, or the upper bound where there is none.
fn threshold(certificate: &Certificate) -> u64
    ensures { result ≡ threshold (certificate_of certificate.now) }
{
    match &certificate.best {
        Some(scored) => scored.price(),
        None => certificate.upper,
    }
}

/// Whether a best, where there is one, is a solution of the network.
fn is_best(network: &Network, best: &Option<Scored>) -> bool
    ensures { IsTrue result ↔ IsBest network.now (solution_of best.now) }
{
    match best {
        Some(scored) => match scored.values() {
            Some(values) => is_solution(network, scored.price(), values),
            None => true,
        },
        None => true,
    }
}

/// Whether an assignment with its cost is a solution of the network.
fn is_solution(network: &Network, price: u64, values: &[u32]) -> bool
    ensures { IsTrue result ↔ IsSolution network.now (record { cost = price; values = values.now }) }
{
    match network.fits(values) {
        Fit::Fits => price < network.ub() && cost(network, values) == price,
        _ => false,
    }
}
