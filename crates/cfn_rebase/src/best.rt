//! What is kept of the best assignment of a certificate.

ghost use Rattle.std.specs.Prelude.{◌≡◌, ℕ, ◌<◌, ◌↔◌, Some, IfOk, IfSome, IsTrue};
ghost use Rattle.cfn_model.specs.Network.{Fits, cost};
ghost use Rattle.cfn_certread.specs.Reading.{solution_of};
ghost use Rattle.cfn_rebase.specs.Keeping.{IsKeptBest, IsKeptValues, IsNarrow};

use cfn_certread::Best;
use cfn_net::{Fit, Network, Scored};
use std::alloc::{AllocError, Global};

/// What is kept of an assignment: a buffer that holds it with its cost in the network, where it fits and costs less than the upper
/// bound, and else nothing. An `Err` is want of memory.
pub(crate) fn kept_best(
    alloc: Global,
    network: &Network,
    best: &Option<Best>,
) -> Result<Scored, AllocError>
    ensures own { IfOk result (λ kept. kept.network ≡ network.now) }
    ensures keeps { IfOk result (λ kept. IsKeptBest network.now (solution_of best.now) kept.held) }
{
    match best {
        Some(best) => kept_values(alloc, network, &best.values),
        None => Scored::empty(alloc, network),
    }
}

/// What is kept of values.
fn kept_values(alloc: Global, network: &Network, values: &[u64]) -> Result<Scored, AllocError>
    ensures own { IfOk result (λ kept. kept.network ≡ network.now) }
    ensures keeps { IfOk result (λ kept. IsKeptValues network.now values.now kept.held) }
{
    network.law_limits();
    let mut kept = Scored::empty(alloc, network)?;
    let Some(narrow) = in_32_bits(alloc, values)? else {
        return Ok(kept);
    };
    if is_fit(network, &narrow) {
        kept.fill(network, &narrow);
    }
    Ok(kept)
}

/// Whether values fit, and cost less than the upper bound.
fn is_fit(network: &Network, values: &[u32]) -> bool
    ensures { IsTrue result ↔ (Fits network.now.sizes values.now × (cost network.now values.now < network.now.upper)) }
{
    match network.fits(values) {
        Fit::Fits => network.cost(values).value() < network.ub(),
        Fit::Length | Fit::Value(_) => false,
    }
}

/// Values in 32 bits, or nothing where one is 2^32 or more. An `Err` is want of memory.
fn in_32_bits(alloc: Global, values: &[u64]) -> Result<Option<Vec<u32>>, AllocError>
    ensures { IfOk result (IsNarrow values.now) }
{
    let mut narrow = Vec::with_capacity(alloc, values.len())?;
    for value in values {
        let Ok(value) = u32::try_from(*value) else {
            return Ok(None);
        };
        narrow.push(value)?;
    }
    Ok(Some(narrow))
}
