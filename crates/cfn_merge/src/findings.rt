//! What certificates have found of a network: a best assignment and a tree.

ghost use Rattle.std.specs.Prelude.{◌≡◌, is_some, IfOk, IsTrue};
ghost use Rattle.std.specs.Option.{ForSome};
ghost use Rattle.cfn_model.specs.Certificate.{IsBest};
ghost use Rattle.cfn_proof.specs.Certificates.{certificate_of, solution_of};
ghost use Rattle.cfn_mending.specs.Merging.{cheaper};
ghost use Rattle.cfn_proof.specs.Nodes.{tree_of};
ghost use Rattle.cfn_mending.specs.Joining.{capped, join};
ghost use Rattle.cfn_merge.specs.Same.{same};
ghost use Rattle.cfn_merge.specs.Finding.{certified};

use crate::joining::join;
use crate::rank::ranks;
use cfn_mending::laws::law_height;
use cfn_net::{Network, Scored};
use cfn_proof::{Certificate, Tree};
use std::alloc::{AllocError, Global};

/// A best assignment, in a buffer that may be empty, and a tree.
#[derive(Drop)]
pub struct Findings {
    pub best: Scored,
    pub tree: Tree,
}

/// What was found twice, in one: the cheaper best, the first where both cost the same, and both trees joined. An `Err` is want of
/// memory, or of numbers.
pub fn join_findings(
    alloc: Global,
    first: Findings,
    second: Findings,
) -> Result<Findings, AllocError>
    requires same_network { first.best.network ≡ second.best.network }
    requires first { IsBest first.best.network first.best.held }
    requires second { IsBest second.best.network second.best.held }
    ensures network { IfOk result (λ found. found.best.network ≡ first.best.network) }
    ensures best { IfOk result (λ found. found.best.held ≡ cheaper first.best.held second.best.held) }
    ensures tree { IfOk result (λ found. tree_of found.tree ≡ join same (tree_of first.tree) (tree_of second.tree)) }
{
    let tree = join(alloc, &first.tree, &second.tree)?;
    let best = if second.best.price() < first.best.price() {
        second.best
    } else {
        first.best
    };
    Ok(Findings { best, tree })
}

/// The certificate of what was found: its lower bound is its tree's bound, at the cost of the best or at the upper bound. An `Err`
/// is want of memory, or a height of 2^128 or more.
pub fn certificate(
    alloc: Global,
    network: &Network,
    found: Findings,
) -> Result<Certificate, AllocError>
    requires own { found.best.network ≡ network.now }
    requires best { IsBest network.now found.best.held }
    ensures { IfOk result (λ c. certificate_of c ≡ certified network.now found.best.held (tree_of found.tree)) }
{
    network.law_limits();
    found.tree.law_linked();
    law_height();
    let ranks = ranks(alloc, &found.tree)?;
    let lower = capped(found.best.price(), network.constants(), ranks[0].height);
    Ok(Certificate {
        variables: network.variables(),
        functions: network.functions(),
        upper: network.ub(),
        best: held(found.best),
        lower,
        tree: found.tree,
    })
}

/// The least of a threshold and of what a height comes to behind a floor.
fn capped(threshold: u64, floor: u128, height: Option<u128>) -> u64
    ensures { result ≡ capped threshold floor height }
{
    match height {
        None => threshold,
        Some(height) => match floor.checked_add(height) {
            Some(reached) if reached < u128::from(threshold) => reached as u64,
            _ => threshold,
        },
    }
}

/// A buffer that holds an assignment, or nothing. It takes no memory.
fn held(best: Scored) -> Option<Scored>
    ensures is { solution_of result ≡ best.held }
    ensures held { ForSome result (λ scored. IsTrue (is_some scored.held)) }
{
    if best.values().is_some() {
        Some(best)
    } else {
        None
    }
}
