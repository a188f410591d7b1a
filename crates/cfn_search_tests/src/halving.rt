//! A search by the rule of the fewest live values halves them where there are many.

use cfn_branch::Rule;
use cfn_dive::Divers;
use cfn_explore::Problem;
use cfn_low::{Outcome, Stop};
use cfn_model::Decision;
use cfn_net::{Network, Tables};
use cfn_proof::{End, NodeId, Tree};
use cfn_search::solve;
use std::alloc::{AllocError, Global};
use std::test::Fail;

/// One variable with eight values, of which 6 costs 1 and each other one 5.
const EIGHT: &str = "eight 1 8 1 10\n8\n1 0 5 1\n6 1\n";

/// A budget that no search of this network spends.
const AMPLE: u64 = 1_000_000;

/// What is asked of a whole search of the network.
#[derive(Clone, Copy, PartialEq, Eq)]
struct Found {
    done: bool,
    lower: u64,
    /// The value of the best assignment.
    value: Option<u32>,
    /// Whether the plain program judges the certificate good, and its tree strict.
    good: bool,
    /// Whether a split is by a bound.
    halved: bool,
}

/// A whole search by a rule.
fn solve_by(alloc: Global, network: &Network, rule: Rule) -> Result<Outcome, AllocError> {
    let tables = Tables::expand(alloc, network)?;
    let divers = Divers::by(network, &tables, rule);
    let problem = Problem::of(network, &divers);
    solve(alloc, &problem, AMPLE)
}

/// What a whole search by a rule finds.
fn searched(alloc: Global, rule: Rule) -> Result<Found, Fail> {
    let network = cfn_wcsp::read(alloc, EIGHT.as_bytes())?;
    let outcome = solve_by(alloc, &network, rule)?;
    Ok(Found {
        done: outcome.stop == Stop::Done,
        lower: outcome.certificate.lower,
        value: first_value(&outcome),
        good: is_good(alloc, &network, &outcome)?,
        halved: has_bound(&outcome.certificate.tree),
    })
}

/// The value of the first variable in the best assignment.
fn first_value(outcome: &Outcome) -> Option<u32> {
    let best = outcome.certificate.best.as_ref()?;
    best.values()?.first().copied()
}

/// Whether the plain program judges a certificate good, and its tree strict.
fn is_good(alloc: Global, network: &Network, outcome: &Outcome) -> Result<bool, AllocError> {
    let certificate = &outcome.certificate;
    Ok(
        cfn_plain::good(alloc, network, certificate)?
            && cfn_plain::strict(alloc, network, &certificate.tree)?,
    )
}

/// Whether a split of a tree is by a bound.
fn has_bound(tree: &Tree) -> bool {
    tree.law_linked();
    for number in 0..tree.len() {
        let id = NodeId {
            number: number as u32,
        };
        if is_bound(tree.node(id).end) {
            return true;
        }
    }
    false
}

/// Whether a node ends as a split by a bound.
fn is_bound(end: End) -> bool {
    match end {
        End::Split { decision, .. } => matches!(decision, Decision::Most { .. }),
        End::Free | End::Shut => false,
    }
}

#[test]
fn eight_values_are_halved(rt: HostRuntime) -> Result<(), Fail> {
    let by_fewest = Found {
        done: true,
        lower: 1,
        value: Some(6),
        good: true,
        halved: true,
    };
    assert!(rt; searched(rt.alloc(), Rule::Fewest)? == by_fewest);
    Ok(())
}

#[test]
fn weighted_degrees_halve_none(rt: HostRuntime) -> Result<(), Fail> {
    let by_degrees = Found {
        done: true,
        lower: 1,
        value: Some(6),
        good: true,
        halved: false,
    };
    assert!(rt; searched(rt.alloc(), Rule::Degrees)? == by_degrees);
    Ok(())
}
