//! Searches of small networks, judged by the plain program, by costs that are known from elsewhere, and by `check`.

ghost use Rattle.std.specs.Prelude.{◌≤◌};

use crate::judging::Verdict;
use cfn_low::{Outcome, Stop};
use cfn_net::Network;
use cfn_proof::Row;
use cfn_solve::solve;
use cfn_testing::drawing::{Dice, MOST, draw, file_of, least_of};
use cfn_testing::running::{certificate_of, check_answers};
use std::alloc::{AllocError, AllocGlobal, Global};
use std::sync::Wait;
use std::test::Fail;
use std::thread::Threads;

/// A budget that no search of these networks spends.
const AMPLE: u64 = 1_000_000;

/// How many networks are drawn for each upper bound.
const DRAWN: u64 = 50;

/// Whether the searches of a network with this least cost below its upper bound are right, also with budgets of 0, 1 and 2.
fn is_searched(alloc: Global, network: &Network, least: Option<u64>) -> Result<bool, AllocError> {
    for budget in 0..3 {
        if !is_cut(alloc, network, least, budget)? {
            return Ok(false);
        }
    }
    Ok(cfn_plain::least(alloc, network)? == least && is_done(alloc, network, least)?)
}

/// The same of a file, and whether `check` verifies what `solve` writes of it.
fn is_right<R: AllocGlobal + Threads + Wait + Sync>(
    rt: &R,
    file: &str,
    least: Option<u64>,
) -> Result<bool, Fail> {
    let network = cfn_wcsp::read(rt.alloc(), file.as_bytes())?;
    Ok(is_searched(rt.alloc(), &network, least)? && is_verified(rt, file)?)
}

/// Whether a search with an ample budget is sound, and ends with this least cost and its bound.
fn is_done(alloc: Global, network: &Network, least: Option<u64>) -> Result<bool, AllocError> {
    let whole = solve(alloc, network, AMPLE)?;
    let done = whole.stop == Stop::Done
        && price(&whole) == least
        && whole.certificate.lower == least.unwrap_or(network.ub());
    let sound = is_sound(alloc, network, &whole);
    drop(whole);
    Ok(done && sound?)
}

/// Whether a search with a small budget is sound, keeps it, and has this least cost between its bounds.
fn is_cut(
    alloc: Global,
    network: &Network,
    least: Option<u64>,
    budget: u64,
) -> Result<bool, AllocError>
    requires { budget ≤ 3 }
{
    let cut = solve(alloc, network, budget)?;
    let cost = least.unwrap_or(network.ub());
    let kept = is_within(&cut, budget)
        && cut.certificate.lower <= cost
        && cost <= price(&cut).unwrap_or(network.ub());
    let sound = is_sound(alloc, network, &cut);
    drop(cut);
    Ok(kept && sound?)
}

/// Whether the certificate of an outcome is good, its tree strict, its lower bound the tree's bound, and the first
/// row of bounds at most that.
fn is_sound(alloc: Global, network: &Network, outcome: &Outcome) -> Result<bool, AllocError> {
    let certificate = &outcome.certificate;
    let threshold = price(outcome).unwrap_or(network.ub());
    let bound = cfn_plain::bound(alloc, network, &certificate.tree, threshold)?;
    let opening = outcome.rows.as_slice().first();
    Ok(
        cfn_plain::good(alloc, network, certificate)?
            && cfn_plain::strict(alloc, network, &certificate.tree)?
            && certificate.lower == bound
            && opening.is_some_and(|row| row.lower <= bound && row.upper.is_none()),
    )
}

/// Whether a search kept its budget, and stopped because it was done or the budget was spent.
fn is_within(outcome: &Outcome, budget: u64) -> bool {
    match outcome.stop {
        Stop::Done => outcome.nodes <= budget,
        Stop::Budget => outcome.nodes == budget,
        Stop::Time | Stop::Part | Stop::Memory => false,
    }
}

/// The cost of the best assignment of an outcome.
fn price(outcome: &Outcome) -> Option<u64> {
    match &outcome.certificate.best {
        Some(scored) => Some(scored.price()),
        None => None,
    }
}

/// Budgets, as numbers and as words.
const BUDGETS: [(u32, &str); 4] = [(0, "0"), (1, "1"), (2, "2"), (1_000_000, "1000000")];

/// What `check` is to say of the certificate of a search.
fn verdict(alloc: Global, network: &Network, budget: u32) -> Result<Verdict, AllocError> {
    let outcome = solve(alloc, network, budget as u64)?;
    let lower = outcome.certificate.lower;
    let best = price(&outcome);
    drop(outcome);
    Ok(Verdict::Verified { lower, best })
}

/// What `check` is to say of the certificate of a search of a file.
fn said_of(alloc: Global, file: &str, budget: u32) -> Result<String, Fail> {
    let network = cfn_wcsp::read(alloc, file.as_bytes())?;
    Ok(verdict(alloc, &network, budget)?.said(alloc)?)
}

/// Whether `check` verifies what `solve` writes of a file with this budget, and says this.
fn verifies<R: AllocGlobal + Threads + Wait + Sync>(
    rt: &R,
    file: &str,
    budget: &str,
    said: &str,
) -> Result<bool, AllocError> {
    let certificate = certificate_of(rt, file.as_bytes(), budget)?;
    check_answers(rt, file.as_bytes(), &certificate, 0, said.as_bytes())
}

/// Whether `check` verifies what `solve` writes of a file, with the bounds of the search, whatever the budget.
fn is_verified<R: AllocGlobal + Threads + Wait + Sync>(rt: &R, file: &str) -> Result<bool, Fail> {
    for (budget, word) in BUDGETS {
        let said = said_of(rt.alloc(), file, budget)?;
        if !verifies(rt, file, word, said.as_str())? {
            return Ok(false);
        }
    }
    Ok(true)
}

/// A file that is drawn, and the least cost that its words say.
fn drawn(alloc: Global, dice: &mut Dice, upper: u64) -> Result<(String, Option<u64>), AllocError> {
    let words = draw(alloc, dice, upper)?;
    let least = least_of(alloc, &words)?;
    Ok((file_of(alloc, &words)?, least))
}

#[test]
fn drawn_networks(rt: HostRuntime) -> Result<(), Fail> {
    let mut dice = Dice { state: 2026 };
    for upper in [0, 1, 8, 15, 40, MOST] {
        for _ in 0..DRAWN {
            let (file, least) = drawn(rt.alloc(), &mut dice, upper)?;
            assert!(rt; is_right(&rt, file.as_str(), least)?, "of {file}");
        }
    }
    Ok(())
}

/// Files, and the least cost below the upper bound, worked out by hand.
const BY_HAND: [(&str, Option<u64>); 16] = [
    // no function: 0 where the upper bound allows it
    ("n 1 1 0 1 1", Some(0)),
    ("n 1 1 0 0 1", None),
    ("n 3 4 0 9223372036854775807 4 4 4", Some(0)),
    // a constant below the upper bound, at it and above it; the last listing counts
    ("n 1 2 1 10 2 0 9 0", Some(9)),
    ("n 1 2 1 10 2 0 10 0", None),
    ("n 1 2 1 10 2 0 11 0", None),
    ("n 1 2 1 10 2 0 11 2 12 4", Some(4)),
    // listed twice, and the dear listing last
    ("n 1 2 1 10 2 1 0 5 2 0 1 0 7", Some(5)),
    // two functions on one scope, one of them turned round: 0 1 costs 2 + 0 and 1 0 costs 0 + 3
    (
        "n 2 2 2 10 2 2 2 0 1 9 2 0 1 2 1 0 0 2 1 0 9 2 1 0 0 0 1 3",
        Some(2),
    ),
    // all different over three values costs nothing, over two values 1
    (
        "n 3 3 3 10 3 3 3 2 0 1 0 3 0 0 1 1 1 1 2 2 1 2 0 2 0 3 0 0 1 1 1 1 2 2 1 2 1 2 0 3 0 0 1 1 1 1 2 2 1",
        Some(0),
    ),
    (
        "n 3 2 3 10 2 2 2 2 0 1 0 2 0 0 1 1 1 1 2 0 2 0 2 0 0 1 1 1 1 2 1 2 0 2 0 0 1 1 1 1",
        Some(1),
    ),
    // a table over three variables: only 1 2 3 is allowed
    ("n 3 4 1 10 2 3 4 3 0 1 2 10 1 1 2 3 6", Some(6)),
    // the same with the scope turned round, and a constant that leaves nothing allowed
    ("n 3 4 2 10 2 3 4 3 2 1 0 10 1 3 2 1 6 0 4 0", None),
    // sums just below the greatest upper bound, at it and far above it
    (
        "n 1 1 2 9223372036854775807 1 1 0 4611686018427387903 0 1 0 4611686018427387903 0",
        Some(9223372036854775806),
    ),
    (
        "n 1 1 2 9223372036854775807 1 1 0 4611686018427387904 0 1 0 4611686018427387903 0",
        None,
    ),
    (
        "n 1 1 3 9223372036854775807 1 0 9223372036854775807 0 1 0 9223372036854775807 0 1 0 9223372036854775807 0",
        None,
    ),
];

#[test]
fn networks_by_hand(rt: HostRuntime) -> Result<(), Fail> {
    for (file, least) in BY_HAND {
        assert!(rt; is_right(&rt, file, least)?, "of {file}");
    }
    Ok(())
}

/// Eight variables with three values, of which each two cost 1 where they agree. At best they stand in groups of three,
/// three and two, and seven pairs agree.
fn groups(alloc: Global) -> Result<String, AllocError> {
    let mut file = String::from_str(alloc, "groups 8 3 28 100 3 3 3 3 3 3 3 3")?;
    for y in 1..8 {
        for x in 0..y {
            write!(file, " 2 {x} {y} 0 3 0 0 1 1 1 1 2 2 1")?;
        }
    }
    Ok(file)
}

/// Whether no row has a lower number above that of the next one, or an upper number below it.
fn come_together(rows: &[Row]) -> bool {
    rows.windows(2).all(|two| {
        let upper = two[0].upper.unwrap_or(u64::MAX);
        two[0].lower <= two[1].lower && two[1].upper.unwrap_or(u64::MAX) <= upper
    })
}

/// The lower bound of a search that keeps this budget, or `None` where it does not.
fn lower_within(alloc: Global, network: &Network, budget: u64) -> Result<Option<u64>, AllocError>
    requires { budget ≤ 1000 }
{
    let cut = solve(alloc, network, budget)?;
    let lower = is_within(&cut, budget).then_some(cut.certificate.lower);
    drop(cut);
    Ok(lower)
}

/// Whether a search with an ample budget makes more than four rows, which come together.
fn makes_rows(alloc: Global, network: &Network) -> Result<bool, AllocError> {
    let whole = solve(alloc, network, AMPLE)?;
    let makes = whole.rows.len() > 4 && come_together(whole.rows.as_slice());
    drop(whole);
    Ok(makes)
}

/// Whether the lower bounds of searches with rising budgets rise, up to the least cost, and an ample one finds it.
fn rise(alloc: Global, network: &Network, least: u64) -> Result<bool, AllocError> {
    let mut lower = 0;
    for budget in [20, 60, 150, 400] {
        let next = lower_within(alloc, network, budget)?.unwrap_or(u64::MAX);
        if next < lower || least < next {
            return Ok(false);
        }
        lower = next;
    }
    is_done(alloc, network, Some(least))
}

/// The same of the groups, and whether their rows are as they are to be.
fn ends_and_begins(alloc: Global) -> Result<bool, Fail> {
    let file = groups(alloc)?;
    let network = cfn_wcsp::read(alloc, file.as_bytes())?;
    Ok(rise(alloc, &network, 7)? && makes_rows(alloc, &network)?)
}

#[test]
fn dives_end_and_begin(rt: HostRuntime) -> Result<(), Fail> {
    assert!(rt; ends_and_begins(rt.alloc())?);
    Ok(())
}
