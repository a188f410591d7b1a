//! How many nodes and backtracks a dive may make.

ghost use Rattle.std.specs.Prelude.{◌≡◌, ◌≤◌};
ghost use Rattle.cfn_model.specs.declared.limits.TheConstants.{GREATEST};
ghost use Rattle.cfn_search.specs.Granting.{IsLimit, limit_after as next_limit, wanted as wish};

/// How many backtracks a dive may make at first and at least.
pub const FEWEST_BACKTRACKS: u64 = 16;

/// How many backtracks a dive may make at most.
const MOST_BACKTRACKS: u64 = 128;

/// How many backtracks the next dive may make: twice as many where `left`, and else half as many, from 16 to 128. A
/// caller says `left` where the pool has at least as many open leaves behind a piece and its sweep as before.
pub(crate) fn limit_after(limit: u64, left: bool) -> u64
    requires { IsLimit limit }
    ensures is { result ≡ next_limit limit left }
    ensures limit { IsLimit result }
{
    if left {
        MOST_BACKTRACKS.min(limit.saturating_mul(2))
    } else {
        FEWEST_BACKTRACKS.max(limit / 2)
    }
}

/// How many nodes a dive asks for: one for the root, so that others have leaves soon; else 64 for each backtrack, and at
/// least four for each variable while no assignment is known.
pub fn wanted(is_root: bool, known: bool, limit: u64, variables: u32) -> u64
    requires { IsLimit limit }
    ensures is { result ≡ wish is_root known limit variables }
    ensures some { 1 ≤ result }
    ensures most { result ≤ GREATEST }
{
    if is_root {
        1
    } else if known {
        64 * limit
    } else {
        (64 * limit).max(4 * u64::from(variables))
    }
}
