//! The variable is that of the least ratio of live values to weighted degree (Boussemart, Hemery, Lecoutre and Sais, 2004):
//! a variable's weighted degree is 1 and the weights of its functions that have another open variable. Of equal ratios the
//! greatest second-least unary cost decides, which is what the variable's second choice costs at least, and then the least
//! number. The value is that of the least unary cost.
//!
//! One pass over the open variables, each with a look at the functions that it has a place in. It takes no memory.

ghost use Rattle.std.specs.Prelude.{◌≡◌, ◌*◌, ◌<◌, ◌≤◌, true, false, length, nat_le, MatchOption};
ghost use Rattle.cfn_consistency.specs.Openness.{open_count};
ghost use Rattle.cfn_incidence.specs.Places.{StandsAt};
ghost use Rattle.cfn_store.specs.Standing.{history};
ghost use Rattle.cfn_branch.specs.Choosing.{choices, AllDecided, IsOpen, IsCheapest, IsSecondLeast, degree, IsBetter, IsChosen};
ghost use Rattle.cfn_branch.specs.Passing.{IsFirstOf, IsFirstOfOpen};

use crate::weights::Weights;
use cfn_incidence::{Incidence, Place};
use cfn_store::Store;

/// What a variable is chosen by: how many values are live, the weighted degree, and the second-least unary cost.
#[derive(Clone, Copy)]
pub(crate) struct Score {
    pub(crate) count: u32,
    pub(crate) degree: u64,
    pub(crate) second: u64,
}

/// An open variable with its score.
#[derive(Clone, Copy)]
pub(crate) struct Candidate {
    pub(crate) variable: u32,
    pub(crate) score: Score,
}

impl Score {
    /// Whether this score is better than another: the ratio of count to degree is less, or the ratios are equal and the
    /// second-least cost is greater.
    fn is_better(&self, other: &Score) -> bool
        ensures better { result ≡ true → IsBetter self.now other.now }
        ensures not { result ≡ false → IsBetter self.now other.now → ⊥ }
    {
        let own = product(self.count, other.degree);
        let others = product(other.count, self.degree);
        own < others || (own == others && self.second > other.second)
    }
}

/// The product of a count and a degree.
fn product(count: u32, degree: u64) -> u128
    ensures { result ≡ count * degree }
{
    u128::from(count) * u128::from(degree)
}

/// The open variable, which has two live values or more, of the least ratio of live values to weighted degree; of equal
/// ones that of the greatest second-least unary cost, and of these the least. `None` exactly where each variable has at
/// most one live value.
pub fn choose(weights: &Weights, incidence: &Incidence, store: &Store<'_>) -> Option<u32>
    requires incidence { incidence.now ≡ store.now.network }
    requires weights { length weights.now ≡ length store.now.network.functions }
    ensures { MatchOption result (AllDecided store.now) (IsChosen store.now weights.now) }
{
    store.network().law_limits();
    let mut best: Option<Candidate> = None;
    for x in 0..store.network().variables() {
        if store.count(x) >= 2 {
            best = Some(first_of_open(best, weights, incidence, store, x));
        }
    }
    match best {
        Some(candidate) => Some(candidate.variable),
        None => None,
    }
}

/// The first of the best so far, where there is one, and an open variable behind it. Where that one's ratio is greater, its
/// second-least unary cost is not asked for.
fn first_of_open(
    best: Option<Candidate>,
    weights: &Weights,
    incidence: &Incidence,
    store: &Store<'_>,
    x: u32,
) -> Candidate
    requires incidence { incidence.now ≡ store.now.network }
    requires weights { length weights.now ≡ length store.now.network.functions }
    requires variable { IsOpen store.now x }
    ensures { IsFirstOfOpen store.now weights.now best x result }
{
    let count = store.count(x);
    let degree = weighted_degree(weights, incidence, store, x);
    match best {
        Some(best) if product(best.score.count, degree) < product(count, best.score.degree) => best,
        _ => {
            let score = Score {
                count,
                degree,
                second: second_least(store, x),
            };
            first_of(best, Candidate { variable: x, score })
        }
    }
}

/// The first of the best so far, where there is one, and a variable behind it.
fn first_of(best: Option<Candidate>, next: Candidate) -> Candidate
    ensures { IsFirstOf best next result }
{
    match best {
        Some(best) if !next.score.is_better(&best.score) => best,
        _ => next,
    }
}

/// 1 and the weights of the functions on an open variable that have two open variables or more. At most 2^53.
fn weighted_degree(weights: &Weights, incidence: &Incidence, store: &Store<'_>, x: u32) -> u64
    requires incidence { incidence.now ≡ store.now.network }
    requires weights { length weights.now ≡ length store.now.network.functions }
    requires open { IsOpen store.now x }
    ensures { result ≡ degree store.now weights.now x }
{
    store.network().law_limits();
    let mut sum = 1;
    for place in incidence.places(x) {
        if is_counted(store, *place, x) {
            sum += weights.of(place.function);
        }
    }
    sum
}

/// Whether the function at a place of an open variable has two open variables or more. Where it has two variables the other one
/// tells.
fn is_counted(store: &Store<'_>, place: Place, x: u32) -> bool
    requires stands { StandsAt store.now.network x place }
    requires open { IsOpen store.now x }
    ensures { result ≡ nat_le 2 (open_count store.now.network (history store.now) place.function) }
{
    store.network().law_limits();
    if place.other == x {
        has_two_open(store, place.function)
    } else {
        store.count(place.other) >= 2
    }
}

/// Whether a function has two open variables or more. It counts no further.
fn has_two_open(store: &Store<'_>, f: u32) -> bool
    requires { f < length store.now.network.functions }
    ensures { result ≡ nat_le 2 (open_count store.now.network (history store.now) f) }
{
    store.network().law_limits();
    let mut found = false;
    for x in store.network().scope(f) {
        if store.count(*x) >= 2 {
            if found {
                return true;
            }
            found = true;
        }
    }
    false
}

/// The second-least unary cost of the live values of an open variable, counted with multiplicity.
fn second_least(store: &Store<'_>, x: u32) -> u64
    requires { IsOpen store.now x }
    ensures { IsSecondLeast store.now x result }
{
    let values = store.live(x);
    let one = store.unary(x, values[0]);
    let other = store.unary(x, values[1]);
    let mut least = one.min(other);
    let mut second = one.max(other);
    for i in 2..values.len() {
        let cost = store.unary(x, values[i]);
        second = second.min(cost.max(least));
        least = least.min(cost);
    }
    second
}

/// Of the live values of a variable that has some, the one with the least unary cost, and of those the least.
pub fn cheapest(store: &Store<'_>, x: u32) -> u32
    requires variable { x < length store.now.network.sizes }
    requires some { 1 ≤ choices store.now x }
    ensures { IsCheapest store.now x result }
{
    let values = store.live(x);
    let mut best = values[0];
    let mut least = store.unary(x, best);
    for value in values {
        let cost = store.unary(x, *value);
        if cost < least || (cost == least && *value < best) {
            best = *value;
            least = cost;
        }
    }
    best
}
