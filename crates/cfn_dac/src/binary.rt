//! What a value of a pair's first variable has: the least of its tuples, each with the unary cost of its other value.
//!
//! Where the function has the pair's two variables alone, that is read along a line: at first together with the other value
//! with which it cost nothing last, which is nearly always enough, and then along the live ones (the supports and delta costs
//! of toulbar2). In another function it is read by a scan for each pair of values.

ghost use Rattle.std.specs.Prelude.{◌≡◌, ℕ, ◌<◌, ◌≤◌, List, true, pos, MatchOption, IfSome, IsTrue};
ghost use Rattle.cfn_model.specs.declared.step.Event.{Event};
ghost use Rattle.cfn_model.specs.Network.{Network};
ghost use Rattle.cfn_model.specs.Sums.{unary, is_live};
ghost use Rattle.cfn_model.specs.Steps.{IsPlace};
ghost use Rattle.cfn_store.specs.Standing.{history};
ghost use Rattle.cfn_scan.specs.Extremes.{NoneBetween, IsLeastBetween};
ghost use Rattle.cfn_scan.specs.Lines.{IsLine};
ghost use Rattle.cfn_dac.specs.declared.pair.Pair.{Pair as PairPlaces};
ghost use Rattle.cfn_dac.specs.Full.{IsPair, first_of, second_of};
ghost use Rattle.cfn_dac.specs.Moves.{IsTotalBetween, IsLeastTotal};
ghost use Rattle.cfn_dac.specs.Binaries.{IsBinary, IsMet};

use crate::pair::Pair;
use cfn_scan::{Extreme, Line, Side, Unaries};
use cfn_store::Store;

/// A pair's function that has no other variable, looked up once for a loop over the values at the first place.
#[derive(Drop)]
pub(crate) struct Binary<'a> {
    /// The function seen from the first place.
    side: Side<'a>,
    /// For values of the first variable, from 0 on, numbers of values with which they cost nothing last.
    last: &'a [u32],
    /// The other variable, and its values' unary costs.
    second: u32,
    theirs: Unaries<'a>,
}

impl<'a> Binary<'a> {
    /// Looks a pair up; `None` where its function has another number of variables.
    #[inline(always)]
    pub(crate) fn of(store: &'a Store<'_>, pair: Pair) -> Option<Binary<'a>>
        requires { IsPair store.now.network pair }
        ensures { IfSome result (IsBinary store.now pair) }
    {
        store.network().law_limits();
        let side = store.side(pair.function, pair.place)?;
        let second = side.other();
        Some(Binary {
            side,
            last: store.last_supports(pair.function, pair.place),
            second,
            theirs: store.unaries(second),
        })
    }

    /// What a live value has.
    #[inline(always)]
    fn least(&self, store: &Store<'_>, pair: Pair, value: u32) -> u64
        requires binary { IsBinary store.now pair self.now }
        requires pair { IsPair store.now.network pair }
        requires value { IsPlace store.now.network pair.function pair.place value }
        requires live { IsTrue (is_live (history store.now) (first_of store.now.network pair) value) }
        ensures { IsLeastTotal store.now.network (history store.now) pair value result }
    {
        store.network().law_limits();
        store.law_exact();
        let line = self.side.line(value);
        if self.costs_nothing_still(store, pair, value, &line) {
            return 0;
        }
        self.least_along(store, pair, value, &line)
    }

    /// Whether a value costs nothing with the other value with which it cost nothing last, and that value neither.
    #[inline(always)]
    fn costs_nothing_still(
        &self,
        store: &Store<'_>,
        pair: Pair,
        value: u32,
        line: &Line<'_>,
    ) -> bool
        requires binary { IsBinary store.now pair self.now }
        requires pair { IsPair store.now.network pair }
        requires line { IsLine store.now.network (history store.now) pair.function pair.place value pair.other line.now }
        ensures { result ≡ true → (other : ℕ) × IsTotalBetween store.now.network (history store.now) pair value other 0 }
    {
        store.network().law_limits();
        let Some(other) = self.last.get(value as usize) else {
            return false;
        };
        if *other >= store.network().size(self.second) || !store.is_live(self.second, *other) {
            return false;
        }
        total_along(line, &self.theirs, *other) == 0
    }

    /// What a value has along its line.
    #[inline(always)]
    fn least_along(&self, store: &Store<'_>, pair: Pair, value: u32, line: &Line<'_>) -> u64
        requires binary { IsBinary store.now pair self.now }
        requires pair { IsPair store.now.network pair }
        requires line { IsLine store.now.network (history store.now) pair.function pair.place value pair.other line.now }
        ensures { IsLeastTotal store.now.network (history store.now) pair value result }
    {
        store.network().law_limits();
        store.law_exact();
        let mut least = u64::MAX;
        for other in store.live(self.second) {
            let total = total_along(line, &self.theirs, *other);
            if total == 0 {
                return 0;
            }
            least = least.min(total);
        }
        least
    }
}

/// The least residual cost of the live tuples with a live value of the first variable, each with the unary cost of its other
/// value, but at most 2^64 - 1, as where there is none.
#[inline(always)]
pub(crate) fn least(store: &Store<'_>, pair: Pair, binary: &Option<Binary<'_>>, value: u32) -> u64
    requires pair { IsPair store.now.network pair }
    requires binary { IfSome binary.now (IsBinary store.now pair) }
    requires value { IsPlace store.now.network pair.function pair.place value }
    requires live { IsTrue (is_live (history store.now) (first_of store.now.network pair) value) }
    ensures { IsLeastTotal store.now.network (history store.now) pair value result }
{
    match binary {
        Some(binary) => binary.least(store, pair, value),
        None => least_apart(store, pair, value),
    }
}

/// The same, one pair of values after another.
#[inline(never)]
fn least_apart(store: &Store<'_>, pair: Pair, value: u32) -> u64
    requires pair { IsPair store.now.network pair }
    requires value { IsPlace store.now.network pair.function pair.place value }
    ensures { IsLeastTotal store.now.network (history store.now) pair value result }
{
    store.network().law_limits();
    store.law_exact();
    let y = store.network().scope(pair.function)[pair.other as usize];
    let mut least = u64::MAX;
    for other in store.live(y) {
        let found = store.least_between(pair.function, pair.place, value, pair.other, *other);
        let total = with_unary(found, store.unary(y, *other));
        if total == 0 {
            return 0;
        }
        least = least.min(total);
    }
    least
}

/// The residual cost of the tuple of a line with another value, with the unary cost of that.
#[inline(always)]
fn total_along(line: &Line<'_>, theirs: &Unaries<'_>, other: u32) -> u64
    requires { (P : Network) × (history : List Event) × (pair : PairPlaces) × (a : ℕ) × IsMet P history pair a line.now theirs.now other }
    ensures { (P : Network) (history : List Event) (pair : PairPlaces) (a : ℕ) → IsMet P history pair a line.now theirs.now other
        → IsTotalBetween P history pair a other result }
{
    with_unary(line.least(other), theirs.of(other))
}

/// What was found of the tuples with two values, with the unary cost of the second.
#[inline(always)]
fn with_unary(found: Option<Extreme>, cost: u64) -> u64
    ensures { (P : Network) (history : List Event) (pair : PairPlaces) (a b : ℕ) → pos cost ≡ unary P history (second_of P pair) b
        → MatchOption found (NoneBetween P history pair.function pair.place a pair.other b) (IsLeastBetween P history pair.function pair.place a pair.other b)
        → IsTotalBetween P history pair a b result }
{
    match found {
        Some(extreme) => extreme.cost.saturating_add(cost),
        None => u64::MAX,
    }
}
