//! Whether each live tuple of a function with a value at a place costs at least an amount.
//!
//! One tuple that costs less is looked for, and no further than to the first. In a function of two variables it is mostly the one
//! with which the value cost nothing last, so that one is looked at first (the last supports of AC-2001; Bessiere, Regin, Yap and
//! Zhang, An optimal coarse-grained arc consistency algorithm, 2005).

ghost use Rattle.std.specs.Prelude.{◌≡◌, ℕ, ◌-◌, ◌<◌, ◌≤◌, true, false, length, IsTrue, IsSomeAnd, IfSome};
ghost use Rattle.cfn_model.specs.Network.{arity, variable_at};
ghost use Rattle.cfn_model.specs.Sums.{is_live};
ghost use Rattle.cfn_model.specs.Steps.{IsPlace, CanProject};
ghost use Rattle.cfn_consistency.specs.Virtual.{HasCheapTuple};
ghost use Rattle.cfn_scan.specs.Lines.{IsLine};
ghost use Rattle.cfn_store.specs.Standing.{history};

use cfn_scan::{Extreme, Line};
use cfn_store::Store;

/// Whether each live tuple of `f` with a value at a place costs at least `q`.
pub(crate) fn costs_at_least(store: &Store<'_>, f: u32, place: u32, value: u32, q: u64) -> bool
    requires { IsPlace store.now.network f place value }
    ensures yes { result ≡ true → CanProject store.now.network (history store.now) f place value q }
    ensures no { result ≡ false → HasCheapTuple store.now.network (history store.now) f place value q }
{
    store.network().law_limits();
    if store.network().scope(f).len() == 2 {
        if let Some(line) = store.line(f, place, value, 1 - place) {
            let y = store.network().scope(f)[(1 - place) as usize];
            let known = store.last_supports(f, place);
            return costs_along(store, f, place, value, &line, y, known, q);
        }
    }
    match store.least_residual(f, place, value) {
        Some(least) => least.cost >= q,
        None => true,
    }
}

/// Whether each live value at a place of `f` is seen to have a live tuple that costs less than `q`. It is seen in functions of two
/// variables alone, which are looked up once for all values there.
pub(crate) fn all_cost_less(store: &Store<'_>, f: u32, place: u32, q: u64) -> bool
    requires function { f < length store.now.network.functions }
    requires place { place < arity store.now.network f }
    ensures { result ≡ true → (a : ℕ) → IsPlace store.now.network f place a → IsTrue (is_live (history store.now) (variable_at store.now.network f place) a)
        → HasCheapTuple store.now.network (history store.now) f place a q }
{
    store.network().law_limits();
    let Some(side) = store.side(f, place) else {
        return false;
    };
    let x = store.network().scope(f)[place as usize];
    let y = side.other();
    let known = store.last_supports(f, place);
    for value in store.live(x) {
        let line = side.line(*value);
        if costs_along(store, f, place, *value, &line, y, known, q) {
            return false;
        }
    }
    true
}

/// Whether each live tuple of a function of two variables with a value costs at least `q`, along its line. `y` is the other
/// variable; `known` has values of it with which values cost nothing last.
#[inline(always)]
fn costs_along(
    store: &Store<'_>,
    f: u32,
    place: u32,
    value: u32,
    line: &Line<'_>,
    y: u32,
    known: &[u32],
    q: u64,
) -> bool
    requires two { arity store.now.network f ≡ 2 }
    requires other { y ≡ variable_at store.now.network f (1 - place) }
    requires place { IsPlace store.now.network f place value }
    requires line { IsLine store.now.network (history store.now) f place value (1 - place) line.now }
    ensures yes { result ≡ true → CanProject store.now.network (history store.now) f place value q }
    ensures no { result ≡ false → HasCheapTuple store.now.network (history store.now) f place value q }
{
    store.network().law_limits();
    if costs_less_still(store, f, place, value, line, y, known, q) {
        return false;
    }
    for other in store.live(y) {
        if is_cheaper(line.least(*other), q) {
            return false;
        }
    }
    true
}

/// Whether a value costs less than `q` together with the other value with which it cost nothing last.
#[inline(always)]
fn costs_less_still(
    store: &Store<'_>,
    f: u32,
    place: u32,
    value: u32,
    line: &Line<'_>,
    y: u32,
    known: &[u32],
    q: u64,
) -> bool
    requires two { arity store.now.network f ≡ 2 }
    requires other { y ≡ variable_at store.now.network f (1 - place) }
    requires place { IsPlace store.now.network f place value }
    requires line { IsLine store.now.network (history store.now) f place value (1 - place) line.now }
    ensures { result ≡ true → HasCheapTuple store.now.network (history store.now) f place value q }
{
    store.network().law_limits();
    let Some(last) = known.get(value as usize) else {
        return false;
    };
    if *last >= store.network().size(y) || !store.is_live(y, *last) {
        return false;
    }
    is_cheaper(line.least(*last), q)
}

/// Whether what was found costs less than `q`.
#[inline(always)]
fn is_cheaper(found: Option<Extreme>, q: u64) -> bool
    ensures yes { result ≡ true → IsSomeAnd found (λ extreme. extreme.cost < q) }
    ensures no { result ≡ false → IfSome found (λ extreme. q ≤ extreme.cost) }
{
    match found {
        Some(extreme) => extreme.cost < q,
        None => false,
    }
}
