//! The variable is the open one with the fewest live values (Haralick and Elliott, 1980), and of those the least. Where it has
//! eight live values or more they are halved by a bound; else the value is that of the least unary cost.
//!
//! One pass over the variables, and one over the values of the variable that is chosen. It takes no memory.

ghost use Rattle.std.specs.Prelude.{◌≡◌, MatchOption, IfSome};
ghost use Rattle.cfn_branch.specs.Choosing.{AllDecided, IsOpen, IsSplit};
ghost use Rattle.cfn_branch.specs.Fewest.{IsFewest, IsMiddle, IsFewestSplit};
ghost use Rattle.cfn_branch.specs.Passing.{IsFewerOf};

use crate::choosing::cheapest;
use cfn_model::Decision;
use cfn_store::Store;

/// From how many live values on a split halves them.
pub const HALVED_FROM: u32 = 8;

/// The decision that splits a store on the variable that `choose_fewest` names: at most its middle live value, where it has
/// `HALVED_FROM` or more; else its cheapest value. `None` exactly where each variable has at most one live value.
pub fn split_fewest(store: &Store<'_>) -> Option<Decision>
    ensures splits { MatchOption result (AllDecided store.now) (IsSplit store.now) }
    ensures named { IfSome result (IsFewestSplit store.now) }
{
    let variable = choose_fewest(store)?;
    if store.count(variable) >= HALVED_FROM {
        let value = middle(store, variable);
        Some(Decision::Most { variable, value })
    } else {
        let value = cheapest(store, variable);
        Some(Decision::Is { variable, value })
    }
}

/// The open variable, which has two live values or more, with the fewest live values, and of those the least. `None` exactly
/// where each variable has at most one live value.
pub fn choose_fewest(store: &Store<'_>) -> Option<u32>
    ensures { MatchOption result (AllDecided store.now) (IsFewest store.now) }
{
    store.network().law_limits();
    let mut best: Option<u32> = None;
    for x in 0..store.network().variables() {
        if store.count(x) >= 2 {
            best = Some(fewer_of(store, best, x));
        }
    }
    best
}

/// The variable with fewer live values of the best so far, where there is one, and a variable behind it.
fn fewer_of(store: &Store<'_>, best: Option<u32>, next: u32) -> u32
    requires best { IfSome best (IsOpen store.now) }
    requires next { IsOpen store.now next }
    ensures { IsFewerOf store.now best next result }
{
    match best {
        Some(best) if store.count(best) <= store.count(next) => best,
        _ => next,
    }
}

/// The middle one of the live values of an open variable: one half of them, rounded down, is at most that.
pub fn middle(store: &Store<'_>, x: u32) -> u32
    requires { IsOpen store.now x }
    ensures { IsMiddle store.now x result }
{
    store.network().law_limits();
    let count = store.count(x);
    let mut value = 0;
    let mut rest = count / 2 - u32::from(store.is_live(x, value));
    while rest > 0 {
        value += 1;
        rest -= u32::from(store.is_live(x, value));
    }
    value
}
