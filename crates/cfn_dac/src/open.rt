//! Which variables of a function are open, those with two or more live values, and whether it takes part in arc consistency
//! (Cooper et al. 2010): where at most two are, or it has few tuples.

ghost use Rattle.std.specs.Prelude.{◌≡◌, ◌<◌, ◌≤◌, ◌↔◌, length, true, MatchOption};
ghost use Rattle.cfn_model.specs.Network.{arity, variable_at};
ghost use Rattle.cfn_consistency.specs.Openness.{TakesPart, is_open};
ghost use Rattle.cfn_store.specs.Standing.{history};
ghost use Rattle.cfn_dac.specs.Opens.{HasOpens, NoneOpenFrom, IsNextOpen};

use cfn_store::Store;

/// How many tuples a function with three or more open variables may have, so that it takes part all the same.
const MOST_TUPLES_OF_WIDE: u32 = 4_096;

/// How many of a function's variables are open: at most one, two, which stand at these places, the lower one first, or
/// more.
#[derive(Clone, Copy)]
pub enum Opens {
    Few,
    Two { place: u32, other: u32 },
    Many,
}

/// Which variables of `f` are open.
pub fn open_places(store: &Store<'_>, f: u32) -> Opens
    requires { f < length store.now.network.functions }
    ensures { HasOpens store.now.network (history store.now) f result }
{
    store.network().law_limits();
    let Some(place) = next_open(store, f, 0) else {
        return Opens::Few;
    };
    let Some(other) = next_open(store, f, place + 1) else {
        return Opens::Few;
    };
    match next_open(store, f, other + 1) {
        Some(_) => Opens::Many,
        None => Opens::Two { place, other },
    }
}

/// The first place from one on whose variable is open.
fn next_open(store: &Store<'_>, f: u32, from: u32) -> Option<u32>
    requires function { f < length store.now.network.functions }
    requires from { from ≤ arity store.now.network f }
    ensures { MatchOption result (NoneOpenFrom store.now.network (history store.now) f from) (IsNextOpen store.now.network (history store.now) f from) }
{
    store.network().law_limits();
    let scope = store.network().scope(f);
    for place in from..scope.len() as u32 {
        if store.count(scope[place as usize]) >= 2 {
            return Some(place);
        }
    }
    None
}

/// Whether `f` takes part in arc consistency: it has a variable, and at most two that are open or at most 4,096 tuples.
pub fn takes_part(store: &Store<'_>, f: u32) -> bool
    requires { f < length store.now.network.functions }
    ensures { (result ≡ true) ↔ TakesPart store.now.network (history store.now) f }
{
    if store.network().scope(f).is_empty() {
        return false;
    }
    if store.network().cells(f) <= MOST_TUPLES_OF_WIDE {
        return true;
    }
    match open_places(store, f) {
        Opens::Many => false,
        _ => true,
    }
}
