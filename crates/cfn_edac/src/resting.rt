//! A quick look whether a variable is existential: whether a value of it has unary cost 0 and a full support in each function
//! of the variable and one other open variable.
//!
//! Where the value that asked nothing last still does so, this is known without gathering the variable's neighbours; only the
//! functions are looked at in which steps made since may have ended it, and of those in which the variable is the lower one
//! only such as wait for directional arc consistency.

ghost use Rattle.std.specs.Prelude.{◌≡◌, ◌-◌, ◌<◌, ◌≤◌, length, slice_index, true, IsTrue};
ghost use Rattle.cfn_model.specs.Network.{arity, variable_at};
ghost use Rattle.cfn_model.specs.Steps.{IsPlace};
ghost use Rattle.cfn_model.specs.Sums.{is_live};
ghost use Rattle.cfn_consistency.specs.Openness.{HasOpenPair};
ghost use Rattle.cfn_consistency.specs.Consistency.{HasFullSupport, IsExistential};
ghost use Rattle.cfn_incidence.specs.Places.{StandsAt};
ghost use Rattle.cfn_rows.specs.Sets.{live_count};
ghost use Rattle.cfn_store.specs.Rooms.{sets_of};
ghost use Rattle.cfn_store.specs.Standing.{history};
ghost use Rattle.cfn_due.specs.Dues.{HasSizes, Holds};
ghost use Rattle.cfn_due.specs.Resting.{AreSure};
ghost use Rattle.cfn_edac.specs.Resting.{RestsOn};

use crate::neighbours::wide_neighbour_at;
use cfn_dac::{Pair, least_total};
use cfn_due::{Due, Rests};
use cfn_incidence::{Incidence, Place};
use cfn_store::Store;

/// Whether the value that may rest is live, has the unary cost 0, and, where its variable is open, has a full support in each
/// function of the variable and one other open variable: then the variable is existential.
pub(crate) fn is_at_rest(
    rests: &mut Rests,
    due: &Due,
    store: &Store<'_>,
    incidence: &Incidence,
    x: u32,
) -> bool
    requires incidence { incidence.now ≡ store.now.network }
    requires sizes { HasSizes store.now.network due.now }
    requires holds { Holds store.now.network (history store.now) due.now }
    requires variable { x < length store.now.network.sizes }
    requires sure { AreSure store.now.network (history store.now) rests.old }
    ensures existential { result ≡ true → IsExistential store.now.network (history store.now) x }
    ensures sure { AreSure store.now.network (history store.now) rests.new }
{
    store.network().law_limits();
    store.law_exact();
    let value = rests.value(x);
    if value >= store.network().size(x) || !store.is_live(x, value) || store.unary(x, value) > 0 {
        return false;
    }
    if store.count(x) < 2 {
        return true;
    }
    for place in incidence.places(x) {
        if !rests_on(rests, due, store, *place, x, value) {
            return false;
        }
    }
    true
}

/// Whether the live value of the open variable `x` at a place has a full support in the place's function with regard to the other
/// open variable, where there is one other. What is seen is remembered.
fn rests_on(
    rests: &mut Rests,
    due: &Due,
    store: &Store<'_>,
    place: Place,
    x: u32,
    value: u32,
) -> bool
    requires sizes { HasSizes store.now.network due.now }
    requires holds { Holds store.now.network (history store.now) due.now }
    requires stands { StandsAt store.now.network x place }
    requires open { 2 ≤ live_count (sets_of store.now) x }
    requires live { IsTrue (is_live (history store.now) x value) }
    requires place { IsPlace store.now.network place.function place.place value }
    requires value { value ≡ slice_index rests.old.values x }
    requires sure { AreSure store.now.network (history store.now) rests.old }
    ensures rests { result ≡ true → RestsOn store.now.network (history store.now) place value }
    ensures sure { AreSure store.now.network (history store.now) rests.new }
    ensures values { rests.new.values ≡ rests.old.values }
{
    store.network().law_limits();
    if place.other == x {
        return rests_on_wide(rests, store, place, x, value);
    }
    if store.count(place.other) < 2 || rests.is_sure(place) {
        return true;
    }
    if !has_full_support(due, store, place, x, value) {
        return false;
    }
    rests.rely(place);
    true
}

/// The same of a function of one variable, or of three or more: it asks nothing where it has no other open variable, or more than
/// one.
fn rests_on_wide(rests: &mut Rests, store: &Store<'_>, place: Place, x: u32, value: u32) -> bool
    requires stands { StandsAt store.now.network x place }
    requires place { IsPlace store.now.network place.function place.place value }
    requires live { IsTrue (is_live (history store.now) x value) }
    requires value { value ≡ slice_index rests.old.values x }
    requires sure { AreSure store.now.network (history store.now) rests.old }
    ensures rests { result ≡ true → RestsOn store.now.network (history store.now) place value }
    ensures sure { AreSure store.now.network (history store.now) rests.new }
    ensures values { rests.new.values ≡ rests.old.values }
{
    if rests.is_sure(place) {
        return true;
    }
    let Some(pair) = wide_neighbour_at(store, place) else {
        return true;
    };
    if !has_full_support_at(store, place, pair.other, value) {
        return false;
    }
    rests.rely(place);
    true
}

/// Whether a live value of `x` is seen to have a full support with regard to the other variable: each value of the lower one has
/// one, where the function does not wait for directional arc consistency.
fn has_full_support(due: &Due, store: &Store<'_>, place: Place, x: u32, value: u32) -> bool
    requires sizes { HasSizes store.now.network due.now }
    requires holds { Holds store.now.network (history store.now) due.now }
    requires stands { StandsAt store.now.network x place }
    requires two { arity store.now.network place.function ≡ 2 }
    requires open { HasOpenPair store.now.network (history store.now) place.function place.place (1 - place.place) }
    requires place { IsPlace store.now.network place.function place.place value }
    requires live { IsTrue (is_live (history store.now) x value) }
    ensures { result ≡ true → HasFullSupport store.now.network (history store.now) place.function place.place (1 - place.place) value }
{
    store.network().law_limits();
    if x < place.other && due.is_directed(place.function) {
        return true;
    }
    has_full_support_at(store, place, 1 - place.place, value)
}

/// Whether a live value at a place has a full support with regard to the other open place.
fn has_full_support_at(store: &Store<'_>, place: Place, other: u32, value: u32) -> bool
    requires open { HasOpenPair store.now.network (history store.now) place.function place.place other }
    requires place { IsPlace store.now.network place.function place.place value }
    requires live { IsTrue (is_live (history store.now) (variable_at store.now.network place.function place.place) value) }
    ensures { result ≡ true → HasFullSupport store.now.network (history store.now) place.function place.place other value }
{
    store.network().law_limits();
    let pair = Pair {
        function: place.function,
        place: place.place,
        other,
    };
    least_total(store, pair, value) == 0
}
