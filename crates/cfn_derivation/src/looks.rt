//! What a function deletes: a live value at one of its places where each live tuple with it has a residual cost of at least an amount.

ghost use Rattle.std.specs.Prelude.{◌≡◌, ◌≢◌, ℕ, ◌<◌, true, false, ◌∷◌, length, IsTrue, IsFalse, None, MatchOption};
ghost use Rattle.cfn_model.specs.Network.{arity, variable_at};
ghost use Rattle.cfn_model.specs.Steps.{IsPlace};
ghost use Rattle.cfn_queue.specs.Waiting.{is_in, AreBelow};
ghost use Rattle.cfn_consistency.specs.declared.deletion.Reason.TheVariants.{By};
ghost use Rattle.cfn_consistency.specs.Openness.{TakesPart};
ghost use Rattle.cfn_consistency.specs.Virtual.{IsDeletion};
ghost use Rattle.cfn_incidence.specs.Places.{ArePlaces, StandsAt};
ghost use Rattle.cfn_store.specs.Standing.{history};
ghost use Rattle.cfn_derivation.specs.Derived.{AllAlive, EmptiesLast};
ghost use Rattle.cfn_derivation.specs.Banned.{bans_of};
ghost use Rattle.cfn_derivation.specs.Working.{HasRoom, NoneWaitsBehind, IsQuietAt, IsDone, Goes};

use crate::bans::Bans;
use crate::costs::{all_cost_less, costs_at_least};
use crate::work::Work;
use cfn_consistency::{Deletion, Reason};
use cfn_dac::takes_part;
use cfn_incidence::Place;
use cfn_store::Store;

/// Looks at functions, one after another. Ends with a variable that is emptied.
pub(crate) fn look_all(
    store: &mut Store<'_>,
    work: &mut Work,
    q: u64,
    bans: &Bans<'_>,
    functions: &[u32],
) -> Option<u32>
    requires some { 0 < q }
    requires bans { bans.now.network ≡ store.old.network }
    requires functions { AreBelow (length store.old.network.functions) functions.now }
    requires room { HasRoom store.old work.old }
    requires alive { AllAlive store.old.network (history store.old) }
    requires done { (f : ℕ) → IsFalse (is_in f functions.now) → IsDone store.old.network (history store.old) q (bans_of bans.now) work.old.waiting.items f }
    ensures goes { Goes q (bans_of bans.now) store.old store.new work.old work.new }
    ensures ends { MatchOption result (AllAlive store.new.network (history store.new)) (EmptiesLast store.new.network (history store.new)) }
    ensures done { result ≡ None → (f : ℕ) → IsDone store.new.network (history store.new) q (bans_of bans.now) work.new.waiting.items f }
{
    for f in functions {
        let emptied = look(store, work, q, bans, *f);
        if emptied.is_some() {
            return emptied;
        }
    }
    None
}

/// Looks at the functions on a variable that waits no longer. Ends with a variable that is emptied.
pub(crate) fn look_around(
    store: &mut Store<'_>,
    work: &mut Work,
    q: u64,
    bans: &Bans<'_>,
    x: u32,
    places: &[Place],
) -> Option<u32>
    requires some { 0 < q }
    requires bans { bans.now.network ≡ store.old.network }
    requires places { ArePlaces store.old.network x places.now }
    requires room { HasRoom store.old work.old }
    requires alive { AllAlive store.old.network (history store.old) }
    requires done { (f : ℕ) → IsDone store.old.network (history store.old) q (bans_of bans.now) (x ∷ work.old.waiting.items) f }
    ensures goes { Goes q (bans_of bans.now) store.old store.new work.old work.new }
    ensures ends { MatchOption result (AllAlive store.new.network (history store.new)) (EmptiesLast store.new.network (history store.new)) }
    ensures done { result ≡ None → (f : ℕ) → IsDone store.new.network (history store.new) q (bans_of bans.now) work.new.waiting.items f }
{
    for place in places {
        let emptied = look_behind(store, work, q, bans, x, *place);
        if emptied.is_some() {
            return emptied;
        }
    }
    None
}

/// Looks at a function at a place of which `x` stands, and waits no longer. Ends with a variable that is emptied.
fn look_behind(
    store: &mut Store<'_>,
    work: &mut Work,
    q: u64,
    bans: &Bans<'_>,
    x: u32,
    from: Place,
) -> Option<u32>
    requires some { 0 < q }
    requires bans { bans.now.network ≡ store.old.network }
    requires place { StandsAt store.old.network x from }
    requires room { HasRoom store.old work.old }
    requires alive { AllAlive store.old.network (history store.old) }
    requires done { IsDone store.old.network (history store.old) q (bans_of bans.now) (x ∷ work.old.waiting.items) from.function }
    ensures goes { Goes q (bans_of bans.now) store.old store.new work.old work.new }
    ensures ends { MatchOption result (AllAlive store.new.network (history store.new)) (EmptiesLast store.new.network (history store.new)) }
    ensures done { result ≡ None → IsDone store.new.network (history store.new) q (bans_of bans.now) work.new.waiting.items from.function }
{
    if from.other == x {
        return look(store, work, q, bans, from.function);
    }
    let network = store.network();
    network.law_limits();
    for place in 0..2 {
        if look_unless_quiet(store, work, q, bans, x, from, place) {
            return Some(network.scope(from.function)[place as usize]);
        }
    }
    None
}

/// Deletes values at one place of a function of two variables, and tells whether that emptied its variable. The place of `x` is passed
/// over unless the other variable waits: nothing has changed for its values.
fn look_unless_quiet(
    store: &mut Store<'_>,
    work: &mut Work,
    q: u64,
    bans: &Bans<'_>,
    x: u32,
    from: Place,
    place: u32,
) -> bool
    requires some { 0 < q }
    requires bans { bans.now.network ≡ store.old.network }
    requires from { StandsAt store.old.network x from }
    requires other { from.other ≢ x }
    requires place { place < 2 }
    requires room { HasRoom store.old work.old }
    requires alive { AllAlive store.old.network (history store.old) }
    requires done { IsDone store.old.network (history store.old) q (bans_of bans.now) (x ∷ work.old.waiting.items) from.function }
    ensures goes { Goes q (bans_of bans.now) store.old store.new work.old work.new }
    ensures emptied { result ≡ true → EmptiesLast store.new.network (history store.new) (variable_at store.old.network from.function place) }
    ensures alive { result ≡ false → AllAlive store.new.network (history store.new) }
    ensures quiet { result ≡ false → NoneWaitsBehind store.new.network work.new.waiting.items from.function place → (a : ℕ) → IsQuietAt store.new.network (history store.new) q (bans_of bans.now) from.function place a }
{
    store.network().law_limits();
    if place == from.place && !work.waits(from.other) {
        return false;
    }
    look_at(store, work, q, bans, from.function, place)
}

/// Looks at each place of `f`, where it takes part. Ends with a variable that is emptied.
fn look(store: &mut Store<'_>, work: &mut Work, q: u64, bans: &Bans<'_>, f: u32) -> Option<u32>
    requires some { 0 < q }
    requires bans { bans.now.network ≡ store.old.network }
    requires function { f < length store.old.network.functions }
    requires room { HasRoom store.old work.old }
    requires alive { AllAlive store.old.network (history store.old) }
    ensures goes { Goes q (bans_of bans.now) store.old store.new work.old work.new }
    ensures ends { MatchOption result (AllAlive store.new.network (history store.new)) (EmptiesLast store.new.network (history store.new)) }
    ensures done { result ≡ None → IsDone store.new.network (history store.new) q (bans_of bans.now) work.new.waiting.items f }
{
    let network = store.network();
    network.law_limits();
    if !takes_part(store, f) {
        return None;
    }
    for place in 0..network.scope(f).len() as u32 {
        if look_at(store, work, q, bans, f, place) {
            return Some(network.scope(f)[place as usize]);
        }
    }
    None
}

/// Deletes values at one place of `f`, and tells whether that emptied its variable.
fn look_at(
    store: &mut Store<'_>,
    work: &mut Work,
    q: u64,
    bans: &Bans<'_>,
    f: u32,
    place: u32,
) -> bool
    requires some { 0 < q }
    requires bans { bans.now.network ≡ store.old.network }
    requires function { f < length store.old.network.functions }
    requires place { place < arity store.old.network f }
    requires part { TakesPart store.old.network (history store.old) f }
    requires room { HasRoom store.old work.old }
    requires alive { AllAlive store.old.network (history store.old) }
    ensures goes { Goes q (bans_of bans.now) store.old store.new work.old work.new }
    ensures emptied { result ≡ true → EmptiesLast store.new.network (history store.new) (variable_at store.old.network f place) }
    ensures alive { result ≡ false → AllAlive store.new.network (history store.new) }
    ensures quiet { result ≡ false → NoneWaitsBehind store.new.network work.new.waiting.items f place → (a : ℕ) → IsQuietAt store.new.network (history store.new) q (bans_of bans.now) f place a }
{
    let network = store.network();
    network.law_limits();
    if all_cost_less(store, f, place, q) {
        return false;
    }
    let x = network.scope(f)[place as usize];
    for value in 0..network.size(x) {
        if look_value(store, work, q, bans, f, place, value) {
            return true;
        }
    }
    false
}

/// Deletes a value if it is live and `f` deletes it at a place, and tells whether that emptied its variable.
fn look_value(
    store: &mut Store<'_>,
    work: &mut Work,
    q: u64,
    bans: &Bans<'_>,
    f: u32,
    place: u32,
    value: u32,
) -> bool
    requires some { 0 < q }
    requires bans { bans.now.network ≡ store.old.network }
    requires place { IsPlace store.old.network f place value }
    requires part { TakesPart store.old.network (history store.old) f }
    requires room { HasRoom store.old work.old }
    requires alive { AllAlive store.old.network (history store.old) }
    ensures goes { Goes q (bans_of bans.now) store.old store.new work.old work.new }
    ensures emptied { result ≡ true → EmptiesLast store.new.network (history store.new) (variable_at store.old.network f place) }
    ensures alive { result ≡ false → AllAlive store.new.network (history store.new) }
    ensures quiet { NoneWaitsBehind store.new.network work.new.waiting.items f place → IsQuietAt store.new.network (history store.new) q (bans_of bans.now) f place value }
{
    store.network().law_limits();
    if !deletes(store, q, bans, f, place, value) {
        return false;
    }
    let deletion = Deletion {
        variable: store.network().scope(f)[place as usize],
        value,
        reason: Reason::By { function: f, place },
    };
    work.strike(store, deletion)
}

/// Whether a value is live and `f`, which takes part, deletes it at a place.
fn deletes(store: &Store<'_>, q: u64, bans: &Bans<'_>, f: u32, place: u32, value: u32) -> bool
    requires bans { bans.now.network ≡ store.now.network }
    requires place { IsPlace store.now.network f place value }
    requires part { TakesPart store.now.network (history store.now) f }
    ensures yes { result ≡ true → IsDeletion store.now.network (history store.now) q (bans_of bans.now) (record { variable = variable_at store.now.network f place; value = value; reason = By f place }) }
    ensures no { result ≡ false → IsQuietAt store.now.network (history store.now) q (bans_of bans.now) f place value }
{
    store.network().law_limits();
    let x = store.network().scope(f)[place as usize];
    if !store.is_live(x, value) || !costs_at_least(store, f, place, value, q) {
        return false;
    }
    !bans.by(f, place, value)
}
