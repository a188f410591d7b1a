//! One variable made existential.
//!
//! A value that asks nothing (`asking.rt`) is what is looked for. Where each asks something, the least that is asked can be
//! lifted: each neighbour moves to the values what they lack of it, as far as the neighbour has it, and the lift follows.

ghost use Rattle.std.specs.Prelude.{◌≡◌, ◌<◌, ◌≤◌, length, slice_index, MatchOption, IfSome, true};
ghost use Rattle.cfn_consistency.specs.Consistency.{IsExistential};
ghost use Rattle.cfn_store.specs.Standing.{history};
ghost use Rattle.cfn_gain.specs.Calls.{GoesOn, Does, Shows};
ghost use Rattle.cfn_gain.specs.Gains.{Gains};
ghost use Rattle.cfn_edac.specs.Neighbours.{AreNeighbours, HasGood, IsGood};
ghost use Rattle.cfn_model.specs.Steps.{IsValue};
ghost use Rattle.cfn_due.specs.Dues.{HasSizes, Holds};
ghost use Rattle.cfn_due.specs.Resting.{AreSure};
ghost use Rattle.cfn_edac.specs.Owing.{IsAsked, RaisesUnlessExistential};
ghost use Rattle.cfn_gain.specs.Levels.{RisesBy};
ghost use Rattle.cfn_gain.specs.Passes.{HasLive};

use crate::asking::asked;
use crate::neighbours::Neighbours;
use crate::resting::is_at_rest;
use cfn_dac::{Pair, full_supports};
use cfn_due::{Due, Rests};
use cfn_gain::{Halt, Limits, lacking, level};
use cfn_incidence::Incidence;
use cfn_store::Store;

/// Makes a variable existential, by a lift of the least amount that a live value asks: where no step was made, a live value of unary cost 0 has a full support in each first
/// function of the variable and another open one. `moves` is room for an amount for each of its values.
pub fn existential(
    neighbours: &mut Neighbours<'_>,
    rests: &mut Rests,
    due: &Due,
    store: &mut Store<'_>,
    incidence: &Incidence,
    limits: Limits,
    x: u32,
    moves: &mut [u64],
) -> Result<(), Halt>
    requires goes { GoesOn store.old limits }
    requires sure { AreSure store.old.network (history store.old) rests.old }
    requires sizes { HasSizes store.old.network due.now }
    requires holds { Holds store.old.network (history store.old) due.now }
    requires network { store.old.network ≡ neighbours.old.network }
    requires incidence { incidence.now ≡ neighbours.old.network }
    requires variable { x < length store.old.network.sizes }
    requires moves { slice_index store.old.network.sizes x ≤ length moves.old }
    ensures does { Does store.old store.new limits result }
    ensures gains { Gains store.old store.new limits result }
    ensures existential { Shows store.old store.new result (IsExistential store.old.network (history store.old) x) }
    ensures raises { RaisesUnlessExistential store.old store.new limits.threshold x result }
    // Of the store before its steps.
    ensures sure { AreSure store.old.network (history store.old) rests.new }
    ensures network { neighbours.new.network ≡ neighbours.old.network }
    ensures same { length moves.new ≡ length moves.old }
{
    store.network().law_limits();
    if is_at_rest(rests, due, store, incidence, x) {
        return Ok(());
    }
    neighbours.gather(store, incidence, x);
    if let Some(value) = good_value(neighbours.pairs(), store, x, rests.value(x)) {
        rests.keep(incidence, x, value);
        return Ok(());
    }
    match ask(neighbours.pairs(), store, limits, x) {
        Some(alpha) => raise(neighbours.pairs(), store, limits, x, alpha, moves),
        None => Ok(()),
    }
}

/// Moves to the values of a variable what they lack of `alpha`, as far as its neighbours have it, and lifts what all of them have
/// then: that is `alpha` at least, since each value comes to it with what its neighbours have.
fn raise(
    pairs: &[Pair],
    store: &mut Store<'_>,
    limits: Limits,
    x: u32,
    alpha: u64,
    moves: &mut [u64],
) -> Result<(), Halt>
    requires goes { GoesOn store.old limits }
    requires variable { x < length store.old.network.sizes }
    requires neighbours { AreNeighbours store.old.network (history store.old) x pairs.now }
    requires alpha { IsAsked store.old.network (history store.old) limits.threshold x pairs.now alpha }
    requires moves { slice_index store.old.network.sizes x ≤ length moves.old }
    ensures does { Does store.old store.new limits result }
    ensures gains { Gains store.old store.new limits result }
    ensures good { Shows store.old store.new result (HasGood store.old.network (history store.old) x pairs.now) }
    ensures rises { HasLive store.old.network (history store.old) x → RisesBy store.old store.new alpha result }
    ensures same { length moves.new ≡ length moves.old }
{
    store.network().law_limits();
    for pair in pairs {
        let cap = alpha.min(lacking(store, limits));
        full_supports(store, limits, *pair, cap, moves)?;
    }
    store.law_exact();
    level(store, limits, x)
}

/// The least that a live value of a variable asks, up to what the floor lacks; `None` where one asks nothing.
fn ask(pairs: &[Pair], store: &Store<'_>, limits: Limits, x: u32) -> Option<u64>
    requires goes { GoesOn store.now limits }
    requires variable { x < length store.now.network.sizes }
    requires neighbours { AreNeighbours store.now.network (history store.now) x pairs.now }
    ensures { MatchOption result (HasGood store.now.network (history store.now) x pairs.now)
        (IsAsked store.now.network (history store.now) limits.threshold x pairs.now) }
{
    let mut least = lacking(store, limits);
    for value in store.live(x) {
        let asked = asked(pairs, store, x, *value, least - 1);
        if asked == 0 {
            return None;
        }
        least = least.min(asked);
    }
    Some(least)
}

/// A live value of a variable that asks nothing, where there is one; `first` is looked at first. Of each value it looks no
/// further than to the first thing that it asks.
fn good_value(pairs: &[Pair], store: &Store<'_>, x: u32, first: u32) -> Option<u32>
    requires variable { x < length store.now.network.sizes }
    requires neighbours { AreNeighbours store.now.network (history store.now) x pairs.now }
    ensures { IfSome result (IsGood store.now.network (history store.now) x pairs.now) }
{
    store.network().law_limits();
    if first < store.network().size(x) && asks_nothing(pairs, store, x, first) {
        return Some(first);
    }
    for value in store.live(x) {
        if asks_nothing(pairs, store, x, *value) {
            return Some(*value);
        }
    }
    None
}

/// Whether a value is live and asks nothing.
fn asks_nothing(pairs: &[Pair], store: &Store<'_>, x: u32, value: u32) -> bool
    requires value { IsValue store.now.network x value }
    requires neighbours { AreNeighbours store.now.network (history store.now) x pairs.now }
    ensures { result ≡ true → IsGood store.now.network (history store.now) x pairs.now value }
{
    store.is_live(x, value) && asked(pairs, store, x, value, 0) == 0
}
