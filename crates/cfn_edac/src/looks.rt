//! What is done to a store where a function or all variables are looked at.

ghost use Rattle.std.specs.Prelude.{◌≡◌, ◌<◌, true, length, IfSome};
ghost use Rattle.cfn_model.specs.Network.{arity};
ghost use Rattle.cfn_consistency.specs.Openness.{TakesPart};
ghost use Rattle.cfn_consistency.specs.Consistency.{IsNodeConsistent, IsArcConsistent};
ghost use Rattle.cfn_store.specs.Peaks.{HasPeak};
ghost use Rattle.cfn_store.specs.Standing.{history};
ghost use Rattle.cfn_gain.specs.Calls.{GoesOn, Does, Shows};
ghost use Rattle.cfn_gain.specs.Gains.{Gains};
ghost use Rattle.cfn_gain.specs.Levels.{IsLevel};
ghost use Rattle.cfn_due.specs.Siding.{HasSupports, AreSupported};

use cfn_dac::takes_part;
use cfn_due::Sides;
use cfn_gain::{Halt, Limits, lacking, level, support_all, support_at};
use cfn_store::Store;

/// Makes each variable level: those that are not known to be.
pub(crate) fn levels(store: &mut Store<'_>, limits: Limits) -> Result<(), Halt>
    requires goes { GoesOn store.old limits }
    ensures does { Does store.old store.new limits result }
    ensures gains { Gains store.old store.new limits result }
    ensures nodes { Shows store.old store.new result (IsNodeConsistent store.old.network (history store.old) limits.threshold) }
{
    let network = store.network();
    network.law_limits();
    let mut x = store.next_unknown_peak(0, lacking(store, limits));
    while x < network.variables() {
        level_at(store, limits, x)?;
        x = store.next_unknown_peak(x + 1, lacking(store, limits));
    }
    Ok(())
}

/// Makes a variable level. Most are, which one walk over the live values shows; the store then remembers it.
fn level_at(store: &mut Store<'_>, limits: Limits, x: u32) -> Result<(), Halt>
    requires goes { GoesOn store.old limits }
    requires variable { x < length store.old.network.sizes }
    ensures does { Does store.old store.new limits result }
    ensures gains { Gains store.old store.new limits result }
    ensures level { Shows store.old store.new result (IsLevel store.old.network (history store.old) limits.threshold x) }
{
    if let Some(peak) = peak_of(store, x) {
        store.note_peak(x, peak);
        if peak < lacking(store, limits) {
            return Ok(());
        }
    }
    level(store, limits, x)
}

/// What the dearest live value of a variable costs, where one of them costs nothing.
fn peak_of(store: &Store<'_>, x: u32) -> Option<u64>
    requires { x < length store.now.network.sizes }
    ensures { IfSome result (HasPeak store.now.network (history store.now) x) }
{
    let costs = store.unaries(x);
    let mut has_free = false;
    let mut peak = 0;
    for value in store.live(x) {
        let cost = costs.of(*value);
        has_free = has_free || cost == 0;
        peak = peak.max(cost);
    }
    if has_free { Some(peak) } else { None }
}

/// Makes a function arc consistent, where it takes part, and where that made steps its variables level. Of a function of two
/// variables only places in doubt are looked at.
pub(crate) fn arc(store: &mut Store<'_>, limits: Limits, f: u32, sides: &Sides) -> Result<(), Halt>
    requires goes { GoesOn store.old limits }
    requires function { f < length store.old.network.functions }
    requires known { AreSupported store.old.network (history store.old) sides.now }
    ensures does { Does store.old store.new limits result }
    ensures gains { Gains store.old store.new limits result }
    ensures arc { Shows store.old store.new result (TakesPart store.old.network (history store.old) f → IsArcConsistent store.old.network (history store.old) f) }
{
    if !takes_part(store, f) {
        return Ok(());
    }
    let before = store.block_len();
    support_sides(store, limits, f, sides)?;
    if store.block_len() == before {
        return Ok(());
    }
    levels_of(store, limits, f)
}

/// Makes the live values of each variable of a function arc consistent in it, or those at one place in doubt.
fn support_sides(store: &mut Store<'_>, limits: Limits, f: u32, sides: &Sides) -> Result<(), Halt>
    requires goes { GoesOn store.old limits }
    requires function { f < length store.old.network.functions }
    requires part { TakesPart store.old.network (history store.old) f }
    requires known { AreSupported store.old.network (history store.old) sides.now }
    ensures does { Does store.old store.new limits result }
    ensures gains { Gains store.old store.new limits result }
    ensures supports { Shows store.old store.new result (IsArcConsistent store.old.network (history store.old) f) }
{
    store.network().law_limits();
    if store.network().scope(f).len() != 2 {
        return support_all(store, limits, f);
    }
    let before = store.block_len();
    support_side(store, limits, f, 0, sides)?;
    if store.block_len() > before {
        return Ok(());
    }
    support_side(store, limits, f, 1, sides)
}

/// Makes the live values at a place of a function of two variables arc consistent, where it is in doubt.
fn support_side(
    store: &mut Store<'_>,
    limits: Limits,
    f: u32,
    place: u32,
    sides: &Sides,
) -> Result<(), Halt>
    requires goes { GoesOn store.old limits }
    requires function { f < length store.old.network.functions }
    requires part { TakesPart store.old.network (history store.old) f }
    requires two { arity store.old.network f ≡ 2 }
    requires place { place < 2 }
    requires known { AreSupported store.old.network (history store.old) sides.now }
    ensures does { Does store.old store.new limits result }
    ensures gains { Gains store.old store.new limits result }
    ensures supports { Shows store.old store.new result (HasSupports store.old.network (history store.old) f place) }
{
    if !sides.is_doubted(f, place) || is_met(store, f, place, sides) {
        return Ok(());
    }
    support_at(store, limits, f, place)
}

/// Whether the live value at a place of a function of two variables, where there is no other one, is seen to have a support: the
/// other place has a live value and is not in doubt, and a support of that value is one of this value too.
fn is_met(store: &Store<'_>, f: u32, place: u32, sides: &Sides) -> bool
    requires function { f < length store.now.network.functions }
    requires two { arity store.now.network f ≡ 2 }
    requires place { place < 2 }
    requires known { AreSupported store.now.network (history store.now) sides.now }
    ensures { result ≡ true → HasSupports store.now.network (history store.now) f place }
{
    store.network().law_limits();
    if sides.is_doubted(f, 1 - place) {
        return false;
    }
    let scope = store.network().scope(f);
    store.count(scope[place as usize]) < 2 && store.count(scope[1 - place as usize]) > 0
}

/// Makes the variables of a function level.
fn levels_of(store: &mut Store<'_>, limits: Limits, f: u32) -> Result<(), Halt>
    requires goes { GoesOn store.old limits }
    requires function { f < length store.old.network.functions }
    ensures does { Does store.old store.new limits result }
    ensures gains { Gains store.old store.new limits result }
{
    let network = store.network();
    network.law_limits();
    for x in network.scope(f) {
        level(store, limits, *x)?;
    }
    Ok(())
}
