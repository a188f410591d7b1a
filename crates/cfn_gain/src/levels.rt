//! A variable's unary costs (Larrosa and Schiex, Solving weighted CSP by maintaining arc consistency, 2004).

ghost use Rattle.std.specs.Prelude.{◌≡◌, ◌+◌, ◌<◌, ◌≤◌, ℕ, length};
ghost use Rattle.cfn_gain.specs.Passes.{IsLeast};
ghost use Rattle.cfn_model.specs.Sums.{floor};
ghost use Rattle.cfn_store.specs.Standing.{history};
ghost use Rattle.cfn_gain.specs.Calls.{GoesOn, Does, Shows};
ghost use Rattle.cfn_gain.specs.Gains.{Gains, GainsBehind, HasCostly};
ghost use Rattle.cfn_gain.specs.Levels.{AreBelow, IsLevel, AreAllCostly, AreAllAtLeast, RisesBy, AddsCuts, LiftsFirst};

use crate::limits::{Halt, Limits};
use crate::moves::{cut_value, lacking, lift};
use crate::nodes::least;
use cfn_store::Store;

/// Lifts from a variable what its live values have in common, by one step, but no more than the floor lacks, and cuts those
/// whose unary cost reaches what the floor lacks then. Where no step was made, a live value costs nothing, and none reaches the
/// threshold. Where each live value costs something the steps also close a group that others began. The floor rises by what each
/// of them costs at least.
pub fn level(store: &mut Store<'_>, limits: Limits, x: u32) -> Result<(), Halt>
    requires goes { GoesOn store.old limits }
    requires variable { x < length store.old.network.sizes }
    ensures does { Does store.old store.new limits result }
    ensures gains { Gains store.old store.new limits result }
    ensures closes { AreAllCostly store.old.network (history store.old) x → GainsBehind store.old store.new limits result }
    ensures lifts { (least : ℕ) → IsLeast store.old.network (history store.old) x least → 0 < least → LiftsFirst store.old store.new limits x least result }
    ensures cuts { IsLeast store.old.network (history store.old) x 0 → AddsCuts store.old store.new x }
    ensures rises { (amount : ℕ) → AreAllAtLeast store.old.network (history store.old) x amount → floor store.old.network (history store.old) + amount ≤ limits.threshold → RisesBy store.old store.new amount result }
    ensures level { Shows store.old store.new result (IsLevel store.old.network (history store.old) limits.threshold x) }
{
    if store.live(x).is_empty() {
        return Err(Halt::Dead);
    }
    let least = least(store, x);
    if least > 0 {
        lift(store, limits, x, least)?;
    }
    cut_costly(store, limits, x)
}

/// Cuts the live values of a variable whose unary cost reaches what the floor lacks. Where there is one the steps also close
/// a group that others began.
pub fn cut_costly(store: &mut Store<'_>, limits: Limits, x: u32) -> Result<(), Halt>
    requires goes { GoesOn store.old limits }
    requires variable { x < length store.old.network.sizes }
    ensures does { Does store.old store.new limits result }
    ensures gains { Gains store.old store.new limits result }
    ensures closes { HasCostly store.old.network (history store.old) limits.threshold x 0 → GainsBehind store.old store.new limits result }
    ensures cuts { AddsCuts store.old store.new x }
    ensures below { Shows store.old store.new result (AreBelow store.old.network (history store.old) limits.threshold x) }
{
    let lacks = lacking(store, limits);
    for value in 0..store.network().size(x) {
        if store.is_live(x, value) && store.unary(x, value) >= lacks {
            cut_value(store, limits, x, value)?;
        }
    }
    Ok(())
}
