//! What steps touch, and which variables have a costly value.
//!
//! Costs of what is live are never negative on a store's path, so a project or a lift ends no support; an extend ends those of its
//! function, and a cut of a value those of the functions on its variable. A project alone makes a unary cost rise.

ghost use Rattle.std.specs.Prelude.{◌≡◌, ℕ, ◌<◌, ◌≤◌, true, false, List, ◌∷◌, length, take, pos, ◌≤ℤ◌, IsTrue};
ghost use Rattle.cfn_model.specs.declared.step.Event.{Event};
ghost use Rattle.cfn_model.specs.declared.step.Event.TheVariants.{Did};
ghost use Rattle.cfn_model.specs.Steps.{InRange, after};
ghost use Rattle.cfn_queue.specs.Waiting.{is_in};
ghost use Rattle.cfn_due.specs.Going.{IsOn, GoesArc};
ghost use Rattle.cfn_store.specs.Standing.{history};
ghost use Rattle.cfn_derivation.specs.Watched.{TouchedAre, CostlyAre, AreCostly, HasCostly, Rises, Grows};

use crate::listed::Listed;
use cfn_incidence::Incidence;
use cfn_model::Step;
use cfn_net::Network;
use cfn_store::Store;

/// Lists the variables that have a live value with a unary cost of at least `q`, and no other.
pub(crate) fn list_costly(costly: &mut Listed, store: &Store<'_>, q: u64)
    requires { costly.old.size ≡ length store.now.network.sizes }
    ensures size { costly.new.size ≡ costly.old.size }
    ensures all { CostlyAre store.now.network (history store.now) q costly.new.items }
    ensures only { AreCostly store.now.network (history store.now) q costly.new.items }
{
    costly.clear();
    for x in 0..store.network().variables() {
        list_if_costly(costly, store, q, x);
    }
}

/// Lists a variable if it has a live value with a unary cost of at least `q`.
fn list_if_costly(costly: &mut Listed, store: &Store<'_>, q: u64, x: u32)
    requires size { costly.old.size ≡ length store.now.network.sizes }
    requires variable { x < length store.now.network.sizes }
    ensures size { costly.new.size ≡ costly.old.size }
    ensures stay { (y : ℕ) → IsTrue (is_in y costly.old.items) → IsTrue (is_in y costly.new.items) }
    ensures listed { HasCostly store.now.network (history store.now) q x → IsTrue (is_in x costly.new.items) }
    ensures only { AreCostly store.now.network (history store.now) q costly.old.items → AreCostly store.now.network (history store.now) q costly.new.items }
{
    if has_costly(store, q, x) {
        costly.put(x);
    }
}

/// Whether a variable has a live value with a unary cost of at least `q`.
fn has_costly(store: &Store<'_>, q: u64, x: u32) -> bool
    requires { x < length store.now.network.sizes }
    ensures yes { result ≡ true → HasCostly store.now.network (history store.now) q x }
    ensures no { HasCostly store.now.network (history store.now) q x → result ≡ true }
{
    for value in store.live(x) {
        if store.unary(x, *value) >= q {
            return true;
        }
    }
    false
}

/// Lists what the steps of a store's block from a number on touch.
pub(crate) fn note_steps(
    touched: &mut Listed,
    costly: &mut Listed,
    store: &Store<'_>,
    incidence: &Incidence,
    start: usize,
)
    requires incidence { incidence.now ≡ store.now.network }
    requires touched { touched.old.size ≡ length store.now.network.functions }
    requires costly { costly.old.size ≡ length store.now.network.sizes }
    requires start { start ≤ length store.now.block }
    ensures touched_size { touched.new.size ≡ touched.old.size }
    ensures costly_size { costly.new.size ≡ costly.old.size }
    ensures functions { TouchedAre store.now.network (after (take start store.now.block) store.now.base) touched.old.items → TouchedAre store.now.network (history store.now) touched.new.items }
    ensures variables { (q : ℕ) → CostlyAre store.now.network (after (take start store.now.block) store.now.base) q costly.old.items → CostlyAre store.now.network (history store.now) q costly.new.items }
{
    store.law_exact();
    let network = store.network();
    network.law_limits();
    for i in start..store.block_len() {
        let step = store.step(i);
        touch(touched, network, incidence, step);
        raise(costly, network, step);
    }
}

/// Lists the functions whose arc consistency a step may end.
fn touch(touched: &mut Listed, network: &Network, incidence: &Incidence, step: Step)
    requires incidence { incidence.now ≡ network.now }
    requires size { touched.old.size ≡ length network.now.functions }
    requires range { InRange network.now step }
    ensures { Grows (GoesArc network.now (Did step)) touched.old touched.new }
{
    match step {
        Step::Extend { function, .. } | Step::CutTuple { function, .. } => touched.put(function),
        Step::CutValue { variable, .. } => touch_around(touched, incidence, variable),
        Step::Project { .. } | Step::Lift { .. } => {}
    }
}

/// Lists the functions on a variable.
fn touch_around(touched: &mut Listed, incidence: &Incidence, x: u32)
    requires variable { x < length incidence.now.sizes }
    requires size { touched.old.size ≡ length incidence.now.functions }
    ensures { Grows (IsOn incidence.now x) touched.old touched.new }
{
    for place in incidence.places(x) {
        touched.put(place.function);
    }
}

/// Lists the variable of which a step raises a unary cost.
fn raise(costly: &mut Listed, network: &Network, step: Step)
    requires size { costly.old.size ≡ length network.now.sizes }
    requires range { InRange network.now step }
    ensures { Grows (Rises network.now step) costly.old costly.new }
{
    network.law_limits();
    if let Step::Project {
        function,
        place,
        ..
    } = step
    {
        costly.put(network.scope(function)[place as usize]);
    }
}
