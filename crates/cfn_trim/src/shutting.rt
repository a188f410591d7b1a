//! Closing the leaf of one assignment (Cooper et al. 2010, project and unary project).
//!
//! What the value of each variable costs is lifted; then what each function costs is projected to the value of its first
//! variable, and lifted from there, until the floor reaches the threshold. While it does not, no unary cost of the
//! assignment is left, nor a residual cost of the functions that are done. Shifts keep the total of the assignment, so the
//! floor reaches the threshold at the end, where nothing else is left.

ghost use Rattle.std.specs.Prelude.{◌≡◌, ℕ, ◌+◌, ◌-◌, ◌*◌, ◌<◌, ◌≤◌, List, length, slice_index, pos, IsTrue};
ghost use Rattle.cfn_model.specs.Network.{arity, variable_at};
ghost use Rattle.cfn_model.specs.Sums.{floor, unary, is_live};
ghost use Rattle.cfn_model.specs.Steps.{IsValue, IsPlace};
ghost use Rattle.cfn_store.specs.Standing.{Standing, history};
ghost use Rattle.cfn_trim.specs.Leaves.{IsLeaf, AddsShifts};
ghost use Rattle.cfn_trim.specs.Shifting.{IsShutting, IsLifted, IsAmount, IsProjected};

use cfn_model::laws::law_equivalence;
use cfn_store::Store;

/// Shifts costs to the floor until it is at least `k`, where each variable has one live value and that assignment costs at
/// least `k`. The block gets projects and lifts alone: at most one step for each variable and two for each function.
pub fn shut(store: &mut Store<'_>, k: u64)
    requires threshold { k ≤ store.old.network.upper }
    requires leaf { (values : List ℕ) × IsLeaf store.old values k }
    requires room { length store.old.network.sizes + 2 * length store.old.network.functions ≤ store.old.spare }
    ensures shifts { AddsShifts store.old store.new }
    ensures closed { k ≤ floor store.new.network (history store.new) }
{
    law_equivalence();
    lift_all(store, k);
    shift_all(store, k);
    store.law_exact();
    store.network().law_limits();
}

/// Lifts what each variable's value costs.
fn lift_all(store: &mut Store<'_>, k: u64)
    requires threshold { k ≤ store.old.network.upper }
    requires start { (values : List ℕ) × IsShutting store.old store.old values k 0 0 }
    ensures { (values : List ℕ) → IsShutting store.old store.old values k 0 0 → IsShutting store.old store.new values k (length store.old.network.sizes) 0 }
{
    let network = store.network();
    for x in 0..network.variables() {
        let a = value_of(store, k, x);
        lift_at(store, k, x, a);
    }
}

/// Shifts what each function costs.
fn shift_all(store: &mut Store<'_>, k: u64)
    requires threshold { k ≤ store.old.network.upper }
    requires start { (before : Standing) × (values : List ℕ) × IsShutting before store.old values k (length store.old.network.sizes) 0 }
    ensures { (before : Standing) (values : List ℕ) → IsShutting before store.old values k (length store.old.network.sizes) 0 → IsShutting before store.new values k (length store.old.network.sizes) (length store.old.network.functions) }
{
    let network = store.network();
    for f in 0..network.functions() {
        shift_at(store, k, f);
    }
}

/// Shifts what one function costs.
fn shift_at(store: &mut Store<'_>, k: u64, f: u32)
    requires threshold { k ≤ store.old.network.upper }
    requires function { f < length store.old.network.functions }
    requires start { (before : Standing) × (values : List ℕ) × IsShutting before store.old values k (length store.old.network.sizes) f }
    ensures { (before : Standing) (values : List ℕ) → IsShutting before store.old values k (length store.old.network.sizes) f → IsShutting before store.new values k (length store.old.network.sizes) (f + 1) }
{
    store.law_exact();
    let network = store.network();
    network.law_limits();
    let scope = network.scope(f);
    if scope.is_empty() || lacks(store, k) == 0 {
        return;
    }
    let x = scope[0];
    let a = value_of(store, k, x);
    project_at(store, k, f, a);
    lift_at(store, k, x, a);
}

/// What the floor lacks of the threshold.
fn lacks(store: &Store<'_>, k: u64) -> u64
    ensures { result ≡ k - floor store.now.network (history store.now) }
{
    let floor = store.floor();
    if floor < u128::from(k) {
        k - floor as u64
    } else {
        0
    }
}

/// The one live value of a variable.
fn value_of(store: &Store<'_>, k: u64, x: u32) -> u32
    requires variable { x < length store.now.network.sizes }
    requires leaf { (values : List ℕ) × IsLeaf store.now values k }
    ensures value { (values : List ℕ) → IsLeaf store.now values k → result ≡ slice_index values x }
    ensures is { IsValue store.now.network x result }
    ensures live { IsTrue (is_live (history store.now) x result) }
{
    store.live(x)[0]
}

/// Lifts what a variable's one value costs, but no more than the floor lacks.
fn lift_at(store: &mut Store<'_>, k: u64, x: u32, a: u32)
    requires threshold { k ≤ store.old.network.upper }
    requires room { 0 < store.old.spare }
    requires value { IsValue store.old.network x a }
    requires live { IsTrue (is_live (history store.old) x a) }
    requires only { (b : ℕ) → IsValue store.old.network x b → IsTrue (is_live (history store.old) x b) → b ≡ a }
    ensures { IsLifted store.old store.new k x a }
{
    store.network().law_limits();
    let amount = store.unary(x, a).min(lacks(store, k));
    if amount > 0 {
        store.lift(x, amount);
    }
}

/// Projects what a function's one live tuple costs to the value of its first variable, but no more than `k`; and `k` where
/// the tuple is not live.
fn project_at(store: &mut Store<'_>, k: u64, f: u32, a: u32)
    requires threshold { k ≤ store.old.network.upper }
    requires room { 0 < store.old.spare }
    requires place { IsPlace store.old.network f 0 a }
    requires none { unary store.old.network (history store.old) (variable_at store.old.network f 0) a ≡ pos 0 }
    ensures { IsProjected store.old store.new k f a }
{
    store.network().law_limits();
    let amount = amount_of(store, k, f, a);
    if amount > 0 {
        store.project(f, 0, a, amount);
    }
}

/// What there is to project.
fn amount_of(store: &Store<'_>, k: u64, f: u32, a: u32) -> u64
    requires { IsPlace store.now.network f 0 a }
    ensures { IsAmount store.now.network (history store.now) f a k result }
{
    match store.least_residual(f, 0, a) {
        Some(found) => found.cost.min(k),
        None => k,
    }
}
