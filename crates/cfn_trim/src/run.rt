//! Makes the chosen steps of a block again, each tested.

ghost use Rattle.std.specs.Prelude.{true, false, ◌≡◌, ◌<◌, ◌≤◌, [], length};
ghost use Rattle.cfn_model.specs.Steps.{InRange, Run};
ghost use Rattle.cfn_store.specs.Standing.{with_step};
ghost use Rattle.cfn_trim.specs.Making.{CanMake, AreInRange};
ghost use Rattle.cfn_trim.specs.Trimming.{AreSome, IsBeside};

use crate::testing::can_make;
use cfn_model::Step;
use cfn_proof::Block;
use cfn_store::Store;

/// Makes the chosen steps of a block, up to the first that cannot be made; whether all could. The last choice is the first
/// step's, and each is taken away.
pub(crate) fn run(
    store: &mut Store<'_>,
    whole: &Block,
    chosen: &mut Vec<bool>,
    threshold: u64,
) -> bool
    requires begins { store.old.block ≡ [] }
    requires range { AreInRange store.old.network whole.now }
    requires room { length whole.now ≤ store.old.spare }
    ensures beside { IsBeside store.old store.new }
    ensures runs { Run store.old.network store.old.base store.new.block threshold }
    ensures some { AreSome store.new.block whole.now }
{
    for step in whole.cursor() {
        if chosen.pop() != Some(true) {
            continue;
        }
        if !make(store, threshold, step) {
            return false;
        }
    }
    true
}

/// Makes a step, where it can be made.
fn make(store: &mut Store<'_>, threshold: u64, step: Step) -> bool
    requires range { InRange store.old.network step }
    requires room { 0 < store.old.spare }
    ensures can { result ≡ true → CanMake store.old threshold step }
    ensures made { result ≡ true → store.new ≡ with_step store.old step }
    ensures unchanged { result ≡ false → store.new ≡ store.old }
{
    if !can_make(store, threshold, step) {
        return false;
    }
    go(store, threshold, step);
    true
}

/// Makes a step that can be made.
fn go(store: &mut Store<'_>, threshold: u64, step: Step)
    requires can { CanMake store.old threshold step }
    requires room { 0 < store.old.spare }
    ensures { store.new ≡ with_step store.old step }
{
    let _ = threshold;
    match step {
        Step::Project {
            function,
            place,
            value,
            amount,
        } => store.project(function, place, value, amount),
        Step::Extend {
            function,
            place,
            value,
            amount,
        } => store.extend(function, place, value, amount),
        Step::Lift { variable, amount } => store.lift(variable, amount),
        Step::CutValue { variable, value } => store.cut_value(variable, value),
        Step::CutTuple { function, cell } => store.cut_tuple(function, cell),
    }
}
