//! What closes a leaf: its floor, or a variable with no live value.

ghost use Rattle.std.specs.Prelude.{true, ◌≡◌, ◌<◌, length, IfSome};
ghost use Rattle.cfn_model.specs.Steps.{InRange};
ghost use Rattle.cfn_model.specs.Tree.{CanClose};
ghost use Rattle.cfn_store.specs.Standing.{history};
ghost use Rattle.cfn_trim.specs.Making.{AreInRange};

use cfn_model::Step;
use cfn_store::Store;

/// The variable that the block's cuts emptied last, where the floor is below the threshold.
pub(crate) fn emptied(store: &Store<'_>, threshold: u64) -> Option<u32>
    requires range { AreInRange store.now.network store.now.block }
    ensures { IfSome result (λ x. x < length store.now.network.sizes) }
{
    if store.floor() >= u128::from(threshold) {
        return None;
    }
    let mut left = store.block_len();
    while left > 0 {
        left -= 1;
        if let Some(x) = emptied_by(store, store.step(left)) {
            return Some(x);
        }
    }
    None
}

/// The variable of a cut, where it has no live value.
fn emptied_by(store: &Store<'_>, step: Step) -> Option<u32>
    requires range { InRange store.now.network step }
    ensures { IfSome result (λ x. x < length store.now.network.sizes) }
{
    match step {
        Step::CutValue { variable, .. } if store.count(variable) == 0 => Some(variable),
        _ => None,
    }
}

/// Whether a leaf may be closed: the floor reaches the threshold, or the variable that should be empty is.
pub(crate) fn closes(store: &Store<'_>, threshold: u64, empty: Option<u32>) -> bool
    requires variable { IfSome empty (λ x. x < length store.now.network.sizes) }
    ensures { result ≡ true → CanClose store.now.network (history store.now) threshold }
{
    if store.floor() >= u128::from(threshold) {
        return true;
    }
    match empty {
        Some(x) => store.count(x) == 0,
        None => false,
    }
}
