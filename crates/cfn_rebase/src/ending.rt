//! How a node ends that is kept.

ghost use Rattle.std.specs.Prelude.{◌≡◌, ℕ, ◌<◌, ◌↔◌, false, length, slice_index, IsTrue};
ghost use Rattle.cfn_model.specs.Decisions.{variable_of, value_of, keeps};
ghost use Rattle.cfn_model.specs.Steps.{IsDecision};
ghost use Rattle.cfn_model.specs.Sums.{is_live};
ghost use Rattle.cfn_model.specs.Tree.{CanClose, IsWiped, IsStrictSplit};
ghost use Rattle.cfn_store.specs.Standing.{history};
ghost use Rattle.cfn_rebase.specs.Fronts.{IsCutFront, IsEnding};

use crate::ground::Ground;
use crate::ranges::is_value;
use cfn_model::Decision;
use cfn_proof::{End, Node};

impl<'n> Ground<'n> {
    /// How a node ends behind the front that was made of its block, all of it or not. A closed leaf stays closed, and a split a
    /// split, where the whole block is kept and the one may be closed, or the other takes a live value away on both sides.
    pub(crate) fn ending(&self, threshold: u64, node: &Node, whole: bool) -> End
        requires { IsCutFront self.now.network self.now.base threshold node.now.block self.now.block whole }
        ensures { IsEnding self.now.network self.now.base threshold node.now self.now.block result }
    {
        if !whole {
            return End::Free;
        }
        match node.end {
            End::Free => End::Free,
            End::Shut => {
                if self.can_close(threshold) {
                    End::Shut
                } else {
                    End::Free
                }
            }
            End::Split { decision, .. } => {
                if self.splits(decision) {
                    node.end
                } else {
                    End::Free
                }
            }
        }
    }

    /// Whether a leaf may be closed: the floor reaches the threshold, or a variable has no live value.
    fn can_close(&self, threshold: u64) -> bool
        ensures { IsTrue result ↔ CanClose self.now.network (history self.now) threshold }
    {
        u128::from(threshold) <= self.store().floor() || self.is_wiped()
    }

    /// Whether a variable has no live value.
    fn is_wiped(&self) -> bool
        ensures { IsTrue result ↔ IsWiped self.now.network (history self.now) }
    {
        for x in 0..self.network().variables() {
            if self.has_none(x) {
                return true;
            }
        }
        false
    }

    /// Whether a variable has no live value.
    fn has_none(&self, x: u32) -> bool
        requires { x < length self.now.network.sizes }
        ensures { IsTrue result ↔ ((a : ℕ) → a < slice_index self.now.network.sizes x → is_live (history self.now) x a ≡ false) }
    {
        self.store().count(x) == 0
    }

    /// Whether a decision is in range, and takes a live value away on both sides.
    fn splits(&self, decision: Decision) -> bool
        ensures { IsTrue result ↔ (IsDecision self.now.network decision × IsStrictSplit self.now.network (history self.now) decision) }
    {
        let (x, value) = named(decision);
        is_value(self.network(), x, value) && self.has(decision, true) && self.has(decision, false)
    }

    /// Whether a live value is on a side of a decision: the first, where the decision holds, or the second.
    fn has(&self, decision: Decision, first: bool) -> bool
        requires { variable_of decision < length self.now.network.sizes }
        ensures { IsTrue result ↔ ((a : ℕ) × (a < slice_index self.now.network.sizes (variable_of decision))
            × (keeps decision a ≡ first) × IsTrue (is_live (history self.now) (variable_of decision) a)) }
    {
        let (x, _) = named(decision);
        for a in 0..self.network().size(x) {
            if keeps(decision, a) == first && self.store().is_live(x, a) {
                return true;
            }
        }
        false
    }
}

/// The variable and the value that a decision names.
fn named(decision: Decision) -> (u32, u32)
    ensures variable { result.0 ≡ variable_of decision }
    ensures value { result.1 ≡ value_of decision }
{
    match decision {
        Decision::Is { variable, value } => (variable, value),
        Decision::Most { variable, value } => (variable, value),
    }
}

/// Whether a value is on the first side of a decision.
fn keeps(decision: Decision, a: u32) -> bool
    ensures { result ≡ keeps decision a }
{
    match decision {
        Decision::Is { value, .. } => value == a,
        Decision::Most { value, .. } => a <= value,
    }
}
