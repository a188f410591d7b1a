//! The plan of a derivation, from its last deletion to its first (Cooper et al. 2010).
//!
//! Invariant: the steps are those that the deletions behind those that are left put.

ghost use Rattle.std.specs.Prelude.{◌≡◌, ◌<◌, ◌≤◌, length, reverse, OnOk, IsTrue};
ghost use Rattle.cfn_model.specs.declared.limits.TheConstants.{GREATEST};
ghost use Rattle.cfn_model.specs.Network.{variable_at};
ghost use Rattle.cfn_model.specs.Steps.{IsPlace, CanProject};
ghost use Rattle.cfn_model.specs.Sums.{is_live};
ghost use Rattle.cfn_consistency.specs.Virtual.{Bans, IsDeletion, IsDerivation, Puts, ArePut, without};
ghost use Rattle.cfn_store.specs.Standing.{history};
ghost use Rattle.cfn_vac.specs.Tables.{AreBefore, ArePositions};
ghost use Rattle.cfn_vac.specs.Plans.{Feeds};

use crate::plan::Plan;
use crate::sources::{Target, gather};
use cfn_consistency::{Deletion, Reason};
use cfn_rows::Rows;
use cfn_store::Store;
use std::alloc::AllocError;

/// Puts before a plan what each deletion of a derivation gathers. An `Err` is want of memory. The store is as it was.
pub(crate) fn walk(
    plan: &mut Plan<'_>,
    store: &mut Store<'_>,
    positions: &Rows<u64>,
    q: u64,
    deletions: &[Deletion],
) -> Result<(), AllocError>
    requires network { store.old.network ≡ plan.old.network }
    requires derivation { (bans : Bans) × IsDerivation plan.old.network (history store.old) q bans deletions.now }
    requires positions { ArePositions plan.old.network deletions.now positions.now }
    requires room { length deletions.now ≤ store.old.spare }
    ensures network { plan.new.network ≡ plan.old.network }
    ensures put { OnOk result (ArePut plan.old.network (history store.old) q (reverse deletions.now) plan.old.steps plan.new.steps) }
    ensures same { store.new ≡ store.old }
{
    let mut left = deletions;
    while let Some((deletion, earlier)) = left.split_last() {
        put(plan, store, positions, q, earlier, *deletion)?;
        left = earlier;
    }
    Ok(())
}

/// Puts before a plan what one deletion gathers, for what the plan asks of its value.
fn put(
    plan: &mut Plan<'_>,
    store: &mut Store<'_>,
    positions: &Rows<u64>,
    q: u64,
    earlier: &[Deletion],
    deletion: Deletion,
) -> Result<(), AllocError>
    requires network { store.old.network ≡ plan.old.network }
    requires deletion { (bans : Bans) × IsDeletion plan.old.network (without earlier.now (history store.old)) q bans deletion }
    requires positions { AreBefore plan.old.network earlier.now positions.now }
    requires room { length earlier.now ≤ store.old.spare }
    ensures network { plan.new.network ≡ plan.old.network }
    ensures puts { OnOk result (Puts plan.old.network (history store.old) q deletion deletion.reason (reverse earlier.now) plan.old.steps plan.new.steps) }
    ensures same { store.new ≡ store.old }
{
    let amount = plan.asked(deletion.variable, deletion.value);
    match deletion.reason {
        Reason::By { function, place } if amount > 0 => {
            let target = Target {
                function,
                place,
                value: deletion.value,
                amount,
            };
            feed(plan, store, positions, q, earlier, target)
        }
        _ => Ok(()),
    }
}

/// Puts before a plan a project to a target, and before it the extends of its sources.
fn feed(
    plan: &mut Plan<'_>,
    store: &mut Store<'_>,
    positions: &Rows<u64>,
    q: u64,
    earlier: &[Deletion],
    target: Target,
) -> Result<(), AllocError>
    requires network { store.old.network ≡ plan.old.network }
    requires place { IsPlace plan.old.network target.function target.place target.value }
    requires amount { (0 < target.amount) × (target.amount ≤ GREATEST) }
    requires positions { AreBefore plan.old.network earlier.now positions.now }
    requires live { IsTrue (is_live (without earlier.now (history store.old)) (variable_at plan.old.network target.function target.place) target.value) }
    requires enough { CanProject plan.old.network (without earlier.now (history store.old)) target.function target.place target.value q }
    requires room { length earlier.now ≤ store.old.spare }
    ensures network { plan.new.network ≡ plan.old.network }
    ensures feeds { OnOk result (Feeds plan.old.network (history store.old) q target (reverse earlier.now) plan.old.steps plan.new.steps) }
    ensures same { store.new ≡ store.old }
{
    plan.project(target.function, target.place, target.value, target.amount)?;
    gather(plan, store, positions, q, earlier, target)
}
