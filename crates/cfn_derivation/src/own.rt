//! What a variable's unary costs delete.

ghost use Rattle.std.specs.Prelude.{◌≡◌, ℕ, ◌<◌, true, false, length, pos, ◌<ℤ◌, IsTrue, IsFalse, None, MatchOption};
ghost use Rattle.cfn_model.specs.Steps.{IsValue};
ghost use Rattle.cfn_model.specs.Sums.{unary, is_live};
ghost use Rattle.cfn_queue.specs.Waiting.{is_in, AreBelow};
ghost use Rattle.cfn_consistency.specs.declared.deletion.Reason.TheVariants.{Own as ByOwn};
ghost use Rattle.cfn_consistency.specs.Virtual.{IsDeletion};
ghost use Rattle.cfn_store.specs.Standing.{history};
ghost use Rattle.cfn_derivation.specs.Derived.{AllAlive, EmptiesLast};
ghost use Rattle.cfn_derivation.specs.Banned.{bans_of};
ghost use Rattle.cfn_derivation.specs.Working.{HasRoom, IsLow, Goes};

use crate::bans::Bans;
use crate::work::Work;
use cfn_consistency::{Deletion, Reason};
use cfn_store::Store;

/// Deletes the live values of variables with a unary cost of at least `q`. Ends with a variable that is emptied.
pub(crate) fn own_all(
    store: &mut Store<'_>,
    work: &mut Work,
    q: u64,
    bans: &Bans<'_>,
    variables: &[u32],
) -> Option<u32>
    requires bans { bans.now.network ≡ store.old.network }
    requires variables { AreBelow (length store.old.network.sizes) variables.now }
    requires room { HasRoom store.old work.old }
    requires alive { AllAlive store.old.network (history store.old) }
    ensures goes { Goes q (bans_of bans.now) store.old store.new work.old work.new }
    ensures ends { MatchOption result (AllAlive store.new.network (history store.new)) (EmptiesLast store.new.network (history store.new)) }
    ensures low { result ≡ None → (x : ℕ) → IsTrue (is_in x variables.now) → IsLow store.new.network (history store.new) q (bans_of bans.now) x }
{
    for x in variables {
        if own(store, work, q, bans, *x) {
            return Some(*x);
        }
    }
    None
}

/// Deletes the live values of `x` with a unary cost of at least `q`, and tells whether that emptied it.
fn own(store: &mut Store<'_>, work: &mut Work, q: u64, bans: &Bans<'_>, x: u32) -> bool
    requires bans { bans.now.network ≡ store.old.network }
    requires variable { x < length store.old.network.sizes }
    requires room { HasRoom store.old work.old }
    requires alive { AllAlive store.old.network (history store.old) }
    ensures goes { Goes q (bans_of bans.now) store.old store.new work.old work.new }
    ensures emptied { result ≡ true → EmptiesLast store.new.network (history store.new) x }
    ensures alive { result ≡ false → AllAlive store.new.network (history store.new) }
    ensures low { result ≡ false → IsLow store.new.network (history store.new) q (bans_of bans.now) x }
{
    for value in 0..store.network().size(x) {
        if own_value(store, work, q, bans, x, value) {
            return true;
        }
    }
    false
}

/// Deletes a value if it is live and has a unary cost of at least `q`, and tells whether that emptied its variable.
fn own_value(
    store: &mut Store<'_>,
    work: &mut Work,
    q: u64,
    bans: &Bans<'_>,
    x: u32,
    value: u32,
) -> bool
    requires bans { bans.now.network ≡ store.old.network }
    requires value { IsValue store.old.network x value }
    requires room { HasRoom store.old work.old }
    requires alive { AllAlive store.old.network (history store.old) }
    ensures goes { Goes q (bans_of bans.now) store.old store.new work.old work.new }
    ensures emptied { result ≡ true → EmptiesLast store.new.network (history store.new) x }
    ensures alive { result ≡ false → AllAlive store.new.network (history store.new) }
    ensures low { IsTrue (is_live (history store.new) x value) → IsFalse ((bans_of bans.now).own x value) → unary store.new.network (history store.new) x value <ℤ pos q }
{
    if !is_high(store, q, bans, x, value) {
        return false;
    }
    let deletion = Deletion {
        variable: x,
        value,
        reason: Reason::Own,
    };
    work.strike(store, deletion)
}

/// Whether a value is live, and has a unary cost of at least `q` against which there is no ban.
fn is_high(store: &Store<'_>, q: u64, bans: &Bans<'_>, x: u32, value: u32) -> bool
    requires bans { bans.now.network ≡ store.now.network }
    requires value { IsValue store.now.network x value }
    ensures yes { result ≡ true → IsDeletion store.now.network (history store.now) q (bans_of bans.now) (record { variable = x; value = value; reason = ByOwn }) }
    ensures no { result ≡ false → IsTrue (is_live (history store.now) x value) → IsFalse ((bans_of bans.now).own x value) → unary store.now.network (history store.now) x value <ℤ pos q }
{
    store.is_live(x, value) && !bans.own(x, value) && store.unary(x, value) >= q
}
