//! What is to go to each value: as much as all live tuples with it have, each with the unary cost of its other value, but no
//! more than leaves the value's own unary cost at a bound.

ghost use Rattle.std.specs.Prelude.{◌≡◌, ◌<◌, ◌≤◌, length, true, false, slice_index, IsTrue};
ghost use Rattle.cfn_model.specs.Steps.{IsPlace};
ghost use Rattle.cfn_model.specs.Sums.{is_live};
ghost use Rattle.cfn_store.specs.Standing.{history};
ghost use Rattle.cfn_dac.specs.Full.{IsPair, AreFullBelow, first_of};
ghost use Rattle.cfn_dac.specs.Shifts.{AreHeld, AreReached};
ghost use Rattle.cfn_dac.specs.Moves.{IsLeastTotal, IsAmount, Covers, AreWithin, SomeFrom};
ghost use Rattle.cfn_dac.specs.Binaries.{IsView};

use crate::binary::{Binary, least};
use crate::pair::Pair;
use cfn_scan::Unaries;
use cfn_store::Store;

/// What the amounts of all values need, looked up once.
#[derive(Drop)]
struct View<'a> {
    /// The first variable, and its values' unary costs.
    first: u32,
    own: Unaries<'a>,
    /// The function, where it has the pair's two variables alone.
    binary: Option<Binary<'a>>,
}

impl<'a> View<'a> {
    /// Looks a pair up.
    #[inline(always)]
    fn of(store: &'a Store<'_>, pair: Pair) -> View<'a>
        requires { IsPair store.now.network pair }
        ensures { IsView store.now pair result }
    {
        store.network().law_limits();
        let first = store.network().scope(pair.function)[pair.place as usize];
        View {
            first,
            own: store.unaries(first),
            binary: Binary::of(store, pair),
        }
    }
}

/// Works out an amount for each value of the first variable, and answers whether some value gets one. Where none does, each
/// live value with a unary cost below `alpha` has a full support.
pub(crate) fn plan(store: &Store<'_>, pair: Pair, alpha: u64, moves: &mut [u64]) -> bool
    requires pair { IsPair store.now.network pair }
    requires room { slice_index store.now.network.sizes (first_of store.now.network pair) ≤ length moves.old }
    ensures same { length moves.new ≡ length moves.old }
    ensures covers { Covers store.now.network (history store.now) pair moves.new 0 }
    ensures within { AreWithin store.now.network (history store.now) pair alpha moves.new 0 }
    ensures held { AreHeld store.now.network (history store.now) pair moves.new 0 }
    ensures reached { AreReached store.now.network (history store.now) pair alpha moves.new 0 }
    ensures some { result ≡ true → SomeFrom store.now.network pair moves.new 0 }
    ensures none { result ≡ false → AreFullBelow store.now.network (history store.now) pair alpha }
{
    store.network().law_limits();
    let view = View::of(store, pair);
    let mut some = false;
    for value in 0..store.network().size(view.first) {
        let amount = amount(store, pair, &view, alpha, value);
        moves[value as usize] = amount;
        if amount > 0 {
            some = true;
        }
    }
    some
}

/// What goes to a value.
#[inline(always)]
fn amount(store: &Store<'_>, pair: Pair, view: &View<'_>, alpha: u64, value: u32) -> u64
    requires pair { IsPair store.now.network pair }
    requires view { IsView store.now pair view.now }
    requires value { IsPlace store.now.network pair.function pair.place value }
    ensures { IsAmount store.now.network (history store.now) pair alpha value result }
{
    store.network().law_limits();
    store.law_exact();
    if !store.is_live(view.first, value) {
        return 0;
    }
    let has = view.own.of(value);
    if has >= alpha {
        return 0;
    }
    least(store, pair, &view.binary, value).min(alpha - has)
}

/// The least residual cost of the live tuples with a live value of the first variable, each with the unary cost of its other
/// value, but at most 2^64 - 1, as where there is none.
#[inline(always)]
pub fn least_total(store: &Store<'_>, pair: Pair, value: u32) -> u64
    requires pair { IsPair store.now.network pair }
    requires value { IsPlace store.now.network pair.function pair.place value }
    requires live { IsTrue (is_live (history store.now) (first_of store.now.network pair) value) }
    ensures { IsLeastTotal store.now.network (history store.now) pair value result }
{
    least(store, pair, &Binary::of(store, pair), value)
}
