//! Directional arc consistency of one function (Larrosa and Schiex, In the quest of the best form of local consistency for
//! weighted CSP, 2003; Cooper et al. 2010): where two of its variables are open, each live value of the lower one has a full
//! support with regard to the other.

ghost use Rattle.std.specs.Prelude.{◌≡◌, ℕ, ◌<◌, ◌≤◌, length, slice_index, MatchOption};
ghost use Rattle.cfn_consistency.specs.Consistency.{IsDirectional};
ghost use Rattle.cfn_store.specs.Standing.{history};
ghost use Rattle.cfn_gain.specs.Calls.{GoesOn, Does, Shows};
ghost use Rattle.cfn_gain.specs.Gains.{Gains};
ghost use Rattle.cfn_dac.specs.Opens.{NoOpenPair, IsLowerPair};

use crate::open::{Opens, open_places};
use crate::pair::{Pair, full_supports};
use cfn_gain::{Halt, Limits, cut_costly, lacking};
use cfn_store::Store;

/// Makes `f` directional arc consistent, and cuts the values of the lower variable that cost what the floor lacks then: where
/// no step was made `f` is directional. `moves` is room for an amount for each value of a variable, and is left with any. An
/// `Err` leaves the steps that were made.
pub fn directional(
    store: &mut Store<'_>,
    limits: Limits,
    f: u32,
    moves: &mut [u64],
) -> Result<(), Halt>
    requires goes { GoesOn store.old limits }
    requires function { f < length store.old.network.functions }
    requires room { (x : ℕ) → x < length store.old.network.sizes
        → slice_index store.old.network.sizes x ≤ length moves.old }
    ensures does { Does store.old store.new limits result }
    ensures gains { Gains store.old store.new limits result }
    ensures directional { Shows store.old store.new result (IsDirectional store.old.network (history store.old) f) }
    ensures same { length moves.new ≡ length moves.old }
{
    store.network().law_limits();
    let Some(pair) = open_pair(store, f) else {
        return Ok(());
    };
    let lacks = lacking(store, limits);
    full_supports(store, limits, pair, lacks, moves)?;
    let x = store.network().scope(f)[pair.place as usize];
    cut_costly(store, limits, x)
}

/// The places of the two open variables of `f`, where there are two, that of the lower variable first.
pub fn open_pair(store: &Store<'_>, f: u32) -> Option<Pair>
    requires { f < length store.now.network.functions }
    ensures { MatchOption result (NoOpenPair store.now.network (history store.now) f) (IsLowerPair store.now.network (history store.now) f) }
{
    store.network().law_limits();
    let Opens::Two { place, other } = open_places(store, f) else {
        return None;
    };
    let scope = store.network().scope(f);
    if scope[place as usize] < scope[other as usize] {
        Some(Pair {
            function: f,
            place,
            other,
        })
    } else {
        Some(Pair {
            function: f,
            place: other,
            other: place,
        })
    }
}
