//! The value of a variable that asks least: the one that a search tries first, as the value that existential arc consistency
//! comes nearest to (Larrosa, de Givry, Heras and Zytnicki, 2005).

ghost use Rattle.std.specs.Prelude.{◌≡◌, ◌<◌, ◌≤◌, length};
ghost use Rattle.cfn_rows.specs.Sets.{live_count};
ghost use Rattle.cfn_store.specs.Rooms.{sets_of};
ghost use Rattle.cfn_store.specs.Standing.{history};
ghost use Rattle.cfn_edac.specs.Neighbours.{AreNeighbours};
ghost use Rattle.cfn_edac.specs.Asking.{IsCheapest, IsCheapestBy};

use crate::asking::asked;
use crate::neighbours::Neighbours;
use cfn_dac::Pair;
use cfn_incidence::Incidence;
use cfn_store::Store;

/// Of the live values of a variable that has some, the one that asks least, and of those the least. It takes no memory.
pub fn cheapest(
    neighbours: &mut Neighbours<'_>,
    store: &Store<'_>,
    incidence: &Incidence,
    x: u32,
) -> u32
    requires incidence { incidence.now ≡ neighbours.old.network }
    requires network { store.now.network ≡ neighbours.old.network }
    requires variable { x < length neighbours.old.network.sizes }
    requires some { 1 ≤ live_count (sets_of store.now) x }
    ensures cheapest { IsCheapest store.now.network (history store.now) x result }
    ensures network { neighbours.new.network ≡ neighbours.old.network }
{
    neighbours.gather(store, incidence, x);
    cheapest_by(neighbours.pairs(), store, x)
}

/// The same by neighbours that were gathered.
fn cheapest_by(pairs: &[Pair], store: &Store<'_>, x: u32) -> u32
    requires variable { x < length store.now.network.sizes }
    requires some { 1 ≤ live_count (sets_of store.now) x }
    requires neighbours { AreNeighbours store.now.network (history store.now) x pairs.now }
    ensures { IsCheapestBy store.now.network (history store.now) x pairs.now result }
{
    let values = store.live(x);
    let mut best = values[0];
    let mut least = asked(pairs, store, x, best, u64::MAX);
    for i in 1..values.len() {
        let value = values[i];
        let asked = asked(pairs, store, x, value, least);
        if asked < least || (asked == least && value < best) {
            best = value;
            least = asked;
        }
    }
    best
}
