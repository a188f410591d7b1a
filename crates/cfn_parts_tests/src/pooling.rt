//! Tests of a pool over two variables, with its part of the word.

ghost use Rattle.std.specs.Prelude.{◌≡◌, ◌≤◌, None};

use crate::halving::{halved, pair};
use cfn_low::{Holder, Incumbent, Low, Unnamed};
use cfn_net::{Network, Scored};
use cfn_pool::{Handed, Pool, Taken};
use std::alloc::{AllocError, Global};
use std::marker::Brand;
use std::test::*;

/// What is told of a pool after a piece was given.
#[derive(Clone, Copy, PartialEq, Eq)]
struct Told {
    answer: Option<(u64, bool, bool)>,
    bound: u64,
    rows: usize,
    nodes: u64,
    whole: bool,
    tree: usize,
}

/// Takes the root, and gives a piece with two leaves for it. Answers how many nodes were left of the budget once it was
/// taken, whether all leaves were out then, and whether the piece was put in its place.
fn give_a_piece<M: Incumbent>(
    alloc: Global,
    network: &Network,
    low: &Low<M>,
    part: &mut Holder<M>,
    pool: &mut Pool<M>,
) -> Result<Option<(u64, bool, bool)>, AllocError>
    requires own { network.now ≡ M.network }
    requires seen { part.old.seen ≤ M.network.upper }
    requires none { pool.old.recorded ≡ None }
    ensures { pool.new.recorded ≡ None }
{
    let Taken::Given { task } = pool.take(network, 0, 2) else {
        return Ok(None);
    };
    let left = pool.left();
    let again = matches!(pool.take(network, 0, 1), Taken::Again);
    let Some(piece) = halved(alloc, network, task)? else {
        return Ok(None);
    };
    let note = low.note(part);
    let done = matches!(pool.give(low, piece, note), Handed::Done);
    Ok(Some((left, again, done)))
}

/// How many nodes a pool has made, whether its part of the word is the whole one once the other is joined to it, and how
/// many nodes its tree has.
fn ended<M: Incumbent>(low: &Low<M>, pool: Pool<M>, other: Holder<M>) -> (u64, bool, usize) {
    let finished = pool.finish();
    let mut last = finished.holder;
    low.meet(&mut last, other);
    (finished.nodes, last.whole(), finished.tree.len())
}

/// What is told of a pool, to which another part of the word gives a piece.
fn told_of<M: Incumbent>(
    alloc: Global,
    network: &Network,
    low: &Low<M>,
    mut other: Holder<M>,
    mut pool: Pool<M>,
) -> Result<Told, AllocError>
    requires own { network.now ≡ M.network }
    requires seen { other.seen ≤ M.network.upper }
    requires none { pool.recorded ≡ None }
{
    let answer = give_a_piece(alloc, network, low, &mut other, &mut pool)?;
    pool.note(network);
    pool.sweep(low);
    let bound = pool.bound();
    let rows = pool.rows().len();
    let (nodes, whole, tree) = ended(low, pool, other);
    Ok(Told {
        answer,
        bound,
        rows,
        nodes,
        whole,
        tree,
    })
}

/// What is told of a new pool with a budget of 2.
fn begin<M: Incumbent>(
    alloc: Global,
    network: &Network,
    unnamed: Unnamed,
    empty: Scored,
) -> Result<Told, AllocError>
    requires table { M.table ≡ unnamed.table }
    requires network { M.network ≡ unnamed.network }
    requires own { network.now ≡ unnamed.network }
    requires empty { empty ≡ record { network = unnamed.network; held = None } }
{
    let (low, mut holder) = unnamed.named::<M>();
    let other = low.split(&mut holder, empty);
    match Pool::begin(alloc, network, holder, 2) {
        Ok(pool) => told_of(alloc, network, &low, other, pool),
        Err(_) => Err(AllocError),
    }
}

/// The same in that network.
fn make_told(alloc: Global) -> Result<Told, AllocError> {
    let network = pair(alloc)?;
    let unnamed = Unnamed::make(alloc, &network)?;
    let empty = Scored::empty(alloc, &network)?;
    begin::<Brand>(alloc, &network, unnamed, empty)
}

#[test]
fn piece_takes_the_place_of_a_pools_root(rt: HostRuntime) -> Result<(), Fail> {
    let expected = Told {
        answer: Some((0, true, true)),
        bound: 0,
        rows: 1,
        nodes: 1,
        whole: true,
        tree: 3,
    };
    assert!(rt; make_told(rt.alloc())? == expected);
    Ok(())
}
