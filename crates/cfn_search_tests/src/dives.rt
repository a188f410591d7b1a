//! What one dive makes of the task that a pool begins with.

ghost use Rattle.std.specs.Prelude.{◌≡◌, ◌≤◌, None, IfOk, IfSome};
ghost use Rattle.cfn_explore.specs.Values.{IsTaskOf};

use crate::networks::tri;
use cfn_branch::Rule;
use cfn_dive::Diver;
use cfn_explore::{Explored, Never, Piece, Task};
use cfn_low::{Holder, Incumbent, Low, Unnamed};
use cfn_net::{Network, Scored, Tables};
use cfn_pool::{Pool, Taken};
use cfn_proof::{End, NodeId, Tree};
use std::alloc::{AllocError, Global};
use std::marker::Brand;
use std::test::*;

/// How many nodes a dive may make: more than are below the root of `tri`.
const AMPLE: u64 = 1_000;

/// What is asked of a dive.
#[derive(Clone, Copy, PartialEq, Eq)]
struct Made {
    /// The threshold of the piece.
    threshold: u64,
    /// Whether a leaf of the piece's tree is open.
    open: bool,
    /// Whether the dive made all its backtracks.
    cut: bool,
}

/// The dive from the root with so many backtracks.
fn dive<M: Incumbent>(
    alloc: Global,
    network: &Network,
    diver: &mut Diver<'_>,
    unnamed: Unnamed,
    empty: Scored,
    backtracks: u64,
) -> Result<Option<Made>, AllocError>
    requires table { M.table ≡ unnamed.table }
    requires network { M.network ≡ unnamed.network }
    requires own { network.now ≡ unnamed.network }
    requires diver { diver.old ≡ unnamed.network }
    requires empty { empty ≡ record { network = unnamed.network; held = None } }
    requires some { 1 ≤ backtracks }
{
    let (low, mut holder) = unnamed.named::<M>();
    let mut part = low.split(&mut holder, empty);
    match root_task(alloc, network, holder)? {
        Some(task) => dive_below(alloc, network, diver, &low, &mut part, task, backtracks),
        None => Ok(None),
    }
}

/// The task of a new pool's root. An `Err` is want of memory.
fn root_task<M: Incumbent>(
    alloc: Global,
    network: &Network,
    holder: Holder<M>,
) -> Result<Option<Task>, AllocError>
    requires own { network.now ≡ M.network }
    requires none { holder.held ≡ None }
    requires seen { holder.seen ≡ M.network.upper }
    ensures { IfOk result (λ task. IfSome task (IsTaskOf M.network)) }
{
    let Ok(held) = Pool::begin(alloc, network, holder, AMPLE) else {
        return Err(AllocError);
    };
    Ok(taken(network, held))
}

/// The task of a pool's root.
fn taken<M: Incumbent>(network: &Network, mut held: Pool<M>) -> Option<Task>
    requires own { network.now ≡ M.network }
    ensures { IfSome result (IsTaskOf M.network) }
{
    match held.take(network, 0, AMPLE) {
        Taken::Given { task } => Some(task),
        _ => None,
    }
}

/// The dive below a task's leaf.
fn dive_below<M: Incumbent>(
    alloc: Global,
    network: &Network,
    diver: &mut Diver<'_>,
    low: &Low<M>,
    part: &mut Holder<M>,
    task: Task,
    backtracks: u64,
) -> Result<Option<Made>, AllocError>
    requires own { network.now ≡ M.network }
    requires diver { diver.old ≡ M.network }
    requires task { IsTaskOf M.network task }
    requires some { 1 ≤ backtracks }
{
    match diver.dive(alloc, network, task, low, part, backtracks, &Never) {
        Explored::Piece { piece, cut } => Ok(Some(told_by(&piece, cut))),
        Explored::Memory { .. } => Err(AllocError),
    }
}

/// What a piece tells.
fn told_by(piece: &Piece, cut: bool) -> Made {
    Made {
        threshold: piece.threshold(),
        open: has_open(piece.tree()),
        cut,
    }
}

/// Whether a leaf of a tree is open.
fn has_open(tree: &Tree) -> bool {
    tree.law_linked();
    for number in 0..tree.len() {
        let id = NodeId {
            number: number as u32,
        };
        if matches!(tree.node(id).end, End::Free) {
            return true;
        }
    }
    false
}

/// The dive from the root with so many backtracks, over a word of its own.
fn dive_with(
    alloc: Global,
    network: &Network,
    diver: &mut Diver<'_>,
    backtracks: u64,
) -> Result<Option<Made>, AllocError>
    requires diver { diver.old ≡ network.now }
    requires some { 1 ≤ backtracks }
{
    let unnamed = Unnamed::make(alloc, network)?;
    let empty = Scored::empty(alloc, network)?;
    dive::<Brand>(alloc, network, diver, unnamed, empty, backtracks)
}

/// The dive from the root over these tables.
fn dive_over(
    alloc: Global,
    network: &Network,
    tables: &Tables,
    backtracks: u64,
) -> Result<Option<Made>, AllocError>
    requires tables { tables.now ≡ network.now }
    requires some { 1 ≤ backtracks }
{
    let mut diver = Diver::make(alloc, network, tables, Rule::Degrees)?;
    let made = dive_with(alloc, network, &mut diver, backtracks);
    drop(diver);
    made
}

/// The dive from the root of a network.
fn dive_in(alloc: Global, network: &Network, backtracks: u64) -> Result<Option<Made>, AllocError>
    requires { 1 ≤ backtracks }
{
    let tables = Tables::expand(alloc, network)?;
    dive_over(alloc, network, &tables, backtracks)
}

/// A dive from the root of `tri` with so many backtracks.
fn dive_in_tri(alloc: Global, backtracks: u64) -> Result<Option<Made>, AllocError>
    requires { 1 ≤ backtracks }
{
    let network = tri(alloc)?;
    dive_in(alloc, &network, backtracks)
}

#[test]
fn dive_closes_all(rt: HostRuntime) -> Result<(), Fail> {
    let all = Made {
        threshold: 1,
        open: false,
        cut: false,
    };
    assert!(rt; dive_in_tri(rt.alloc(), AMPLE)? == Some(all));
    Ok(())
}

#[test]
fn dive_ends_after_its_backtracks(rt: HostRuntime) -> Result<(), Fail> {
    let some = Made {
        threshold: 1,
        open: true,
        cut: true,
    };
    assert!(rt; dive_in_tri(rt.alloc(), 1)? == Some(some));
    Ok(())
}
