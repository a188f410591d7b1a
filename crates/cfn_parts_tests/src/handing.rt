//! Tests of the leaves of a tree over two variables, handed out and given back.

ghost use Rattle.std.specs.Prelude.{◌≡◌, ◌≤◌, IfOk, IfSome};
ghost use Rattle.cfn_leaves.specs.Answers.{IsSoundPool};

use crate::halving::{halved, pair};
use cfn_explore::Task;
use cfn_leaves::{Handed, Leaves, Taken};
use cfn_net::Network;
use cfn_proof::{End, Tree};
use std::alloc::{AllocError, Global};
use std::test::*;

/// The leaves at the opening: one, free.
fn opened(alloc: Global, network: &Network, budget: u64) -> Result<Leaves, AllocError>
    ensures own { IfOk result (λ leaves. leaves.network ≡ network.now) }
    ensures sound { IfOk result IsSoundPool }
{
    network.law_limits();
    let tree = Tree::new(alloc)?;
    Leaves::start(alloc, network, tree, None, network.ub(), budget)
}

/// The root's task, taken by a worker to make at most so many nodes.
fn root(network: &Network, leaves: &mut Leaves, worker: u32, want: u64) -> Option<Task>
    requires wants { 1 ≤ want }
    requires own { leaves.old.network ≡ network.now }
    requires sound { IsSoundPool leaves.old }
    ensures own { leaves.new.network ≡ network.now }
    ensures task { IfSome result (λ task. task.network ≡ network.now) }
{
    match leaves.take(network, worker, want) {
        Taken::Given { task } => Some(task),
        _ => None,
    }
}

/// The root's task in new leaves, taken by the worker 0 to make one node.
pub(crate) fn root_of(alloc: Global, network: &Network) -> Result<Option<Task>, AllocError>
    ensures { IfOk result (λ root. IfSome root (λ task. task.network ≡ network.now)) }
{
    let mut leaves = opened(alloc, network, 1)?;
    let task = root(network, &mut leaves, 0, 1);
    drop(leaves);
    Ok(task)
}

/// What leaves answered to a piece.
#[derive(Clone, Copy, PartialEq, Eq)]
enum Answer {
    Nothing,
    Done,
    Gone,
    Memory,
}

/// What leaves answer to a piece with two leaves that is made of a task.
fn give(
    alloc: Global,
    network: &Network,
    leaves: &mut Leaves,
    task: Task,
) -> Result<Answer, AllocError>
    requires own { leaves.old.network ≡ network.now }
    requires task { task.network ≡ network.now }
{
    let Some(piece) = halved(alloc, network, task)? else {
        return Ok(Answer::Nothing);
    };
    match leaves.give(piece) {
        Handed::Done => Ok(Answer::Done),
        Handed::Gone { .. } => Ok(Answer::Gone),
        Handed::Memory { .. } => Ok(Answer::Memory),
    }
}

/// Takes the root, calls all leaves back where that is asked, and gives a piece for it. Answers how many nodes were left
/// of the budget once it was taken, and what the piece was answered.
fn take_and_give(
    alloc: Global,
    network: &Network,
    leaves: &mut Leaves,
    recalled: bool,
) -> Result<(u64, Answer), AllocError>
    requires own { leaves.old.network ≡ network.now }
    requires sound { IsSoundPool leaves.old }
{
    let Some(task) = root(network, leaves, 3, 2) else {
        return Ok((0, Answer::Nothing));
    };
    let left = leaves.left();
    if recalled {
        leaves.recall();
    }
    Ok((left, give(alloc, network, leaves, task)?))
}

/// How many nodes leaves have made and have left, and how many their tree has.
fn counted(leaves: Leaves) -> (u64, u64, usize) {
    let nodes = leaves.nodes();
    let left = leaves.left();
    let (tree, _) = leaves.finish();
    (nodes, left, tree.len())
}

/// What is answered to a piece given for the root of new leaves with a budget of 2, and what is counted then.
fn given(alloc: Global, recalled: bool) -> Result<((u64, Answer), (u64, u64, usize)), AllocError> {
    let network = pair(alloc)?;
    let mut leaves = opened(alloc, &network, 2)?;
    let answer = take_and_give(alloc, &network, &mut leaves, recalled)?;
    Ok((answer, counted(leaves)))
}

#[test]
fn piece_takes_the_place_of_the_root(rt: HostRuntime) -> Result<(), Fail> {
    assert!(rt; given(rt.alloc(), false)? == ((0, Answer::Done), (1, 1, 3)));
    Ok(())
}

#[test]
fn piece_is_refused_after_a_recall(rt: HostRuntime) -> Result<(), Fail> {
    assert!(rt; given(rt.alloc(), true)? == ((0, Answer::Gone), (0, 2, 1)));
    Ok(())
}

/// Takes the root and gives it back twice. Answers how many nodes were left of the budget once it was taken, and whether
/// it was given back each time.
fn give_back(network: &Network, leaves: &mut Leaves) -> Option<(u64, bool, bool)>
    requires own { leaves.old.network ≡ network.now }
    requires sound { IsSoundPool leaves.old }
{
    let task = root(network, leaves, 3, 2)?;
    Some((leaves.left(), leaves.back(&task), leaves.back(&task)))
}

/// The same for new leaves with a budget of 9, and how many nodes are left then.
fn given_back(alloc: Global) -> Result<(Option<(u64, bool, bool)>, u64), AllocError> {
    let network = pair(alloc)?;
    let mut leaves = opened(alloc, &network, 9)?;
    let answer = give_back(&network, &mut leaves);
    Ok((answer, leaves.left()))
}

#[test]
fn task_is_given_back_once(rt: HostRuntime) -> Result<(), Fail> {
    assert!(rt; given_back(rt.alloc())? == (Some((7, true, false)), 9));
    Ok(())
}

/// The bounds of leaves below 10 behind a sweep at 1 and one at 0, and how many rows there are once one more was noted.
fn sweep(network: &Network, leaves: &mut Leaves) -> (u64, u64, usize)
    requires { leaves.old.network ≡ network.now }
{
    leaves.sweep(1);
    let before = leaves.bound(10);
    leaves.sweep(0);
    let behind = leaves.bound(10);
    leaves.note(network, 7);
    (before, behind, leaves.rows().len())
}

/// Whether the root of the tree is closed.
fn is_shut(leaves: Leaves) -> bool {
    let (tree, _) = leaves.finish();
    matches!(tree.node(Tree::ROOT).end, End::Shut)
}

/// The same for new leaves, and whether their root is closed then.
fn swept(alloc: Global) -> Result<((u64, u64, usize), bool), AllocError> {
    let network = pair(alloc)?;
    let mut leaves = opened(alloc, &network, 2)?;
    let told = sweep(&network, &mut leaves);
    Ok((told, is_shut(leaves)))
}

#[test]
fn sweep_closes_the_root(rt: HostRuntime) -> Result<(), Fail> {
    assert!(rt; swept(rt.alloc())? == ((0, 10, 2), true));
    Ok(())
}
