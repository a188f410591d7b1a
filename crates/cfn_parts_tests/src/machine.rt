//! Tests of the pool machine over two variables.

ghost use Rattle.std.specs.Prelude.{◌≡◌, ◌≤◌, IfOk, IfSome};
ghost use Rattle.cfn_core.specs.Machine.{IsOf};

use crate::halving::{halved, pair};
use crate::handing::root_of;
use cfn_core::{Action, Piece, Reply, World};
use cfn_net::{Network, Scored};
use std::alloc::{AllocError, Global};
use std::test::*;

/// What a world answered, without what it handed out.
#[derive(Clone, Copy, PartialEq, Eq)]
enum Answer {
    Seen(u64),
    Given,
    Spent,
    Gone,
    Done,
    Other,
}

/// What a world answers to an action.
fn answer_to(world: &mut World<'_>, action: Action) -> Result<Answer, AllocError>
    requires { IsOf world.old.network action }
    ensures { world.new.network ≡ world.old.network }
{
    Ok(match world.step(&action)? {
        Reply::Seen { threshold } => Answer::Seen(threshold),
        Reply::Given { .. } => Answer::Given,
        Reply::Spent => Answer::Spent,
        Reply::Gone => Answer::Gone,
        Reply::Done => Answer::Done,
        Reply::Idle | Reply::Noted { .. } | Reply::Empty | Reply::Again | Reply::NotOut =>
            Answer::Other,
    })
}

/// The root's task, taken by the worker 0 and split, if it is handed out.
fn split_root(alloc: Global, network: &Network) -> Result<Option<Piece>, AllocError>
    ensures { IfOk result (λ half. IfSome half (λ piece. piece.network ≡ network.now)) }
{
    match root_of(alloc, network)? {
        Some(task) => halved(alloc, network, task),
        None => Ok(None),
    }
}

/// What a world answers to the worker 0 that takes the root, to a piece that is given for it, before which all leaves are
/// called back where that is asked, and to a worker that wants a leaf then.
fn give(world: &mut World<'_>, piece: Piece, recalled: bool) -> Result<[Answer; 3], AllocError>
    requires { piece.network ≡ world.old.network }
{
    let taken = answer_to(world, Action::Take { worker: 0, want: 1 })?;
    answer_to(world, Action::Note { worker: 0 })?;
    if recalled {
        answer_to(world, Action::Recall)?;
    }
    let given = answer_to(world, Action::Give { piece, note: 0 })?;
    let next = answer_to(world, Action::Take { worker: 0, want: 1 })?;
    Ok([taken, given, next])
}

/// The same of the split root of a new world with a budget, if the root is handed out.
fn given(alloc: Global, budget: u32, recalled: bool) -> Result<Option<[Answer; 3]>, AllocError> {
    let network = pair(alloc)?;
    let given = given_of(alloc, &network, budget, recalled);
    drop(network);
    given
}

/// The same of a network.
fn given_of(
    alloc: Global,
    network: &Network,
    budget: u32,
    recalled: bool,
) -> Result<Option<[Answer; 3]>, AllocError> {
    let mut world = World::start(alloc, network, 1, budget as u64)?;
    let given = given_in(alloc, network, &mut world, recalled);
    drop(world);
    given
}

/// The same in a world.
fn given_in(
    alloc: Global,
    network: &Network,
    world: &mut World<'_>,
    recalled: bool,
) -> Result<Option<[Answer; 3]>, AllocError>
    requires { world.old.network ≡ network.now }
{
    match split_root(alloc, network)? {
        Some(piece) => Ok(Some(give(world, piece, recalled)?)),
        None => Ok(None),
    }
}

/// A split spends a budget of 1. A piece of a leaf that was called back is refused, and the leaf handed out again.
#[test]
fn split_root_is_given(rt: HostRuntime) -> Result<(), Fail> {
    for (budget, recalled, last) in [
        (1, false, [Answer::Done, Answer::Spent]),
        (2, true, [Answer::Gone, Answer::Given]),
    ] {
        let expected = [Answer::Given, last[0], last[1]];
        assert!(rt; given(rt.alloc(), budget, recalled)? == Some(expected));
    }
    Ok(())
}

/// Whether the worker 0 of a world sees 10 by a list of one look.
fn looks(alloc: Global, world: &mut World<'_>) -> Result<bool, AllocError>
    ensures { world.new.network ≡ world.old.network }
{
    let mut replies = Vec::with_capacity(alloc, 1)?;
    world.run(&[Action::Look { worker: 0 }], &mut replies)?;
    Ok(matches!(replies.as_slice(), [Reply::Seen { threshold: 10 }]))
}

/// What a world answers to the worker 0 that lowers the word by nothing that it found.
fn lower(alloc: Global, network: &Network, world: &mut World<'_>) -> Result<Answer, AllocError>
    requires { world.old.network ≡ network.now }
    ensures { world.new.network ≡ world.old.network }
{
    let found = Scored::empty(alloc, network)?;
    answer_to(world, Action::Lower { worker: 0, found })
}

/// What a world answers to a sweep, and to the worker 0 that is met.
fn end(world: &mut World<'_>) -> Result<[Answer; 2], AllocError> {
    let swept = answer_to(world, Action::Sweep)?;
    let met = answer_to(world, Action::Meet { worker: 0 })?;
    Ok([swept, met])
}

/// Whether the worker 0 looks by a list, lowers the word by nothing that it found, sweeps and is met in a world.
fn goes_on_in(alloc: Global, network: &Network, world: &mut World<'_>) -> Result<bool, AllocError>
    requires { world.old.network ≡ network.now }
{
    let looked = looks(alloc, world)?;
    let lowered = lower(alloc, network, world)?;
    let ended = end(world)?;
    Ok(looked && lowered == Answer::Seen(10) && ended == [Answer::Done, Answer::Done])
}

/// The same in a new world.
fn goes_on(alloc: Global) -> Result<bool, AllocError> {
    let network = pair(alloc)?;
    let mut world = World::start(alloc, &network, 1, 2)?;
    goes_on_in(alloc, &network, &mut world)
}

#[test]
fn worker_looks_and_lowers(rt: HostRuntime) -> Result<(), Fail> {
    assert!(rt; goes_on(rt.alloc())?);
    Ok(())
}
