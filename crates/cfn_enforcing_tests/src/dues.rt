//! What waits, and what events put.

ghost use Rattle.std.specs.Prelude.{◌≡◌, [], ◌∷◌};
ghost use Rattle.cfn_scan.specs.Exact.{InPlace};
ghost use Rattle.cfn_store.specs.Standing.{at_root};

use cfn_due::{Due, Next};
use cfn_incidence::Incidence;
use cfn_model::{Decision, Event, Step};
use cfn_net::{Builder, Network};
use cfn_store::Store;
use std::alloc::{AllocError, Global};
use std::test::*;

/// Three variables with two values, and functions over the first two, the last two, and the last alone.
fn chain(alloc: Global) -> Result<Network, AllocError> {
    let mut builder = Builder::make(alloc, b"chain", &[2, 2, 2], 10)?;
    let chain = linked(&mut builder);
    drop(builder);
    chain
}

/// The network of these functions, where the builder has none yet.
fn linked(builder: &mut Builder) -> Result<Network, AllocError>
    requires sizes { builder.old.sizes ≡ 2 ∷ 2 ∷ 2 ∷ [] }
    requires functions { builder.old.functions ≡ [] }
{
    builder.function(&[0, 1], 1, &[])?;
    builder.function(&[1, 2], 1, &[])?;
    builder.function(&[2], 1, &[])?;
    builder.finish()
}

/// Takes away what is due next.
fn take(due: &mut Due) -> Option<Next> {
    let next = due.next()?;
    match next {
        Next::Arc(_) => due.done_arc(),
        Next::Existing(_) => due.done_existing(),
        Next::Directed(_) => due.done_directed(),
    }
    Some(next)
}

/// Takes away the next ones.
fn take_all<const N: usize>(due: &mut Due) -> [Option<Next>; N] {
    let mut taken = [None; N];
    for next in &mut taken {
        *next = take(due);
    }
    taken
}

/// The first that are due of a network.
fn due_at_first<const N: usize>(
    alloc: Global,
    network: &Network,
) -> Result<[Option<Next>; N], AllocError> {
    let mut due = Due::make(alloc, network)?;
    let taken = take_all(&mut due);
    drop(due);
    Ok(taken)
}

#[test]
fn all_waits_in_its_order(rt: HostRuntime) -> Result<(), Fail> {
    let network = chain(rt.alloc())?;
    let taken = due_at_first::<10>(rt.alloc(), &network)?;
    let all = [
        Some(Next::Arc(0)),
        Some(Next::Arc(1)),
        Some(Next::Arc(2)),
        Some(Next::Existing(0)),
        Some(Next::Existing(1)),
        Some(Next::Existing(2)),
        Some(Next::Directed(2)),
        Some(Next::Directed(1)),
        Some(Next::Directed(0)),
        None,
    ];
    assert!(rt; taken == all);
    Ok(())
}

/// What is due next once all was taken away, and once all was put again.
fn next_of_none_and_all(alloc: Global, network: &Network) -> Result<[Option<Next>; 2], AllocError> {
    let mut due = Due::make(alloc, network)?;
    due.clear();
    let of_none = due.next();
    due.put_all(network);
    let of_all = due.next();
    drop(due);
    Ok([of_none, of_all])
}

#[test]
fn all_waits_again_that_was_taken_away(rt: HostRuntime) -> Result<(), Fail> {
    let network = chain(rt.alloc())?;
    let next = next_of_none_and_all(rt.alloc(), &network)?;
    assert!(rt; next == [None, Some(Next::Arc(0))]);
    Ok(())
}

/// The first that are due behind an event, where nothing was due before it.
fn due_behind<const N: usize>(
    alloc: Global,
    network: &Network,
    event: &Event,
) -> Result<[Option<Next>; N], AllocError>
    requires { InPlace network.now event.now }
{
    let incidence = Incidence::build(alloc, network)?;
    let taken = due_over(alloc, network, &incidence, event);
    drop(incidence);
    taken
}

/// The same, over the network's incidence.
fn due_over<const N: usize>(
    alloc: Global,
    network: &Network,
    incidence: &Incidence,
    event: &Event,
) -> Result<[Option<Next>; N], AllocError>
    requires incidence { incidence.now ≡ network.now }
    requires place { InPlace network.now event.now }
{
    let mut due = Due::make(alloc, network)?;
    due.clear();
    due.note(network, incidence, event);
    let taken = take_all(&mut due);
    drop(due);
    Ok(taken)
}

#[test]
fn decision_ends_what_is_known_of_its_functions(rt: HostRuntime) -> Result<(), Fail> {
    let network = chain(rt.alloc())?;
    if network.variables() == 3 && network.size(2) == 2 {
        let refused = Event::Refused(Decision::Most {
            variable: 2,
            value: 0,
        });
        let taken = due_behind::<7>(rt.alloc(), &network, &refused)?;
        let known = [
            Some(Next::Arc(1)),
            Some(Next::Arc(2)),
            Some(Next::Existing(2)),
            Some(Next::Existing(1)),
            Some(Next::Directed(1)),
            Some(Next::Directed(2)),
            None,
        ];
        assert!(rt; taken == known);
    }
    Ok(())
}

/// The second event is a cut of a tuple, in place of an extend.
#[test]
fn lift_ends_nothing_and_an_extend_what_is_known_of_its_function(
    rt: HostRuntime,
) -> Result<(), Fail> {
    let network = chain(rt.alloc())?;
    if network.functions() == 3 && network.variables() == 3 {
        let lift = Event::Did(Step::Lift {
            variable: 0,
            amount: 1,
        });
        let taken = due_behind::<1>(rt.alloc(), &network, &lift)?;
        assert!(rt; taken == [None]);
    }
    if network.functions() == 3 && network.cells(1) == 4 {
        let cut = Event::Did(Step::CutTuple {
            function: 1,
            cell: 3,
        });
        let taken = due_behind::<5>(rt.alloc(), &network, &cut)?;
        let known = [
            Some(Next::Arc(1)),
            Some(Next::Existing(1)),
            Some(Next::Existing(2)),
            Some(Next::Directed(1)),
            None,
        ];
        assert!(rt; taken == known);
    }
    Ok(())
}

/// What is due next behind a store's one step, a cut of a value of the first variable.
fn next_behind_a_cut(alloc: Global, network: &Network) -> Result<Option<Next>, AllocError> {
    let mut store = Store::build(alloc, network)?;
    let next = next_in(alloc, network, &mut store);
    drop(store);
    next
}

/// The same, of a store at the root.
fn next_in(
    alloc: Global,
    network: &Network,
    store: &mut Store<'_>,
) -> Result<Option<Next>, AllocError>
    requires { store.old ≡ at_root network.now }
{
    store.reserve(1)?;
    if network.variables() != 3 || network.size(0) != 2 {
        return Ok(None);
    }
    store.cut_value(0, 1);
    let incidence = Incidence::build(alloc, network)?;
    let next = next_noted(alloc, network, &incidence, store);
    drop(incidence);
    next
}

/// What is due next where the steps of a store are noted, and nothing was due before them.
fn next_noted(
    alloc: Global,
    network: &Network,
    incidence: &Incidence,
    store: &Store<'_>,
) -> Result<Option<Next>, AllocError>
    requires store { store.now.network ≡ network.now }
    requires incidence { incidence.now ≡ network.now }
{
    let mut due = Due::make(alloc, network)?;
    due.clear();
    due.note_steps(incidence, store, 0);
    let next = due.next();
    drop(due);
    Ok(next)
}

#[test]
fn steps_of_a_block_are_noted(rt: HostRuntime) -> Result<(), Fail> {
    let network = chain(rt.alloc())?;
    assert!(rt; next_behind_a_cut(rt.alloc(), &network)? == Some(Next::Arc(0)));
    Ok(())
}
