//! Tests of which steps are kept.

ghost use Rattle.std.specs.Prelude.{true, ◌≡◌, ◌≤◌, [], length, ◌∷◌};
ghost use Rattle.cfn_model.specs.Steps.{Run};
ghost use Rattle.cfn_model.specs.Tree.{CanClose};
ghost use Rattle.cfn_store.specs.Standing.{at_root, history};

use crate::making::make_all;
use cfn_model::Step;
use cfn_net::{Builder, Network};
use cfn_plain::runs;
use cfn_proof::Block;
use cfn_store::Store;
use cfn_trim::Trimmer;
use std::alloc::{AllocError, Global};
use std::test::Fail;

/// Three variables with two values. The values of the first cost 12 and 11, those of the third 3 and 4; each pair of values of the
/// first two costs 6.
fn network(alloc: Global) -> Result<Network, AllocError> {
    let mut builder = Builder::make(alloc, b"trim", &[2, 2, 2], 40)?;
    let network = network_of(&mut builder);
    drop(builder);
    network
}

/// The network of these functions, where the builder has none yet.
fn network_of(builder: &mut Builder) -> Result<Network, AllocError>
    requires sizes { builder.old.sizes ≡ 2 ∷ 2 ∷ 2 ∷ [] }
    requires functions { builder.old.functions ≡ [] }
{
    builder.function(&[0], 0, &[([0].as_slice(), 12), ([1].as_slice(), 11)])?;
    builder.function(&[2], 0, &[([0].as_slice(), 3), ([1].as_slice(), 4)])?;
    builder.function(&[0, 1], 6, &[])?;
    builder.finish()
}

fn project(function: u32, place: u32, value: u32, amount: u64) -> Step {
    Step::Project {
        function,
        place,
        value,
        amount,
    }
}

/// An extend of 4 from a value of the first variable to the function of two.
fn extend(value: u32) -> Step {
    Step::Extend {
        function: 2,
        place: 0,
        value,
        amount: 4,
    }
}

fn lift(variable: u32, amount: u64) -> Step {
    Step::Lift { variable, amount }
}

/// A cut of a value of the first variable.
fn cut(value: u32) -> Step {
    Step::CutValue { variable: 0, value }
}

fn cut_tuple(function: u32, cell: u32) -> Step {
    Step::CutTuple { function, cell }
}

/// Whether the floor is 10 or more, or the first variable has no live value.
fn closes(store: &Store<'_>) -> bool
    ensures { result ≡ true → CanClose store.now.network (history store.now) 10 }
{
    if store.floor() >= 10 {
        return true;
    }
    store.network().variables() > 0 && store.count(0) == 0
}

/// Makes these steps in a store; whether they close a leaf at 10.
fn come_to_a_dead_end(store: &mut Store<'_>, steps: &[Step]) -> bool
    requires begins { store.old.block ≡ [] }
    requires room { length steps.now ≤ store.old.spare }
    ensures network { store.new.network ≡ store.old.network }
    ensures base { store.new.base ≡ store.old.base }
    ensures block { result ≡ true → store.new.block ≡ steps.now }
    ensures closes { result ≡ true → CanClose store.new.network (history store.new) 10 }
{
    make_all(store, steps) && closes(store)
}

/// Whether a block has these steps.
fn has_steps(block: &Block, steps: &[Step]) -> bool {
    let mut cursor = block.cursor();
    for step in steps {
        if cursor.next() != Some(*step) {
            return false;
        }
    }
    cursor.next().is_none()
}

/// Makes steps that run in a store at its root, and trims the leaf that they close at 10; whether these are left.
fn keeps_in<'n>(
    alloc: Global,
    trimmer: &mut Trimmer<'n>,
    store: &mut Store<'n>,
    steps: &[Step],
    needed: &[Step],
) -> Result<bool, AllocError>
    requires network { store.old.network ≡ trimmer.old }
    requires base { store.old.base ≡ [] }
    requires begins { store.old.block ≡ [] }
    requires room { length steps.now ≤ store.old.spare }
    requires runs { Run trimmer.old [] steps.now 10 }
{
    let mark = store.mark();
    if !come_to_a_dead_end(store, steps) {
        return Ok(false);
    }
    let block = trimmer.closing_block(alloc, store, &mark, 10)?;
    Ok(has_steps(&block, needed))
}

/// The same in a store of the network.
fn keeps_by<'n>(
    alloc: Global,
    network: &'n Network,
    trimmer: &mut Trimmer<'n>,
    steps: &[Step],
    needed: &[Step],
) -> Result<bool, AllocError>
    requires network { trimmer.old ≡ network.now }
    requires runs { Run network.now [] steps.now 10 }
{
    let mut store = Store::build(alloc, network)?;
    let keeps = keeps_at(alloc, trimmer, &mut store, steps, needed);
    drop(store);
    keeps
}

/// The same in a store at its root.
fn keeps_at<'n>(
    alloc: Global,
    trimmer: &mut Trimmer<'n>,
    store: &mut Store<'n>,
    steps: &[Step],
    needed: &[Step],
) -> Result<bool, AllocError>
    requires store { store.old ≡ at_root trimmer.old }
    requires runs { Run trimmer.old [] steps.now 10 }
{
    store.reserve(steps.len())?;
    keeps_in(alloc, trimmer, store, steps, needed)
}

/// Whether these steps run and close a leaf at 10, and of them these are left once its block is trimmed.
fn keeps(
    alloc: Global,
    network: &Network,
    steps: &[Step],
    needed: &[Step],
) -> Result<bool, AllocError> {
    if !runs(alloc, network, &[], steps, 10)? {
        return Ok(false);
    }
    let mut trimmer = Trimmer::make(alloc, network)?;
    keeps_by(alloc, network, &mut trimmer, steps, needed)
}

#[test]
fn keeps_what_empties_a_variable(rt: HostRuntime) -> Result<(), Fail> {
    let network = network(rt.alloc())?;
    let whole = [
        project(1, 0, 0, 3),
        project(0, 0, 0, 12),
        project(1, 0, 1, 4),
        lift(2, 3),
        cut(0),
        project(0, 0, 1, 11),
        cut(1),
    ];
    let needed = [project(0, 0, 0, 12), cut(0), project(0, 0, 1, 11), cut(1)];
    assert!(rt; keeps(rt.alloc(), &network, &whole, &needed)?);
    Ok(())
}

#[test]
fn keeps_what_raises_the_floor(rt: HostRuntime) -> Result<(), Fail> {
    let network = network(rt.alloc())?;
    let whole = [
        project(0, 0, 0, 4),
        project(0, 0, 1, 4),
        project(1, 0, 0, 3),
        extend(0),
        extend(1),
        project(1, 0, 1, 4),
        project(2, 1, 0, 10),
        cut_tuple(2, 3),
        project(2, 1, 1, 10),
        lift(1, 10),
    ];
    let needed = [
        project(0, 0, 0, 4),
        project(0, 0, 1, 4),
        extend(0),
        extend(1),
        project(2, 1, 0, 10),
        cut_tuple(2, 3),
        project(2, 1, 1, 10),
        lift(1, 10),
    ];
    assert!(rt; keeps(rt.alloc(), &network, &whole, &needed)?);
    Ok(())
}
