//! A store's room, blocks and steps.

ghost use Rattle.std.specs.Prelude.{◌≡◌, ◌<◌, length};
ghost use Rattle.cfn_model.specs.Network.{cells, dims_at};
ghost use Rattle.cfn_store.specs.Standing.{at_root};

use cfn_model::Step;
use cfn_net::{Builder, Network};
use cfn_store::Store;
use std::alloc::{AllocError, Global};
use std::test::*;

/// Two variables with two values, and a function that costs 2 where they agree, 7 where the first is 0 and the second 1,
/// and is forbidden else.
fn pair(alloc: Global) -> Result<Network, AllocError> {
    let listed = [
        ([0, 0].as_slice(), 2),
        ([0, 1].as_slice(), 7),
        ([1, 1].as_slice(), 2),
    ];
    let mut builder = Builder::make(alloc, b"pair", &[2, 2], 9)?;
    let added = builder.function(&[0, 1], 9, &listed);
    let pair = added.and_then(|()| builder.finish());
    drop(builder);
    pair
}

/// The floor of a new store, how long its block is, and whether the block has a step.
fn beginning(alloc: Global, network: &Network) -> Result<(u128, usize, bool), AllocError> {
    let mut store = Store::build(alloc, network)?;
    let told = told_by(alloc, &mut store);
    drop(store);
    told
}

/// The same, of a store that has no room yet.
fn told_by(alloc: Global, store: &mut Store<'_>) -> Result<(u128, usize, bool), AllocError> {
    store.reserve(2)?;
    let block = store.block(alloc)?;
    let has_step = block.cursor().next().is_some();
    drop(block);
    Ok((store.floor(), store.block_len(), has_step))
}

/// How long a store's block is behind two cuts, and the second of them.
fn newest(alloc: Global, network: &Network) -> Result<Option<(usize, Step)>, AllocError> {
    let mut store = Store::build(alloc, network)?;
    let newest = newest_in(&mut store, network);
    drop(store);
    newest
}

/// The same, of a store at the root.
fn newest_in(store: &mut Store<'_>, network: &Network) -> Result<Option<(usize, Step)>, AllocError>
    requires { store.old ≡ at_root network.now }
{
    store.reserve(2)?;
    if network.variables() != 2 || network.size(0) != 2 || network.size(1) != 2 {
        return Ok(None);
    }
    store.cut_value(0, 1);
    store.cut_value(1, 0);
    Ok(Some((store.block_len(), store.step(1))))
}

/// Whether each of the four cells of a store's one function is live, and its residual cost; then the same with what can be
/// projected to the first value of the first variable there.
fn cells(alloc: Global, network: &Network) -> Result<Option<[Cells; 2]>, AllocError> {
    let mut store = Store::build(alloc, network)?;
    let told = cells_told(&mut store, network);
    drop(store);
    told
}

/// What is told of four cells.
type Cells = [(bool, u64); 4];

/// The same, of a store at the root.
fn cells_told(store: &mut Store<'_>, network: &Network) -> Result<Option<[Cells; 2]>, AllocError>
    requires { store.old ≡ at_root network.now }
{
    store.reserve(1)?;
    network.law_limits();
    if network.functions() != 1 || network.cells(0) != 4 || network.scope(0).len() != 2 {
        return Ok(None);
    }
    if network.size(network.scope(0)[0]) != 2 {
        return Ok(None);
    }
    let root = cells_at(store);
    let room = store.project_room(0, 0, 0);
    if room == 0 {
        return Ok(None);
    }
    store.project(0, 0, 0, room);
    Ok(Some([root, cells_at(store)]))
}

/// The same, where a store stands.
fn cells_at(store: &Store<'_>) -> Cells
    requires function { 0 < length store.now.network.functions }
    requires cells { cells (dims_at store.now.network 0) ≡ 4 }
{
    let mut told = [(false, 0); 4];
    for cell in 0..4 {
        told[cell as usize] = (store.is_live_cell(0, cell), store.residual(0, cell));
    }
    told
}

#[test]
fn tells_each_cell(rt: HostRuntime) -> Result<(), Fail> {
    let network = pair(rt.alloc())?;
    let told = cells(rt.alloc(), &network)?;
    let root = [(true, 2), (true, 7), (false, 0), (true, 2)];
    let projected = [(true, 0), (true, 5), (false, 0), (true, 2)];
    assert!(rt; told == Some([root, projected]));
    Ok(())
}

#[test]
fn takes_room_and_makes_a_block(rt: HostRuntime) -> Result<(), Fail> {
    let network = pair(rt.alloc())?;
    let told = beginning(rt.alloc(), &network)?;
    assert!(rt; told == (0, 0, false));
    Ok(())
}

#[test]
fn tells_its_newest_steps(rt: HostRuntime) -> Result<(), Fail> {
    let network = pair(rt.alloc())?;
    let told = newest(rt.alloc(), &network)?;
    let cut = Step::CutValue {
        variable: 1,
        value: 0,
    };
    assert!(rt; told == Some((2, cut)));
    Ok(())
}
