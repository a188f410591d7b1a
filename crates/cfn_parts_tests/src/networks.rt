//! Tests of networks.

ghost use Rattle.std.specs.Prelude.{◌≡◌, ◌<◌, length, [], ◌∷◌};

use cfn_net::{Builder, Fit, Network, Scored, Tables};
use cfn_store::Store;
use std::alloc::{AllocError, Global};
use std::test::Fail;

/// Two variables of 2 and 3 values, and one function over the second: it costs 3, and 7 where the value is 2.
fn tiny(alloc: Global) -> Result<Network, AllocError> {
    let mut builder = Builder::make(alloc, b"tiny", &[2, 3], 10)?;
    builder.function(&[1], 3, &[(&[2], 7)])?;
    builder.finish()
}

/// What no assignment of a network costs, and one with these values, if they fit.
fn prices(
    alloc: Global,
    network: &Network,
    values: &[u32],
) -> Result<(u64, Option<u64>), AllocError> {
    let mut scored = Scored::empty(alloc, network)?;
    let empty = scored.price();
    if network.fits(values) != Fit::Fits {
        return Ok((empty, None));
    }
    scored.fill(network, values);
    Ok((empty, Some(scored.price())))
}

/// Whether that network has these prices, and too few values and a value that is too great do not fit.
fn is_scored(alloc: Global) -> Result<bool, AllocError> {
    let network = tiny(alloc)?;
    let prices = prices(alloc, &network, &[1, 2])?;
    Ok(
        prices == (10, Some(7))
            && network.fits(&[1]) == Fit::Length
            && network.fits(&[2, 3]) == Fit::Value(0),
    )
}

#[test]
fn builds_and_scores(rt: HostRuntime) -> Result<(), Fail> {
    assert!(rt; is_scored(rt.alloc())?);
    Ok(())
}

/// Two variables of 4 values, and a function over both: it costs 1, but 7 at cell 5, and where `second` is set, 4 at
/// cell 10.
fn square(alloc: Global, second: bool) -> Result<Network, AllocError> {
    let mut builder = Builder::make(alloc, b"square", &[4, 4], 10)?;
    builder.begin(&[0, 1], 1)?;
    builder.list(5, 7);
    if second {
        builder.list(10, 4);
    }
    builder.finish()
}

/// Whether each cell of that function costs what it does, as an entry and as the cost of its values.
fn costs(network: &Network, second: bool) -> bool {
    if network.functions() != 1 || network.cells(0) != 16 {
        return false;
    }
    for cell in 0..16 {
        let cost = match cell {
            5 => 7,
            10 if second => 4,
            _ => 1,
        };
        let values = [cell / 4, cell % 4];
        if network.entry(0, cell) != cost
            || network.fits(&values) != Fit::Fits
            || network.cost(&values).value() != cost
        {
            return false;
        }
    }
    true
}

/// Whether all entries of that function are kept, and no cell is listed alone.
fn is_whole(network: &Network) -> bool {
    network.functions() == 1 && network.table(0).is_some() && network.listed(0).is_none()
}

/// Whether that network has its costs, and keeps all entries where `second` is set.
fn lists(alloc: Global, second: bool) -> Result<bool, AllocError> {
    let network = square(alloc, second)?;
    Ok(costs(&network, second) && is_whole(&network) == second)
}

/// One entry of 16 that differs from the default is listed alone; with two of them all entries are kept.
#[test]
fn lists_few_entries(rt: HostRuntime) -> Result<(), Fail> {
    for second in [false, true] {
        assert!(rt; lists(rt.alloc(), second)?);
    }
    Ok(())
}

/// Functions that share a table, the last of which is written at one cell.
fn sharing(alloc: Global) -> Result<Network, AllocError> {
    let mut builder = Builder::make(alloc, b"shared", &[2, 2, 2], 10)?;
    let network = sharing_of(&mut builder);
    drop(builder);
    network
}

/// The network of these functions, where the builder has none yet.
fn sharing_of(builder: &mut Builder) -> Result<Network, AllocError>
    requires sizes { builder.old.sizes ≡ 2 ∷ 2 ∷ 2 ∷ [] }
    requires functions { builder.old.functions ≡ [] }
{
    builder.function(&[0, 1], 1, &[(&[0, 1], 5)])?;
    builder.shared(&[1, 2], 0)?;
    builder.shared(&[2, 0], 1)?;
    builder.list(3, 9);
    builder.finish()
}

/// Whether a function has this scope and this table.
fn has(network: &Network, f: u32, scope: &[u32], entries: &[u64]) -> bool {
    f < network.functions()
        && network.scope(f) == scope
        && matches!(network.table(f), Some(table) if table == entries)
}

/// Whether those functions have their tables.
fn shares(alloc: Global) -> Result<bool, AllocError> {
    let network = sharing(alloc)?;
    Ok(
        network.functions() == 3
            && has(&network, 0, &[0, 1], &[1, 5, 1, 1])
            && has(&network, 1, &[1, 2], &[1, 5, 1, 1])
            && has(&network, 2, &[2, 0], &[1, 5, 1, 9]),
    )
}

#[test]
fn shares_tables(rt: HostRuntime) -> Result<(), Fail> {
    assert!(rt; shares(rt.alloc())?);
    Ok(())
}

/// The greatest cost of a tuple of the first function with the value 1 of its first variable, by a store over tables.
fn greatest(alloc: Global, network: &Network, tables: &Tables) -> Result<u64, AllocError>
    requires { tables.now ≡ network.now }
{
    network.law_limits();
    if network.functions() == 0
        || network.scope(0).is_empty()
        || network.size(network.scope(0)[0]) < 2
    {
        return Ok(0);
    }
    let store = Store::over(alloc, network, tables)?;
    let greatest = store.greatest_residual(0, 0, 1);
    drop(store);
    Ok(greatest.map_or(0, |extreme| extreme.cost))
}

/// The greatest cost of that square, by each of two stores over the same tables.
fn greatest_twice(alloc: Global) -> Result<(u64, u64), AllocError> {
    let network = square(alloc, false)?;
    let tables = Tables::expand(alloc, &network)?;
    let first = greatest(alloc, &network, &tables)?;
    let second = greatest(alloc, &network, &tables)?;
    Ok((first, second))
}

/// Whether the tables of that square have these entries.
fn expands(alloc: Global, entries: &[u64]) -> Result<bool, AllocError> {
    let network = square(alloc, false)?;
    let tables = Tables::expand(alloc, &network)?;
    Ok(network.functions() == 1 && tables.table(&network, 0) == entries)
}

/// What a network lists alone is all there for those who go over it.
#[test]
fn expands_tables(rt: HostRuntime) -> Result<(), Fail> {
    let table = [1, 1, 1, 1, 1, 7, 1, 1, 1, 1, 1, 1, 1, 1, 1, 1];
    assert!(rt; expands(rt.alloc(), &table)?);
    assert!(rt; greatest_twice(rt.alloc())? == (7, 7));
    Ok(())
}
