//! Tests of networks that are said as a wcsp file, also where they were read from one.

ghost use Rattle.std.specs.Prelude.{◌≡◌, [], ◌∷◌};

use cfn_desk::{Failed, MemoryDesk};
use cfn_net::{Builder, Fit, Network};
use cfn_wcsp::read;
use cfn_wcspwrite::write;
use std::alloc::{AllocError, Global};
use std::test::Fail;

/// Two variables of 2 and 3 values, a constant, one function over both, and one over the second.
fn small(rt: &HostRuntime) -> Result<Network, AllocError> {
    let mut builder = Builder::make(rt.alloc(), b"small", &[2, 3], 10)?;
    let network = small_of(&mut builder);
    drop(builder);
    network
}

/// The network of these functions, where the builder has none yet.
fn small_of(builder: &mut Builder) -> Result<Network, AllocError>
    requires sizes { builder.old.sizes ≡ 2 ∷ 3 ∷ [] }
    requires functions { builder.old.functions ≡ [] }
{
    builder.function(&[], 4, &[(&[], 7)])?;
    builder.function(&[1, 0], 2, &[(&[2, 1], 30), (&[0, 1], 1), (&[1, 0], 2)])?;
    builder.function(&[1], 0, &[])?;
    builder.finish()
}

/// What becomes of that network where these calls fail, and whether these bytes were said then.
fn say_small(
    rt: &HostRuntime,
    failing: &[u64],
    bytes: &[u8],
) -> Result<(Result<(), Failed>, bool), AllocError> {
    let network = small(rt)?;
    let mut desk = MemoryDesk::make(rt.alloc(), &[], 0, 100, failing)?;
    let answer = write(&network, &mut desk);
    Ok((answer, desk.said_bytes() == bytes))
}

/// A cell that is listed with the default's cost is not said, and a cost above the upper bound is the upper bound.
#[test]
fn says_each_line(rt: HostRuntime) -> Result<(), Fail> {
    let text = b"small 2 3 3 10\n2 3\n0 4 1\n7\n2 1 0 2 2\n0 1 1\n2 1 10\n1 1 0 0\n";
    assert!(rt; say_small(&rt, &[], text)? == (Ok(()), true));
    Ok(())
}

#[test]
fn failed_say_is_a_failure(rt: HostRuntime) -> Result<(), Fail> {
    assert!(rt; say_small(&rt, &[1], b"")? == (Err(Failed), true));
    Ok(())
}

/// A file with a function that has the table of another, the same whose own default cost differs, and what is said of both.
const SHARED: &[u8] = b"share 3 2 2 10\n2 2 2\n-2 0 1 0 1\n0 0 4\n2 1 2 0 -1\n";

const SHARED_BESIDE: &[u8] = b"share 3 2 2 10\n2 2 2\n-2 0 1 0 1\n0 0 4\n2 1 2 1 -1\n";

const SHARED_SAID: &[u8] = b"share 3 2 2 10\n2 2 2\n2 0 1 0 1\n0 0 4\n2 1 2 0 1\n0 0 4\n";

/// Whether the network of a file is said as these bytes.
fn says(alloc: Global, network: &Network, bytes: &[u8]) -> Result<bool, AllocError> {
    let mut desk = MemoryDesk::make(alloc, &[], 0, 100, &[])?;
    Ok(write(network, &mut desk) == Ok(()) && desk.said_bytes() == bytes)
}

/// The same of a file that is read.
fn reads_and_says(alloc: Global, file: &[u8], bytes: &[u8]) -> Result<bool, AllocError> {
    match read(alloc, file) {
        Ok(network) => says(alloc, &network, bytes),
        Err(_) => Ok(false),
    }
}

/// A function that has a shared table is said as any other, and its own default cost does not count.
#[test]
fn says_shared_tables_plainly(rt: HostRuntime) -> Result<(), Fail> {
    for file in [SHARED, SHARED_BESIDE, SHARED_SAID] {
        assert!(rt; reads_and_says(rt.alloc(), file, SHARED_SAID)?);
    }
    Ok(())
}

/// Whether an assignment of a network costs so much.
fn costs(network: &Network, values: &[u32], cost: u64) -> bool {
    network.fits(values) == Fit::Fits && network.cost(values).value() == cost
}

/// Whether two assignments of a file's network cost so much.
fn shares_costs(alloc: Global, file: &[u8], first: u64, second: u64) -> bool {
    match read(alloc, file) {
        Ok(network) => costs(&network, &[0, 0, 0], first) && costs(&network, &[1, 0, 0], second),
        Err(_) => false,
    }
}

/// The cost of an assignment counts each function that has a shared table.
#[test]
fn shared_tables_cost(rt: HostRuntime) {
    assert!(rt; shares_costs(rt.alloc(), SHARED, 8, 4));
}
