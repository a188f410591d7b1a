//! Trees that are joined.

use crate::samples::{TINY, tiny};
use cfn_merge::{Judged, certificate, join_findings, judge};
use std::test::Fail;

/// So many splits, each below the first side of another: all leaves are open.
fn nested(rt: &HostRuntime, splits: u32) -> Result<Vec<u8>, Fail> {
    let mut text = Vec::from_slice(
        rt.alloc(),
        b"wcspcert 2\nnetwork 1 1 10\nlower 0\nbest none\ntree\n",
    )?;
    for _ in 0..splits {
        text.extend_from_slice(b"split 0 0\n")?;
    }
    for _ in 0..splits {
        text.extend_from_slice(b"open\n")?;
    }
    text.extend_from_slice(b"open\nend\n")?;
    Ok(text)
}

/// The lower bound of what two texts come to, and how many nodes it has.
fn joined(rt: &HostRuntime, first: &[u8], second: &[u8]) -> Result<(u64, u64), Fail> {
    let network = tiny(rt.alloc(), 1)?;
    let Judged::Good(one) = judge(rt.alloc(), &network, first)? else {
        return Err(Fail::new("the first was refused"));
    };
    let Judged::Good(two) = judge(rt.alloc(), &network, second)? else {
        return Err(Fail::new("the second was refused"));
    };
    let found = join_findings(rt.alloc(), one, two)?;
    let merged = certificate(rt.alloc(), &network, found)?;
    Ok((merged.lower, merged.tree.len() as u64))
}

#[test]
fn deep_trees_are_joined(rt: HostRuntime) -> Result<(), Fail> {
    let deep = nested(&rt, 100_000)?;
    assert!(rt; joined(&rt, &deep, &deep)? == (0, 200_001));
    Ok(())
}

#[test]
fn higher_tree_stands(rt: HostRuntime) -> Result<(), Fail> {
    let deep = nested(&rt, 2)?;
    assert!(rt; joined(&rt, &deep, TINY)? == (1, 1));
    Ok(())
}
