//! Trees that are kept of certificates, in their own network and in another.

use crate::counts::{Counts, count_nodes};
use crate::samples::{TINY, TRI, tiny, tri};
use cfn_certread::read;
use cfn_net::{Network, Tables};
use cfn_rebase::keep;
use std::test::Fail;

/// The counts of a text's tree, and of what is kept of it in a network at a threshold.
fn kept(
    rt: &HostRuntime,
    network: &Network,
    text: &[u8],
    threshold: u64,
) -> Result<(Counts, Counts), Fail> {
    let alloc = rt.alloc();
    let tables = Tables::expand(alloc, network)?;
    match read(alloc, text)? {
        Ok(old) => {
            let tree = keep(alloc, network, &tables, &old.tree, threshold)?;
            Ok((count_nodes(&old.tree), count_nodes(&tree)))
        }
        Err(_) => Err(Fail::new("the text was refused")),
    }
}

#[test]
fn all_is_kept_where_nothing_has_changed(rt: HostRuntime) -> Result<(), Fail> {
    let (old, new) = kept(&rt, &tri(rt.alloc(), 1)?, TRI, 1)?;
    assert!(rt; old == new);
    assert!(rt; 0 < new.split && 0 < new.closed && 0 < new.steps);
    Ok(())
}

#[test]
fn closed_leaf_is_open_below_a_higher_threshold(rt: HostRuntime) -> Result<(), Fail> {
    let (_, new) = kept(&rt, &tiny(rt.alloc(), 2)?, TINY, 2)?;
    assert!(rt;
        new == Counts {
            open: 1,
            closed: 0,
            split: 0,
            steps: 3
        }
    );
    Ok(())
}

#[test]
fn block_ends_before_a_step_that_is_not_allowed(rt: HostRuntime) -> Result<(), Fail> {
    let (_, new) = kept(&rt, &tiny(rt.alloc(), 0)?, TINY, 0)?;
    assert!(rt;
        new == Counts {
            open: 1,
            closed: 0,
            split: 0,
            steps: 1
        }
    );
    Ok(())
}

#[test]
fn steps_out_of_range_are_not_kept(rt: HostRuntime) -> Result<(), Fail> {
    let (_, new) = kept(&rt, &tiny(rt.alloc(), 1)?, TRI, 10)?;
    assert!(rt;
        new == Counts {
            open: 2,
            closed: 0,
            split: 1,
            steps: 0
        }
    );
    Ok(())
}

#[test]
fn tree_at_lower_costs_is_kept_in_part(rt: HostRuntime) -> Result<(), Fail> {
    let (old, new) = kept(&rt, &tri(rt.alloc(), 0)?, TRI, 1)?;
    assert!(rt; new.steps < old.steps && 0 < new.open);
    Ok(())
}
