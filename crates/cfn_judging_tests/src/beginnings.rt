//! Searches' beginnings from certificates, in their own network and in another.

use crate::samples::{TINY, TRI, tiny, tri};
use cfn_net::Network;
use cfn_rebase::{Resumed, resume};
use std::test::Fail;

/// What is known of a beginning.
#[derive(Clone, Copy, PartialEq, Eq)]
struct Known {
    holds_best: bool,
    price: u64,
    nodes: u64,
}

/// What a search of a network begins with from a text.
fn begun(rt: &HostRuntime, network: &Network, text: &[u8]) -> Result<Known, Fail> {
    match resume(rt.alloc(), network, text, None)? {
        Resumed::Goes(begin) => Ok(Known {
            holds_best: begin.best.values().is_some(),
            price: begin.best.price(),
            nodes: begin.tree.len() as u64,
        }),
        Resumed::Refused { .. } => Err(Fail::new("the text was refused")),
    }
}

#[test]
fn all_is_known_where_nothing_has_changed(rt: HostRuntime) -> Result<(), Fail> {
    let known = begun(&rt, &tri(rt.alloc(), 1)?, TRI)?;
    assert!(rt;
        known
            == Known {
                holds_best: true,
                price: 1,
                nodes: 7
            }
    );
    Ok(())
}

#[test]
fn best_has_its_cost_in_the_network(rt: HostRuntime) -> Result<(), Fail> {
    let known = begun(&rt, &tiny(rt.alloc(), 2)?, TINY)?;
    assert!(rt; known.holds_best && known.price == 2);
    Ok(())
}

#[test]
fn best_at_the_upper_bound_is_not_kept(rt: HostRuntime) -> Result<(), Fail> {
    let known = begun(&rt, &tiny(rt.alloc(), 10)?, TINY)?;
    assert!(rt; !known.holds_best && known.price == 10);
    Ok(())
}

#[test]
fn best_that_does_not_fit_is_not_kept(rt: HostRuntime) -> Result<(), Fail> {
    let known = begun(&rt, &tiny(rt.alloc(), 1)?, TRI)?;
    assert!(rt; !known.holds_best && known.price == 10);
    Ok(())
}

#[test]
fn other_text_is_refused_at_its_line(rt: HostRuntime) -> Result<(), Fail> {
    let text = b"wcspcert 2\nnetwork 1 1\n".as_slice();
    match resume(rt.alloc(), &tiny(rt.alloc(), 1)?, text, None)? {
        Resumed::Goes(_) => Err(Fail::new("the text was read")),
        Resumed::Refused { line } => {
            assert!(rt; line == 2);
            Ok(())
        }
    }
}
