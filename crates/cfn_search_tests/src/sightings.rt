//! Two parts of one word, on one thread.

ghost use Rattle.std.specs.Prelude.{◌≡◌, None};

use cfn_low::{Incumbent, Unnamed};
use cfn_net::{Builder, Network, Scored};
use std::alloc::{AllocError, Global};
use std::marker::Brand;
use std::test::*;

/// One variable with three values, of the costs 7, 5 and 9 below 20.
fn three(alloc: Global) -> Result<Network, AllocError> {
    let mut builder = Builder::make(alloc, b"three", &[3], 20)?;
    builder.function(&[0], 7, &[([1].as_slice(), 5), ([2].as_slice(), 9)])?;
    builder.finish()
}

/// What is seen by one part before and after another has lowered the word, and in the end.
#[derive(Clone, Copy, PartialEq, Eq)]
struct Sighting {
    before: u64,
    after: u64,
    word: u64,
}

/// Splits the word, lowers it by one part, looks by the other, and ends it.
fn lower_and_look<M: Incumbent>(unnamed: Unnamed, empty: Scored, offer: &Scored) -> Sighting
    requires table { M.table ≡ unnamed.table }
    requires network { M.network ≡ unnamed.network }
    requires empty { empty ≡ record { network = unnamed.network; held = None } }
    requires offer { offer.now.network ≡ unnamed.network }
{
    let (low, mut one) = unnamed.named::<M>();
    let mut other = low.split(&mut one, empty);
    let before = other.seen();
    low.lower(&mut one, offer);
    let after = low.look(&mut other);
    low.meet(&mut one, other);
    let (_, word) = low.end(one);
    Sighting {
        before,
        after,
        word,
    }
}

/// The same in that network, where the value 1 is offered.
fn seen_by_parts(alloc: Global) -> Result<Sighting, AllocError> {
    let network = three(alloc)?;
    let mut offer = Scored::empty(alloc, &network)?;
    network.law_limits();
    if network.variables() == 1 && network.size(0) == 3 {
        offer.fill(&network, &[1]);
    }
    let unnamed = Unnamed::make(alloc, &network)?;
    let empty = Scored::empty(alloc, &network)?;
    Ok(lower_and_look::<Brand>(unnamed, empty, &offer))
}

#[test]
fn what_one_part_lowers_another_sees(rt: HostRuntime) -> Result<(), Fail> {
    let seen = Sighting {
        before: 20,
        after: 5,
        word: 5,
    };
    assert!(rt; seen_by_parts(rt.alloc())? == seen);
    Ok(())
}
