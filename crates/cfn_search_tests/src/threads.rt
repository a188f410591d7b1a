//! Two parts of one word, each in a thread of its own.

ghost use Rattle.std.specs.Prelude.{◌≡◌, None, length};

use cfn_low::{Holder, Incumbent, Low, Unnamed};
use cfn_net::{Builder, Network, Scored};
use std::alloc::{AllocError, AllocGlobal, Global};
use std::marker::Brand;
use std::sync::Wait;
use std::test::*;
use std::thread;
use std::thread::Threads;

/// How often the word is read until it is lower, at most.
const TURNS: u64 = 100_000_000;

/// One variable with two values, of the costs 7 and 3 below 20.
fn two(alloc: Global) -> Result<Network, AllocError> {
    let mut builder = Builder::make(alloc, b"two", &[2], 20)?;
    builder.function(&[0], 7, &[([1].as_slice(), 3)])?;
    builder.finish()
}

/// A part of the word, for one thread, and whether it waits there until the word is lower, or lowers it.
#[derive(Drop)]
struct Side<M: Incumbent> {
    waits: bool,
    part: Holder<M>,
}

impl<M: Incumbent> Side<M> {
    /// Lowers the word, or waits until it is lower.
    fn act(&mut self, low: &Low<M>, offer: &Scored)
        requires { offer.now.network ≡ M.network }
    {
        if self.waits {
            wait_until_lower(low, &mut self.part);
        } else {
            low.lower(&mut self.part, offer);
        }
    }
}

/// Reads the word until it is lower than what was seen, or for the last turn.
fn wait_until_lower<M: Incumbent>(low: &Low<M>, part: &mut Holder<M>) {
    let top = part.seen();
    for _ in 0..TURNS {
        if low.look(part) < top {
            return;
        }
    }
}

/// What two parts see once one has lowered the word in a thread, and the other has waited for that in another one.
fn lower_and_look<M: Incumbent + Send + Sync, R: Threads + Wait + Sync>(
    rt: &R,
    alloc: Global,
    unnamed: Unnamed,
    empty: Scored,
    offer: &Scored,
) -> Result<(u64, u64), AllocError>
    requires table { M.table ≡ unnamed.table }
    requires network { M.network ≡ unnamed.network }
    requires empty { empty ≡ record { network = unnamed.network; held = None } }
    requires offer { offer.now.network ≡ unnamed.network }
{
    let (low, mut one) = unnamed.named::<M>();
    let other = low.split(&mut one, empty);
    let first = Side {
        waits: false,
        part: one,
    };
    let second = Side {
        waits: true,
        part: other,
    };
    let mut sides = vec![in alloc; first, second]?;
    act_each(rt, &low, offer, sides.as_mut_slice());
    Ok((sides[0].part.seen(), sides[1].part.seen()))
}

/// Lets each side act in a thread of its own.
fn act_each<M: Incumbent + Send + Sync, R: Threads + Wait + Sync>(
    rt: &R,
    low: &Low<M>,
    offer: &Scored,
    sides: &mut [Side<M>],
)
    requires { offer.now.network ≡ M.network }
    ensures { length sides.new ≡ length sides.old }
{
    let threads = sides.len();
    if threads > 0 {
        thread::for_each_mut(rt, sides, threads, &|_, side| side.act(low, offer));
    }
}

/// What the two parts see of the price of the cheaper value.
fn sights<R: AllocGlobal + Threads + Wait + Sync>(rt: &R) -> Result<(u64, u64), AllocError> {
    let alloc = rt.alloc();
    let network = two(alloc)?;
    let mut offer = Scored::empty(alloc, &network)?;
    network.law_limits();
    if network.variables() == 1 && network.size(0) == 2 {
        offer.fill(&network, &[1]);
    }
    let unnamed = Unnamed::make(alloc, &network)?;
    let empty = Scored::empty(alloc, &network)?;
    lower_and_look::<Brand, R>(rt, alloc, unnamed, empty, &offer)
}

#[test]
fn what_one_thread_lowers_another_sees(rt: HostRuntime) -> Result<(), Fail> {
    assert!(rt; sights(&rt)? == (3, 3));
    Ok(())
}
