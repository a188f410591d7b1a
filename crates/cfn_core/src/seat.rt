//! What a worker has seen of the word, and the best assignment that it keeps.

ghost use Rattle.std.specs.Prelude.{◌≡◌, ◌<◌, true, false, length, map, replicate, slice_set, Some, None, IfOk, IsTrue, IsFalse};
ghost use Rattle.std.specs.List.{AllByRecursion};
ghost use Rattle.cfn_core.specs.declared.seat.Seat.{Seat};
ghost use Rattle.cfn_machine.specs.Pool.{cheaper, new_view};
ghost use Rattle.cfn_core.specs.World.{view_at};
ghost use Rattle.cfn_core.specs.Machine.{IsOffered, IsSeat, IsSeatOf, found_of, seat_of};

use cfn_net::{Network, Scored};
use std::alloc::{AllocError, Global};

/// A worker's view of the word: the best assignment that it keeps, the threshold that it has seen, and whether it was
/// met, and so has ended. A view that is not met has one share of the word.
#[derive(Drop)]
pub(crate) struct Seat {
    pub(crate) best: Scored,
    pub(crate) seen: u64,
    pub(crate) met: bool,
}

/// Takes an assignment over where it is cheaper than the best so far. It takes no memory.
pub(crate) fn keep_cheaper(best: &mut Scored, offer: &Scored)
    requires { best.old.network ≡ offer.now.network }
    ensures network { best.new.network ≡ best.old.network }
    ensures found { found_of best.new.held ≡ cheaper best.old.network (found_of best.old.held) (found_of offer.now.held) }
{
    best.law_priced();
    offer.law_priced();
    if offer.price() < best.price() {
        best.take_over(offer);
    }
}

/// Views that have found nothing yet. An `Err` is want of memory.
pub(crate) fn new_seats(
    alloc: Global,
    network: &Network,
    count: u32,
) -> Result<Vec<Seat>, AllocError>
    ensures views { IfOk result (λ seats. map seat_of seats.items ≡ replicate count (Some (new_view network.now 1))) }
    ensures each { IfOk result (λ seats. AllByRecursion (IsSeatOf network.now) seats.items) }
{
    let mut seats = Vec::new(alloc);
    for _made in 0..count {
        seats.push(new_seat(alloc, network)?)?;
    }
    Ok(seats)
}

/// A view that has found nothing yet. An `Err` is want of memory.
fn new_seat(alloc: Global, network: &Network) -> Result<Seat, AllocError>
    ensures view { IfOk result (λ seat. seat_of seat ≡ Some (new_view network.now 1)) }
    ensures network { IfOk result (IsSeatOf network.now) }
{
    Ok(Seat {
        best: Scored::empty(alloc, network)?,
        seen: network.ub(),
        met: false,
    })
}

/// Whether a worker has a view that is not met.
pub(crate) fn is_there(seats: &[Seat], worker: u32) -> bool
    ensures there { IsTrue result → (seat : Seat) × IsSeat seats.now worker seat × (seat.met ≡ false) }
    ensures none { IsFalse result → view_at (map seat_of seats.now) worker ≡ None }
{
    match seats.get(worker as usize) {
        Some(seat) => !seat.met,
        None => false,
    }
}

/// Lowers what a worker has seen, and takes an assignment over where it is cheaper than the worker's best. It takes no
/// memory.
pub(crate) fn offer(seats: &mut Vec<Seat>, worker: u32, found: &Scored, seen: u64)
    requires there { worker < length seats.old.items }
    requires each { AllByRecursion (IsSeatOf found.now.network) seats.old.items }
    ensures { (seat : Seat) → IsSeat seats.old.items worker seat →
        (new : Seat) × (seats.new.items ≡ slice_set seats.old.items worker new) × IsOffered seat found.now seen new }
{
    let seat = &mut seats[worker as usize];
    keep_cheaper(&mut seat.best, found);
    seat.seen = seen;
}

/// Ends a worker's view. It takes no memory.
pub(crate) fn set_met(seats: &mut Vec<Seat>, worker: u32)
    requires { worker < length seats.old.items }
    ensures { (seat : Seat) → IsSeat seats.old.items worker seat → seats.new.items ≡ slice_set seats.old.items worker (record seat { met = true }) }
{
    seats[worker as usize].met = true;
}

/// Writes what a worker has seen. It takes no memory.
pub(crate) fn set_seen(seats: &mut Vec<Seat>, worker: u32, seen: u64)
    requires { worker < length seats.old.items }
    ensures { (seat : Seat) → IsSeat seats.old.items worker seat → seats.new.items ≡ slice_set seats.old.items worker (record seat { seen = seen }) }
{
    seats[worker as usize].seen = seen;
}
