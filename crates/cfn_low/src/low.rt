//! The word itself, and what is done with it through a shared borrow, from any thread. No call waits, and none but `make`
//! takes memory.

ghost use Rattle.std.specs.Prelude.{◌≡◌, ◌<◌, ◌≤◌, ◌+◌, ◌-◌, min, None, IfOk};
ghost use Rattle.cfn_model.specs.Certificate.{threshold_of};
ghost use Rattle.cfn_low.specs.Holding.{price_of, kept};
ghost use Rattle.cfn_low.specs.Steps.{IsReached};

use crate::holder::{Holder, Note};
use crate::rule::{Incumbent, Look, Lower, Meeting, Share, Telling, WordRule};
use atomic_table::{Seat, Table};
use cfn_machine::Sight;
use cfn_net::{Network, Scored};
use std::alloc::{AllocError, Global};
use std::marker::{Model, PhantomData};

/// A word that has no name yet, with all its shares.
#[derive(Drop)]
pub struct Unnamed {
    table: Table<(), Sight, Network, WordRule, Global>,
    seat: Seat<(), Sight>,
    best: Scored,
}

impl Model for Unnamed {
    ghost use Rattle.std.specs.Prelude.{◌≡◌, None};
    ghost use Rattle.cfn_machine.specs.Word.{first_sight};
    ghost use Rattle.cfn_low.specs.Steps.{bare};
    ghost use Rattle.cfn_low.specs.Holding.{Made};

    ghost Value = { Made };

    ghost view = { λ s. record { table = s.table.shared.table_id; network = s.best.network } };

    ghost invariant = { λ s. (s.table.shared.table_id.words ≡ 1) × (s.table.shared.table_id.slots ≡ 0) × (s.table.shared.key ≡ s.best.network) × (s.seat.table_id ≡ s.table.shared.table_id)
        × (s.seat.me ≡ bare (first_sight s.best.network.upper)) × (s.best.held ≡ None) };
}

/// The word.
#[derive(Drop)]
pub struct Low<M: Incumbent> {
    table: Table<(), Sight, Network, WordRule, Global>,
    word: PhantomData<M>,
}

impl<M: Incumbent> Model for Low<M> {
    ghost Value = { Unit {0} };

    ghost view = { λ s. tt };

    ghost invariant = { λ s. (s.table.shared.table_id ≡ M.table) × (s.table.shared.table_id.words ≡ 1) × (s.table.shared.table_id.slots ≡ 0) × (s.table.shared.key ≡ M.network) };
}

impl Unnamed {
    /// A word at the upper bound of a network, with nothing found. An `Err` is want of memory.
    pub fn make(alloc: Global, network: &Network) -> Result<Unnamed, AllocError>
        ensures { IfOk result (λ made. made.network ≡ network.now) }
    {
        network.law_limits();
        let best = Scored::empty(alloc, network)?;
        let top = network.ub();
        let (table, seat) = Table::of_words(alloc, &[top], network)?;
        Ok(Unnamed { table, seat, best })
    }

    /// The word by a name, with the part that has all shares and keeps nothing.
    pub fn named<M: Incumbent>(self) -> (Low<M>, Holder<M>)
        requires table { M.table ≡ self.table }
        requires network { M.network ≡ self.network }
        ensures { result.1 ≡ record { held = None; seen = M.network.upper; shares = 128 } }
    {
        let Unnamed { table, seat, best } = self;
        let seen = best.price();
        let low = Low {
            table,
            word: PhantomData,
        };
        let holder = Holder {
            seat,
            best,
            seen,
            shares: 128,
            word: PhantomData,
        };
        (low, holder)
    }
}

impl<M: Incumbent> Low<M> {
    /// One share of a part that has two or more, in a new part which keeps nothing. `empty` holds nothing.
    pub fn split(&self, holder: &mut Holder<M>, empty: Scored) -> Holder<M>
        requires shares { 1 < holder.old.shares }
        requires empty { empty ≡ record { network = M.network; held = None } }
        ensures left { holder.new ≡ record holder.old { shares = holder.old.shares - 1 } }
        ensures right { result ≡ record { held = None; seen = holder.old.seen; shares = 1 } }
    {
        let seat = self.table.shared.split_seat::<Share<M>>(&mut holder.seat);
        holder.shares -= 1;
        Holder {
            seat,
            best: empty,
            seen: holder.seen,
            shares: 1,
            word: PhantomData,
        }
    }

    /// Reads the word: so much is seen then, no more than before and than the price of what is kept. A part that has all
    /// shares sees that price.
    pub fn look(&self, holder: &mut Holder<M>) -> u64
        ensures seen { holder.new ≡ record holder.old { seen = result } }
        ensures falls { result ≤ holder.old.seen }
        ensures below { result ≤ price_of M.network holder.old }
        ensures whole { holder.old.shares ≡ 128 → result ≡ price_of M.network holder.old }
    {
        let seen = self.table.shared.load::<Look<M>>(&mut holder.seat, 0);
        holder.seen = seen;
        seen
    }

    /// Takes an assignment over where it is cheaper than what is kept, and lowers the word to its price. What is seen then is
    /// at most that price, and no more than before.
    pub fn lower(&self, holder: &mut Holder<M>, offer: &Scored) -> u64
        requires { offer.now.network ≡ M.network }
        ensures seen { holder.new ≡ record { held = kept M.network holder.old.held offer.now.held; seen = result; shares = holder.old.shares } }
        ensures falls { result ≤ holder.old.seen }
        ensures below { result ≤ threshold_of M.network.upper offer.now.held }
    {
        let price = price(offer);
        let found = self
            .table
            .shared
            .fetch_min::<Lower<M>>(&mut holder.seat, 0, price);
        keep_cheaper(&mut holder.best, offer);
        holder.seen = if price < found { price } else { found };
        holder.seen
    }

    /// A note of what a part has seen.
    pub fn note(&self, holder: &mut Holder<M>) -> Note<M>
        ensures same { holder.new ≡ holder.old }
        ensures seen { result ≡ holder.old.seen }
    {
        let seat = self.table.shared.split_seat::<Telling<M>>(&mut holder.seat);
        Note {
            seat,
            seen: holder.seen,
            word: PhantomData,
        }
    }

    /// Takes a note in, and reads the word. What is seen then is at most what the note had seen, no more than before, and no more
    /// than the price of what is kept. A part that has all shares sees that price.
    pub fn heed(&self, holder: &mut Holder<M>, note: Note<M>) -> u64
        ensures seen { holder.new ≡ record holder.old { seen = result } }
        ensures falls { result ≤ holder.old.seen }
        ensures below { result ≤ note }
        ensures price { result ≤ price_of M.network holder.old }
        ensures whole { holder.old.shares ≡ 128 → result ≡ price_of M.network holder.old }
    {
        let Note {
            seat,
            seen,
            word: _,
        } = note;
        self.table
            .shared
            .join_seat::<Meeting<M>>(&mut holder.seat, seat);
        if seen < holder.seen {
            holder.seen = seen;
        }
        self.look(holder)
    }

    /// Joins another part in, with its shares; the cheaper assignment is kept, and the lesser threshold was seen.
    pub fn meet(&self, holder: &mut Holder<M>, other: Holder<M>)
        ensures { holder.new ≡ record {
          held = kept M.network holder.old.held other.held;
          seen = min holder.old.seen other.seen;
          shares = min (holder.old.shares + other.shares) 128;
        } }
    {
        let Holder {
            seat,
            best,
            seen,
            shares,
            word: _,
        } = other;
        self.table
            .shared
            .join_seat::<Meeting<M>>(&mut holder.seat, seat);
        keep_cheaper(&mut holder.best, &best);
        if seen < holder.seen {
            holder.seen = seen;
        }
        holder.shares = 128.min(holder.shares + shares);
    }

    /// Ends the word, which the part that has all shares gives back: the best assignment that was found, whose price is the
    /// word, and the word.
    pub fn end(self, last: Holder<M>) -> (Scored, u64)
        requires { last.shares ≡ 128 }
        ensures best { result.0 ≡ record { network = M.network; held = last.held } }
        ensures word { result.1 ≡ price_of M.network last }
    {
        let Low { table, word: _ } = self;
        let Holder {
            seat,
            best,
            seen: _,
            shares: _,
            word: _,
        } = last;
        let closed = table.close_with(seat);
        let word = closed.word(0);
        closed.free();
        (best, word)
    }
}

/// The price of what a buffer holds: the cost of an assignment, or the upper bound.
fn price(offer: &Scored) -> u64
    ensures price { result ≡ threshold_of offer.now.network.upper offer.now.held }
    ensures reached { IsReached offer.now.network result }
{
    offer.law_priced();
    offer.price()
}

/// Takes over what another buffer of the network holds, where that is cheaper.
fn keep_cheaper(best: &mut Scored, offer: &Scored)
    requires { best.old.network ≡ offer.now.network }
    ensures { best.new ≡ record { network = best.old.network; held = kept best.old.network best.old.held offer.now.held } }
{
    if offer.price() < best.price() {
        best.take_over(offer);
    }
}
