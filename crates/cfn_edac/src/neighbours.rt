//! The neighbours of a variable: for each other open variable the first function whose two open variables they are.

ghost use Rattle.std.specs.Prelude.{[], ◌≡◌, ◌<◌, ◌≤◌, length, IfOk, IfSome, MatchOption};
ghost use Rattle.cfn_incidence.specs.Places.{StandsAt};
ghost use Rattle.cfn_model.specs.Network.{variable_at};
ghost use Rattle.cfn_rows.specs.Sets.{live_count};
ghost use Rattle.cfn_store.specs.Rooms.{sets_of};
ghost use Rattle.cfn_store.specs.Standing.{history};
ghost use Rattle.cfn_edac.specs.Neighbours.{AreNeighbours};
ghost use Rattle.cfn_edac.specs.Gathering.{HasNoNeighbour, IsNeighbourAt, ArePairs, AreMarks, IsClear};

use cfn_dac::{Opens, Pair, open_places};
use cfn_incidence::{Incidence, Place};
use cfn_net::Network;
use cfn_store::Store;
use std::alloc::{AllocError, Global};
use std::marker::Model;

/// Room for the neighbours of one variable. Contracts see the network, and the neighbours that were gathered last.
#[derive(Drop)]
pub struct Neighbours<'n> {
    network: &'n Network,
    pairs: Vec<Pair>,
    /// Which variables are at the other end of a neighbour, while neighbours are gathered.
    met: Vec<bool>,
}

impl<'n> Model for Neighbours<'n> {
    ghost use Rattle.std.specs.Prelude.{◌≤◌, length, vec_capacity};
    ghost use Rattle.cfn_edac.specs.Neighbours.{Gathered};
    ghost use Rattle.cfn_edac.specs.Gathering.{IsClear};

    ghost Value = { Gathered };

    ghost view = { λ s. record { network = s.network.now; pairs = s.pairs.items } };

    ghost invariant = { λ s. (length s.network.now.functions ≤ vec_capacity s.pairs) × IsClear s.network.now s.met.items };
}

impl<'n> Neighbours<'n> {
    /// No neighbour yet, for stores of a network. An `Err` is want of memory; no other call takes any.
    pub fn make(alloc: Global, network: &'n Network) -> Result<Neighbours<'n>, AllocError>
        ensures { IfOk result (λ neighbours. neighbours.network ≡ network.now) }
    {
        Ok(Neighbours {
            network,
            pairs: Vec::with_capacity(alloc, network.functions() as usize)?,
            met: vec![in alloc; false; network.variables() as usize]?,
        })
    }

    /// The neighbours that were gathered last.
    pub fn pairs(&self) -> &[Pair]
        ensures { result.now ≡ self.now.pairs }
    {
        self.pairs.as_slice()
    }

    /// Gathers the neighbours of a variable: none where it is not open.
    pub fn gather(&mut self, store: &Store<'_>, incidence: &Incidence, x: u32)
        requires incidence { incidence.now ≡ self.old.network }
        requires network { store.now.network ≡ self.old.network }
        requires variable { x < length self.old.network.sizes }
        ensures network { self.new.network ≡ self.old.network }
        ensures neighbours { AreNeighbours self.new.network (history store.now) x self.new.pairs }
    {
        if store.count(x) < 2 {
            self.pairs.clear();
        } else {
            self.gather_open(store, incidence, x);
        }
    }

    /// Gathers the neighbours of an open variable from all its places.
    fn gather_open(&mut self, store: &Store<'_>, incidence: &Incidence, x: u32)
        requires incidence { incidence.now ≡ self.old.network }
        requires network { store.now.network ≡ self.old.network }
        requires variable { x < length self.old.network.sizes }
        requires open { 2 ≤ live_count (sets_of store.now) x }
        ensures network { self.new.network ≡ self.old.network }
        ensures neighbours { AreNeighbours self.new.network (history store.now) x self.new.pairs }
    {
        let network = self.network;
        network.law_limits();
        self.pairs.clear();
        for place in incidence.places(x) {
            if let Some(pair) = neighbour_at(store, *place, x) {
                let y = network.scope(pair.function)[pair.other as usize] as usize;
                if !self.met[y] {
                    self.met[y] = true;
                    self.pairs.push_reserved(pair);
                }
            }
        }
        unmark(network, self.pairs.as_slice(), &mut self.met);
    }
}

/// The open pair of a place's function with that place first, at which the open variable `x` stands, where there is one.
fn neighbour_at(store: &Store<'_>, place: Place, x: u32) -> Option<Pair>
    requires stands { StandsAt store.now.network x place }
    requires open { 2 ≤ live_count (sets_of store.now) x }
    ensures { MatchOption result (HasNoNeighbour store.now.network (history store.now) place) (IsNeighbourAt store.now.network (history store.now) place) }
{
    store.network().law_limits();
    if place.other == x {
        wide_neighbour_at(store, place)
    } else if store.count(place.other) < 2 {
        None
    } else {
        Some(pair_of(place, 1 - place.place))
    }
}

/// The open pair of a place's function with that place first, where there is one, for any number of variables.
pub(crate) fn wide_neighbour_at(store: &Store<'_>, place: Place) -> Option<Pair>
    requires { StandsAt store.now.network (variable_at store.now.network place.function place.place) place }
    ensures { MatchOption result (HasNoNeighbour store.now.network (history store.now) place) (IsNeighbourAt store.now.network (history store.now) place) }
{
    match open_places(store, place.function) {
        Opens::Few => None,
        Opens::Many => None,
        Opens::Two { place: i, other: j } => {
            if i == place.place {
                Some(pair_of(place, j))
            } else if j == place.place {
                Some(pair_of(place, i))
            } else {
                None
            }
        }
    }
}

/// A place and another one of its function.
fn pair_of(place: Place, other: u32) -> Pair
    ensures { result ≡ record { function = place.function; place = place.place; other = other } }
{
    Pair {
        function: place.function,
        place: place.place,
        other,
    }
}

/// Takes the marks of the variables at the other ends of neighbours away.
fn unmark(network: &Network, pairs: &[Pair], met: &mut [bool])
    requires pairs { ArePairs network.now pairs.now }
    requires marks { AreMarks network.now met.old pairs.now 0 }
    ensures { IsClear network.now met.new }
{
    network.law_limits();
    for pair in pairs {
        let y = network.scope(pair.function)[pair.other as usize];
        met[y as usize] = false;
    }
}
