//! The ends that each of several workers has.

ghost use Rattle.std.specs.Prelude.{◌≡◌, ℕ, ◌+◌, ◌<◌, ◌≤◌, ◌⊎◌, [], ◌∷◌, ◌++◌, length, map, reverse, slice_index_or, All, IfOk, IfErr, MatchOption};
ghost use Rattle.cfn_rota.specs.Balances.{AreWhole, AreWithin};
ghost use Rattle.cfn_rota.specs.Values.{IsNew, Absorbs, Meets, OneTook, Pops, Steals, AreAll, EndsWith, access, lanes_of};

use crate::lane::Lane;
use crate::rule::Kind;
use crate::thief::Thief;
use std::alloc::{AllocError, Global};
use std::marker::Model;

/// What a worker has: the end of its own lane, and for each worker's lane an end that steals from it.
///
/// Once workers have ended, they absorb each other's thieves, and so put the lanes together.
#[derive(Drop)]
pub struct Ends<T, K: Kind<T>> {
    lane: Lane<T, K>,
    /// In the order of the workers, this one too, so that all workers have thieves of the same lanes.
    thieves: Vec<Thief<T, K>>,
    /// How many thieves stand before the one that steals from the next worker's lane.
    before: usize,
}

impl<T, K: Kind<T>> Model for Ends<T, K> {
    ghost use Rattle.cfn_rota.specs.Values.{EndsValue};

    ghost Value = { EndsValue T };

    ghost view = { λ e. record { lane = e.lane; thieves = e.thieves.items } };
}

impl<T: Drop, K: Kind<T>> Ends<T, K> {
    /// Pushes a task to its own lane, as `Lane::push` does.
    pub fn push(&mut self, task: T) -> Result<(), T>
        requires fits { K.fits task }
        ensures pushed { IfOk result (λ none. self.new ≡ record self.old { lane = record self.old.lane { pushed = self.old.lane.pushed ++ task ∷ [] } }) }
        ensures back { IfErr result (λ given. (given ≡ task) × (self.new ≡ self.old)) }
        ensures room { IfErr result (λ given. self.old.lane.room ≤ length self.old.lane.pushed) }
    {
        self.lane.push(task)
    }

    /// Takes the first task of its own lane, as `Lane::pop` does.
    pub fn pop(&mut self) -> Option<T>
        ensures { MatchOption result
            ((self.new ≡ self.old) × (self.old.lane.parts ≡ 128 → AreWhole self.old.lane.pushed self.old.lane.taken []))
            (λ task. (self.new ≡ record self.old { lane = record self.old.lane { taken = self.old.lane.taken ++ task ∷ [] } }) × K.fits task × (self.old.lane.parts ≡ 128 → AreWithin self.new.lane.taken self.old.lane.pushed)) }
    {
        self.lane.pop()
    }

    /// Takes the first task of its own lane. Where none is there it steals one, as `steal` does. It takes one task where it
    /// answers one, and else none.
    pub fn find(&mut self) -> Option<T>
        ensures same { access self.new ≡ access self.old }
        ensures one { MatchOption result
            ((self.new ≡ self.old) × (self.old.lane.parts ≡ 128 → AreWhole self.old.lane.pushed self.old.lane.taken []))
            (λ task. K.fits task × (Pops task self.old self.new ⊎ Steals task self.old self.new)) }
    {
        match self.pop() {
            Some(task) => Some(task),
            None => self.steal(),
        }
    }

    /// Steals from the lanes of the others, beginning with the next worker's, until there is a task. `None` where none was
    /// found. It takes one task where it answers one, and else none. It takes no memory.
    pub fn steal(&mut self) -> Option<T>
        ensures same { access self.new ≡ access self.old }
        ensures one { MatchOption result (self.new ≡ self.old) (λ task. K.fits task × Steals task self.old self.new) }
    {
        let before = self.before.min(self.thieves.len());
        let (earlier, later) = self.thieves.as_mut_slice().split_at_mut(before);
        if let Some(task) = steal_first(later) {
            return Some(task);
        }
        steal_first(earlier)
    }

    /// Absorbs its own last thief, which is of its own lane. It takes no memory.
    pub fn absorb_own(&mut self)
        requires last { EndsWith (lanes_of self.old.thieves) self.old.lane.lane }
        ensures lane { Absorbs self.old.lane self.new.lane self.old.thieves self.new.thieves }
        ensures meets { Meets (access self.old) (access self.new) self.old.lane.lane }
    {
        if let Some(thief) = self.thieves.pop() {
            self.lane.absorb(thief);
        }
    }

    /// Two workers absorb each other's last thieves, which are of each other's lanes. It takes no memory.
    pub fn exchange(&mut self, other: &mut Ends<T, K>)
        requires mine { EndsWith (lanes_of self.old.thieves) other.old.lane.lane }
        requires theirs { EndsWith (lanes_of other.old.thieves) self.old.lane.lane }
        ensures lane { Absorbs self.old.lane self.new.lane other.old.thieves other.new.thieves }
        ensures other { Absorbs other.old.lane other.new.lane self.old.thieves self.new.thieves }
        ensures meets { Meets (access self.old) (access self.new) other.old.lane.lane }
        ensures other_meets { Meets (access other.old) (access other.new) self.old.lane.lane }
    {
        self.absorb(other);
        other.absorb(self);
    }

    /// Absorbs the last thief of another worker, which is of this one's own lane. It takes no memory.
    fn absorb(&mut self, other: &mut Ends<T, K>)
        requires last { EndsWith (lanes_of other.old.thieves) self.old.lane.lane }
        ensures lane { Absorbs self.old.lane self.new.lane other.old.thieves other.new.thieves }
        ensures thieves { self.new.thieves ≡ self.old.thieves }
        ensures other { other.new.lane ≡ other.old.lane }
    {
        if let Some(thief) = other.thieves.pop() {
            self.lane.absorb(thief);
        }
    }
}

/// Steals by one end after the other, until there is a task.
fn steal_first<T, K: Kind<T>>(thieves: &mut [Thief<T, K>]) -> Option<T>
    ensures same { lanes_of thieves.new ≡ lanes_of thieves.old }
    ensures one { MatchOption result (thieves.new ≡ thieves.old) (λ task. K.fits task × OneTook task thieves.old thieves.new) }
{
    for thief in thieves {
        if let Some(task) = thief.steal() {
            return Some(task);
        }
    }
    None
}

/// The ends of up to 64 workers, the last worker's first, with memory for `room` pushes to each lane. An `Err` is want of
/// memory.
pub fn deal<T: Drop, K: Kind<T>>(
    alloc: Global,
    workers: u32,
    room: u32,
) -> Result<Vec<Ends<T, K>>, AllocError>
    requires { workers ≤ 64 }
    ensures count { IfOk result (λ all. length all.items ≡ workers) }
    ensures new { IfOk result (λ all. All (λ ends. IsNew room ends.lane) all.items) }
    ensures all { IfOk result (λ all. AreAll (reverse (map access all.items))) }
{
    let mut thieves = no_thieves(alloc, workers)?;
    let mut lanes = lanes(alloc, thieves.as_mut_slice(), room)?;
    let mut all = Vec::with_capacity(alloc, workers as usize)?;
    while let (Some(lane), Some(thieves)) = (lanes.pop(), thieves.pop()) {
        let before = lanes.len() + 1;
        all.push_reserved(Ends {
            lane,
            thieves,
            before,
        });
    }
    Ok(all)
}

/// For each worker no end that steals.
fn no_thieves<T: Drop, K: Kind<T>>(
    alloc: Global,
    workers: u32,
) -> Result<Vec<Vec<Thief<T, K>>>, AllocError>
    ensures count { IfOk result (λ all. length all.items ≡ workers) }
    ensures none { IfOk result (λ all. All (λ thieves. lanes_of thieves.items ≡ []) all.items) }
{
    let mut all = Vec::with_capacity(alloc, workers as usize)?;
    for _ in 0..workers {
        all.push_reserved(Vec::new(alloc));
    }
    Ok(all)
}

/// A lane for each worker, with an end that steals from it for each.
fn lanes<T: Drop, K: Kind<T>>(
    alloc: Global,
    thieves: &mut [Vec<Thief<T, K>>],
    room: u32,
) -> Result<Vec<Lane<T, K>>, AllocError>
    requires few { length thieves.old ≤ 64 }
    requires none { All (λ theirs. lanes_of theirs.items ≡ []) thieves.old }
    ensures thieves { length thieves.new ≡ length thieves.old }
    ensures count { IfOk result (λ all. length all.items ≡ length thieves.old) }
    ensures new { IfOk result (λ all. All (IsNew room) all.items) }
    ensures parts { IfOk result (λ all. All (λ lane. lane.parts + length thieves.old ≡ 128) all.items) }
    ensures known { IfOk result (λ all. All (λ theirs. lanes_of theirs.items ≡ map (λ lane. lane.lane) all.items) thieves.new) }
{
    let mut all = Vec::with_capacity(alloc, thieves.len())?;
    for _ in 0..thieves.len() {
        let mut lane = Lane::make(alloc, room)?;
        add_thieves(&mut lane, thieves)?;
        all.push_reserved(lane);
    }
    Ok(all)
}

/// An end that steals from a new lane, for each worker.
fn add_thieves<T: Drop, K: Kind<T>>(
    lane: &mut Lane<T, K>,
    thieves: &mut [Vec<Thief<T, K>>],
) -> Result<(), AllocError>
    requires few { length thieves.old ≤ 64 }
    requires whole { lane.old.parts ≡ 128 }
    ensures thieves { length thieves.new ≡ length thieves.old }
    ensures lane { lane.new ≡ record lane.old { parts = lane.new.parts } }
    ensures parts { IfOk result (λ none. lane.new.parts + length thieves.old ≡ 128) }
    ensures known { IfOk result (λ none. (k : ℕ) → (d : _) → k < length thieves.old → lanes_of (slice_index_or thieves.new k d).items ≡ lanes_of (slice_index_or thieves.old k d).items ++ lane.old.lane ∷ []) }
{
    for theirs in thieves.iter_mut() {
        theirs.push(lane.thief()?)?;
    }
    Ok(())
}
