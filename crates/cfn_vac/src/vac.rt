//! Virtual arc consistency at the root, with whole amounts (Cooper et al., Soft arc consistency revisited, 2010).
//!
//! At an amount `q` the network that forbids what costs at least `q` is propagated. Where that empties a variable the costs of what
//! was deleted are gathered there by a plan, and the floor rises; where a step of the plan is blocked, since costs are whole and
//! one amount would be needed twice, what it stands for is banned, and the propagation tried again. Then comes half the amount.
//!
//! Invariant: the store runs at the threshold, and what the deriver knows of it holds.

ghost use Rattle.std.specs.Prelude.{◌≡◌, ℕ, ◌+◌, ◌<◌, ◌≤◌, ◌⊎◌, true, false, length, IfOk, OnErr};
ghost use Rattle.cfn_model.specs.Sums.{floor, is_live};
ghost use Rattle.cfn_consistency.specs.Virtual.{IsDerivation, IsClosedFamily, without};
ghost use Rattle.cfn_consistency.specs.Consistency.{AreArcConsistent};
ghost use Rattle.cfn_store.specs.Standing.{history};
ghost use Rattle.cfn_gain.specs.Calls.{Adds};
ghost use Rattle.cfn_derivation.specs.declared.deriver.Derived.TheVariants.{Closed, Emptied};
ghost use Rattle.cfn_derivation.specs.Derived.{value_count, AllAlive, EmptiesLast};
ghost use Rattle.cfn_derivation.specs.Banned.{bans_of, NoneBanned};
ghost use Rattle.cfn_derivation.specs.Watched.{IsWatched};
ghost use Rattle.cfn_vac.specs.declared.vac.Attempt.TheVariants.{Rose, Banned};
ghost use Rattle.cfn_vac.specs.declared.vac.Attempt.TheVariants as Attempt;
ghost use Rattle.cfn_vac.specs.Running.{IsShift};
ghost use Rattle.cfn_vac.specs.Roots.{IsReady, EndsWith, HasLifted, BansMore};

use crate::amounts::first_amount;
use crate::lifter::{Lifter, Lifting};
use cfn_derivation::{Bans, Derived, Deriver};
use cfn_explore::Halt;
use cfn_gain::Limits;
use cfn_incidence::Incidence;
use cfn_model::Step;
use cfn_net::Network;
use cfn_store::Store;
use std::alloc::{AllocError, Global};
use std::marker::Model;

/// How many plans one after another may be blocked at one amount, in any network and at most.
const FEWEST_BLOCKS: u32 = 32;

const MOST_BLOCKS: u32 = 1_024;

/// After how many deletions at one amount no further lift is tried, so that a large root ends in seconds.
const MOST_DELETIONS: u64 = 2_097_152;

/// What an attempt to lift came to: the floor rose; a ban was made, and another attempt may lift; none may at this amount; or
/// none may at all.
#[derive(Clone, Copy)]
enum Attempt {
    Rose,
    Banned,
    Closed,
    Spent,
}

/// Virtual arc consistency in stores of a network. Contracts see the network, what is known of the store, with the deletions of the
/// newest derivation, and what is banned.
#[derive(Drop)]
pub struct RootVac<'n> {
    network: &'n Network,
    deriver: Deriver<'n>,
    bans: Bans<'n>,
    lifter: Lifter<'n>,
}

impl<'n> Model for RootVac<'n> {
    ghost use Rattle.std.specs.Prelude.{◌≡◌};
    ghost use Rattle.cfn_vac.specs.Roots.{Root};

    ghost Value = { Root };

    ghost view = { λ s. record { network = s.network.now; watch = s.deriver; bans = s.bans } };

    ghost invariant = { λ s. (s.deriver.network ≡ s.network.now) × (s.bans.network ≡ s.network.now) × (s.lifter ≡ s.network.now) };
}

impl<'n> RootVac<'n> {
    /// For stores of a network. An `Err` is want of memory.
    pub fn make(alloc: Global, network: &'n Network) -> Result<RootVac<'n>, AllocError>
        ensures { IfOk result (λ root. root.network ≡ network.now) }
    {
        Ok(RootVac {
            network,
            deriver: Deriver::make(alloc, network)?,
            bans: Bans::make(alloc, network)?,
            lifter: Lifter::make(alloc, network)?,
        })
    }

    /// Begins with a store at an amount `q`: nothing is banned. In a store that is settled the functions are arc consistent.
    pub fn begin(&mut self, store: &Store<'_>, settled: bool, q: u64)
        requires network { store.now.network ≡ self.old.network }
        requires settled { settled ≡ true → (k : ℕ) × AreArcConsistent self.old.network (history store.now) k }
        ensures network { self.new.network ≡ self.old.network }
        ensures watch { IsWatched self.old.network (history store.now) self.new.watch q }
        ensures none { NoneBanned self.old.network (bans_of self.new.bans) }
    {
        self.deriver.begin(store, settled, q);
        self.bans.clear();
    }

    /// Tries to lift at the amount `q`: by the plan of a derivation, with a factor or with its amounts as they are. Unless the floor
    /// rose the store is as it was; so too after an `Err`, want of memory.
    pub fn lift_once(
        &mut self,
        store: &mut Store<'_>,
        incidence: &Incidence,
        limits: Limits,
        q: u64,
    ) -> Result<Lifting, AllocError>
        requires ready { IsReady self.old.network store.old limits }
        requires incidence { incidence.now ≡ self.old.network }
        requires some { 0 < q }
        requires watch { IsWatched self.old.network (history store.old) self.old.watch q }
        ensures network { self.new.network ≡ self.old.network }
        ensures bans { self.new.bans ≡ self.old.bans }
        ensures watch { self.new.watch ≡ record self.old.watch { deletions = self.new.watch.deletions } }
        ensures adds { Adds store.old store.new limits }
        ensures live { (y a : ℕ) → is_live (history store.new) y a ≡ is_live (history store.old) y a }
        ensures ends { IfOk result (EndsWith self.old.network q (bans_of self.old.bans) limits store.old store.new self.new.watch.deletions) }
        ensures err { OnErr result (store.new ≡ store.old) }
    {
        match derive(&mut self.deriver, store, incidence, q, &self.bans) {
            Derived::Closed => Ok(Lifting::Closed),
            Derived::Emptied(x) => {
                self.lifter
                    .lift(store, limits, q, self.deriver.deletions(), x)
            }
        }
    }

    /// Raises the floor: at amounts that halve, from a power of two within the threshold down to 1, whether or not one
    /// lifted; only where `halt` is past, or there is no room or memory for a lift, does it end before. In a store that is
    /// settled the functions are arc consistent. All its steps are of lifts by the plans of derivations. Whether the floor rose.
    pub fn raise<H: Halt>(
        &mut self,
        store: &mut Store<'_>,
        incidence: &Incidence,
        limits: Limits,
        settled: bool,
        halt: &H,
    ) -> bool
        requires ready { IsReady self.old.network store.old limits }
        requires incidence { incidence.now ≡ self.old.network }
        requires settled { settled ≡ true → (k : ℕ) × AreArcConsistent self.old.network (history store.old) k }
        ensures network { self.new.network ≡ self.old.network }
        ensures adds { Adds store.old store.new limits }
        ensures lifts { HasLifted self.old.network store.old store.new }
        ensures rose { result ≡ true → floor self.old.network (history store.old) < floor self.old.network (history store.new) }
        ensures still { result ≡ false → floor self.old.network (history store.old) ≡ floor self.old.network (history store.new) }
    {
        let before = store.floor();
        if limits.threshold > 0 {
            self.halve(store, incidence, limits, settled, halt);
        }
        store.floor() > before
    }

    /// The same, at a threshold from 1 on.
    fn halve<H: Halt>(
        &mut self,
        store: &mut Store<'_>,
        incidence: &Incidence,
        limits: Limits,
        settled: bool,
        halt: &H,
    )
        requires ready { IsReady self.old.network store.old limits }
        requires incidence { incidence.now ≡ self.old.network }
        requires settled { settled ≡ true → (k : ℕ) × AreArcConsistent self.old.network (history store.old) k }
        requires some { 0 < limits.threshold }
        ensures network { self.new.network ≡ self.old.network }
        ensures adds { Adds store.old store.new limits }
        ensures lifts { HasLifted self.old.network store.old store.new }
    {
        let mut q = first_amount(store, limits.threshold);
        self.begin(store, settled, q);
        while self.raise_at(store, incidence, limits, q, halt) && q > 1 {
            q /= 2;
            self.lower(store, q);
        }
    }

    /// Takes another amount: nothing is banned any more.
    fn lower(&mut self, store: &Store<'_>, q: u64)
        requires network { store.now.network ≡ self.old.network }
        requires watch { (p : ℕ) × IsWatched self.old.network (history store.now) self.old.watch p }
        ensures network { self.new.network ≡ self.old.network }
        ensures watch { IsWatched self.old.network (history store.now) self.new.watch q }
        ensures none { NoneBanned self.old.network (bans_of self.new.bans) }
    {
        self.deriver.lower(store, q);
        self.bans.clear();
    }

    /// Lifts at one amount, until nothing is left to gather, the floor reaches the threshold, one plan after another is blocked, or
    /// as many values were deleted as may be. Whether a smaller amount may lift; none may where `halt` is past, which is asked
    /// before each attempt.
    fn raise_at<H: Halt>(
        &mut self,
        store: &mut Store<'_>,
        incidence: &Incidence,
        limits: Limits,
        q: u64,
        halt: &H,
    ) -> bool
        requires ready { IsReady self.old.network store.old limits }
        requires incidence { incidence.now ≡ self.old.network }
        requires some { 0 < q }
        requires watch { IsWatched self.old.network (history store.old) self.old.watch q }
        requires none { NoneBanned self.old.network (bans_of self.old.bans) }
        ensures network { self.new.network ≡ self.old.network }
        ensures adds { Adds store.old store.new limits }
        ensures lifts { HasLifted self.old.network store.old store.new }
        ensures ready { IsReady self.old.network store.new limits }
        ensures watch { IsWatched self.old.network (history store.new) self.new.watch q }
    {
        let most = most_blocks(self.network);
        let mut blocks = 0;
        let mut work: u64 = 0;
        while blocks < most
            && work < MOST_DELETIONS
            && store.floor() < u128::from(limits.threshold)
        {
            if halt.past().is_some() {
                return false;
            }
            match self.attempt(store, incidence, limits, q) {
                Attempt::Rose => blocks = 0,
                Attempt::Banned => blocks += 1,
                Attempt::Closed => return true,
                Attempt::Spent => return false,
            }
            work = work.saturating_add(self.deriver.deletions().len() as u64);
        }
        true
    }

    /// Tries to lift; where a step is blocked, bans what it stands for.
    fn attempt(
        &mut self,
        store: &mut Store<'_>,
        incidence: &Incidence,
        limits: Limits,
        q: u64,
    ) -> Attempt
        requires ready { IsReady self.old.network store.old limits }
        requires incidence { incidence.now ≡ self.old.network }
        requires some { 0 < q }
        requires watch { IsWatched self.old.network (history store.old) self.old.watch q }
        ensures network { self.new.network ≡ self.old.network }
        ensures adds { Adds store.old store.new limits }
        ensures lifts { HasLifted self.old.network store.old store.new }
        ensures ready { IsReady self.old.network store.new limits }
        ensures watch { IsWatched self.old.network (history store.new) self.new.watch q }
        ensures rose { result ≡ Rose → floor self.old.network (history store.old) < floor self.old.network (history store.new) }
        ensures same { (result ≡ Rose → ⊥) → store.new ≡ store.old }
    {
        let start = store.block_len();
        match self.lift_once(store, incidence, limits, q) {
            Ok(Lifting::Lifted) => {
                self.deriver.note(store, incidence, start);
                Attempt::Rose
            }
            Ok(Lifting::Closed) => Attempt::Closed,
            Ok(Lifting::Blocked { step, .. }) => self.ban(step),
            Ok(Lifting::Spent) | Err(AllocError) => Attempt::Spent,
        }
    }

    /// Bans what a blocked step stands for: the unary cost of the value that an extend takes from, or the function of a project.
    /// Closed, where that is banned already, or for a lift.
    fn ban(&mut self, step: Step) -> Attempt
        requires { IsShift self.old.network step }
        ensures network { self.new.network ≡ self.old.network }
        ensures watch { self.new.watch ≡ self.old.watch }
        ensures banned { result ≡ Banned → BansMore self.old.network (bans_of self.old.bans) (bans_of self.new.bans) step }
        ensures closed { result ≡ Attempt.Closed → self.new ≡ self.old }
        ensures either { (result ≡ Banned) ⊎ (result ≡ Attempt.Closed) }
    {
        self.network.law_limits();
        match step {
            Step::Extend {
                function,
                place,
                value,
                ..
            } => {
                let x = self.network.scope(function)[place as usize];
                if self.bans.own(x, value) {
                    return Attempt::Closed;
                }
                self.bans.ban_own(x, value);
                Attempt::Banned
            }
            Step::Project {
                function,
                place,
                value,
                ..
            } => {
                if self.bans.by(function, place, value) {
                    return Attempt::Closed;
                }
                self.bans.ban_by(function, place, value);
                Attempt::Banned
            }
            _ => Attempt::Closed,
        }
    }
}

/// Derives, and goes back in the store.
fn derive(
    deriver: &mut Deriver<'_>,
    store: &mut Store<'_>,
    incidence: &Incidence,
    q: u64,
    bans: &Bans<'_>,
) -> Derived
    requires network { store.old.network ≡ deriver.old.network }
    requires incidence { incidence.now ≡ deriver.old.network }
    requires bans { bans.now.network ≡ deriver.old.network }
    requires some { 0 < q }
    requires room { value_count deriver.old.network ≤ store.old.spare }
    requires alive { AllAlive deriver.old.network (history store.old) }
    requires watch { IsWatched deriver.old.network (history store.old) deriver.old q }
    ensures derivation { IsDerivation deriver.old.network (history store.old) q (bans_of bans.now) deriver.new.deletions }
    ensures few { length deriver.new.deletions ≤ store.old.spare }
    ensures closed { result ≡ Closed → IsClosedFamily deriver.old.network (without deriver.new.deletions (history store.old)) q (bans_of bans.now) }
    ensures emptied { (x : ℕ) → result ≡ Emptied x → EmptiesLast deriver.old.network (without deriver.new.deletions (history store.old)) x }
    ensures deriver { deriver.new ≡ record deriver.old { deletions = deriver.new.deletions } }
    ensures same { store.new ≡ store.old }
{
    let mark = store.mark();
    let derived = deriver.derive(store, incidence, q, bans);
    store.undo(&mark);
    derived
}

/// How many plans one after another may be blocked at one amount: one for each eight variables, since where more of them are
/// blocked more may be left that is not.
fn most_blocks(network: &Network) -> u32
    ensures { result ≤ 1024 }
{
    MOST_BLOCKS.min(FEWEST_BLOCKS.max(network.variables() / 8))
}
