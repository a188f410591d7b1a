//! The weights of functions (Boussemart, Hemery, Lecoutre and Sais, Boosting systematic search by weighting constraints,
//! 2004): how often each function was to blame that a node had no solution.

ghost use Rattle.std.specs.Prelude.{◌≡◌, ◌<◌, ℕ, length, replicate, slice_index, IfOk, MatchOption};
ghost use Rattle.cfn_branch.specs.Weighing.{IsWeight, Projects, NoneProjects, IsNewestProject, Blames, blamed};

use cfn_model::Step;
use cfn_net::Network;
use cfn_store::Store;
use std::alloc::{AllocError, Global};
use std::marker::Model;

/// The greatest weight: 2^32.
pub const MOST_WEIGHT: u64 = 4_294_967_296;

/// A weight for each function of a network, from 1 to `MOST_WEIGHT`. Contracts see the list of weights.
#[derive(Drop)]
pub struct Weights {
    weights: Vec<u64>,
}

impl Model for Weights {
    ghost use Rattle.std.specs.Prelude.{ℕ, List};
    ghost use Rattle.cfn_branch.specs.Weighing.{AreWeights};

    ghost Value = { List ℕ };

    ghost view = { λ s. s.weights.items };

    ghost invariant = { λ s. AreWeights s.weights.items };
}

impl Weights {
    /// The weights of a network's functions at first, 1 each. An `Err` is want of memory; no other call takes memory.
    pub fn make(alloc: Global, network: &Network) -> Result<Weights, AllocError>
        ensures { IfOk result (λ weights. weights ≡ replicate (length network.now.functions) 1) }
    {
        Ok(Weights {
            weights: vec![in alloc; 1; network.functions() as usize]?,
        })
    }

    /// Raises the weight of `f` by one, to at most `MOST_WEIGHT`.
    pub fn blame(&mut self, f: u32)
        ensures { self.new ≡ blamed self.old f }
    {
        if let Some(weight) = self.weights.get_mut(f as usize) {
            *weight = (*weight + 1).min(MOST_WEIGHT);
        }
    }

    /// Blames the function of the newest project among a store's steps since its newest decision or replay; where none of them
    /// projects, no function.
    pub fn blame_newest(&mut self, store: &Store<'_>)
        ensures blames { Blames store.now.block self.old self.new }
        ensures same { length self.new ≡ length self.old }
    {
        if let Some(f) = newest_project(store) {
            self.blame(f);
        }
    }

    /// The weight of `f`, from 1 to `MOST_WEIGHT`.
    pub fn of(&self, f: u32) -> u64
        requires { f < length self.now }
        ensures is { result ≡ slice_index self.now f }
        ensures weight { IsWeight result }
    {
        self.weights[f as usize]
    }
}

/// The function of the newest project among a store's steps since its newest decision or replay, where one projects.
fn newest_project(store: &Store<'_>) -> Option<u32>
    ensures { MatchOption result (NoneProjects store.now.block) (IsNewestProject store.now.block) }
{
    let mut i = store.block_len();
    while i > 0 {
        i -= 1;
        if let Some(f) = projects(store.step(i)) {
            return Some(f);
        }
    }
    None
}

/// The function that a step projects from, where it is a project.
fn projects(step: Step) -> Option<u32>
    ensures { MatchOption result ((f : ℕ) → Projects f step → ⊥) (λ f. Projects f step) }
{
    match step {
        Step::Project { function, .. } => Some(function),
        Step::Extend { .. } | Step::Lift { .. } => None,
        Step::CutValue { .. } | Step::CutTuple { .. } => None,
    }
}
