//! What a diver is made of.

ghost use Rattle.std.specs.Prelude.{◌≡◌, length, None, IfOk, IsOkAnd};
ghost use Rattle.cfn_dive.specs.Diving.{IsOf};

use crate::limit::step_limit;
use cfn_branch::{Rule, Weights};
use cfn_edac::Enforcer;
use cfn_incidence::Incidence;
use cfn_model::Decision;
use cfn_net::{Network, Scored, Tables};
use cfn_proof::NodeId;
use cfn_store::{Mark, Store};
use cfn_trim::Trimmer;
use std::alloc::{AllocError, Global};

/// An open leaf that waits: the second child of a split that the store's path goes through.
#[derive(Drop)]
pub struct Waiting<'n> {
    pub leaf: NodeId,
    /// Where the store stood at the split.
    pub mark: Mark<'n>,
    pub decision: Decision,
    /// The floor there.
    pub floor: u128,
    /// Whether the store was fully consistent there.
    pub settled: bool,
}

/// The store of a worker, what it works with there, and buffers.
#[derive(Drop)]
pub struct Parts<'n> {
    pub store: Store<'n>,
    pub enforcer: Enforcer<'n>,
    /// By which rule splits are named.
    pub rule: Rule,
    /// How often each function was to blame, and where each variable stands: what the brancher goes by.
    pub weights: Weights,
    pub incidence: Incidence,
    pub trimmer: Trimmer<'n>,
    /// By how many steps enforcing may go at a node.
    pub steps: usize,
    /// Room for one assignment, and for one with its cost.
    pub values: Vec<u32>,
    pub offer: Scored,
    /// The leaves that wait in a dive, the newest last.
    pub waiting: Vec<Waiting<'n>>,
}

impl<'n> Parts<'n> {
    /// The parts for a network and its tables, with the store at its root. An `Err` is want of memory.
    pub fn make(
        alloc: Global,
        network: &'n Network,
        tables: &'n Tables,
        rule: Rule,
    ) -> Result<Parts<'n>, AllocError>
        requires { tables.now ≡ network.now }
        ensures of { IfOk result (IsOf network.now) }
        ensures rule { IfOk result (λ made. made.rule ≡ rule) }
    {
        let made = both(
            Store::over(alloc, network, tables)?,
            helpers(alloc, network),
        )?;
        let made = both(made, branching(alloc, network))?;
        let made = both(made, buffers(alloc, network))?;
        let (((store, (enforcer, trimmer)), (weights, incidence)), (values, offer)) = made;
        Ok(Parts {
            store,
            enforcer,
            rule,
            weights,
            incidence,
            trimmer,
            steps: step_limit(network),
            values,
            offer,
            waiting: Vec::new(alloc),
        })
    }
}

/// Two values, where the second was made too. An `Err` is want of memory.
fn both<A: Drop, B: Drop>(one: A, other: Result<B, AllocError>) -> Result<(A, B), AllocError>
    ensures one { IfOk result (λ made. made.0 ≡ one) }
    ensures other { IfOk result (λ made. IsOkAnd other (λ given. made.1 ≡ given)) }
{
    Ok((one, other?))
}

/// What enforces and what trims, for a network. An `Err` is want of memory.
fn helpers(alloc: Global, network: &Network) -> Result<(Enforcer<'_>, Trimmer<'_>), AllocError>
    ensures enforcer { IfOk result (λ made. made.0 ≡ network.now) }
    ensures trimmer { IfOk result (λ made. made.1 ≡ network.now) }
{
    both(
        Enforcer::make(alloc, network)?,
        Trimmer::make(alloc, network),
    )
}

/// What the brancher goes by, for a network. An `Err` is want of memory.
fn branching(alloc: Global, network: &Network) -> Result<(Weights, Incidence), AllocError>
    ensures weights { IfOk result (λ made. length made.0 ≡ length network.now.functions) }
    ensures incidence { IfOk result (λ made. made.1 ≡ network.now) }
{
    both(
        Weights::make(alloc, network)?,
        Incidence::build(alloc, network),
    )
}

/// Room for an assignment, and for one with its cost. An `Err` is want of memory.
fn buffers(alloc: Global, network: &Network) -> Result<(Vec<u32>, Scored), AllocError>
    ensures values { IfOk result (λ made. length made.0.items ≡ length network.now.sizes) }
    ensures offer { IfOk result (λ made. made.1 ≡ record { network = network.now; held = None }) }
{
    both(
        vec![in alloc; 0; network.variables() as usize]?,
        Scored::empty(alloc, network),
    )
}
