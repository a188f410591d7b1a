//! Searches by explorers that want memory at one of their calls.

ghost use Rattle.std.specs.Prelude.{◌≡◌};

use crate::networks::tri;
use cfn_dive::{Diver, Divers};
use cfn_explore::{Explore, Explored, Explorers, Halt, Never, Problem, Task};
use cfn_low::{Holder, Incumbent, Low, Stop};
use cfn_net::{Network, Tables};
use cfn_search::{OpenGate, solve_together};
use std::alloc::{AllocError, AllocGlobal, Global};
use std::sync::Wait;
use std::test::*;
use std::thread::Threads;

/// A diver that wants memory once it has made so many dives.
#[derive(Drop)]
struct Failing<'n> {
    diver: Diver<'n>,
    left: u64,
}

impl<'n> Explore for Failing<'n> {
    ghost use Rattle.cfn_dive.specs.Growing.{AreEnforced};

    ghost made_of = { λ f. f.diver };

    ghost keeps = { AreEnforced };

    fn explore<M: Incumbent, H: Halt>(
        &mut self,
        alloc: Global,
        network: &Network,
        task: Task,
        low: &Low<M>,
        holder: &mut Holder<M>,
        backtracks: u64,
        halt: &H,
    ) -> Explored {
        if self.left == 0 {
            return Explored::Memory { task };
        }
        self.left -= 1;
        self.diver
            .dive(alloc, network, task, low, holder, backtracks, halt)
    }
}

/// Makes such divers, each with so many dives.
#[derive(Drop)]
struct FailingDivers<'n> {
    divers: Divers<'n>,
    dives: u64,
}

impl<'n> Explorers for FailingDivers<'n> {
    type Explorer = Failing<'n>;

    ghost network = { λ f. f.divers };

    fn make(&self, alloc: Global) -> Result<Failing<'n>, AllocError> {
        let diver = self.divers.make(alloc)?;
        Ok(Failing {
            diver,
            left: self.dives,
        })
    }
}

/// Why a search of `tri` by two workers stops, its lower bound, and the cost of its best assignment, where each worker wants
/// memory after so many dives.
fn told_after<R: AllocGlobal + Threads + Wait + Sync>(
    rt: &R,
    dives: u64,
) -> Result<(Stop, u64, Option<u64>), AllocError> {
    let network = tri(rt.alloc())?;
    let told = told_of(rt, &network, dives);
    drop(network);
    told
}

/// The same of a network.
fn told_of<R: AllocGlobal + Threads + Wait + Sync>(
    rt: &R,
    network: &Network,
    dives: u64,
) -> Result<(Stop, u64, Option<u64>), AllocError> {
    let tables = Tables::expand(rt.alloc(), network)?;
    let told = told_over(rt, network, &tables, dives);
    drop(tables);
    told
}

/// The same over its tables.
fn told_over<R: AllocGlobal + Threads + Wait + Sync>(
    rt: &R,
    network: &Network,
    tables: &Tables,
    dives: u64,
) -> Result<(Stop, u64, Option<u64>), AllocError>
    requires { tables.now ≡ network.now }
{
    let divers = FailingDivers {
        divers: Divers::over(network, tables),
        dives,
    };
    let problem = Problem::of(network, &divers);
    let outcome = solve_together(rt, rt.alloc(), &problem, 2, 1_000, &OpenGate, &Never)?.outcome;
    let best = outcome.certificate.best.as_ref().map(|best| best.price());
    Ok((outcome.stop, outcome.certificate.lower, best))
}

#[test]
fn leaves_stay_open_at_want_of_memory(rt: HostRuntime) -> Result<(), Fail> {
    assert!(rt; told_after(&rt, 0)? == (Stop::Memory, 0, None));
    assert!(rt; told_after(&rt, 1)? == (Stop::Memory, 0, Some(1)));
    Ok(())
}
