//! A record is run again, from its text.

ghost use Rattle.std.specs.Prelude.{IfErr, IfOk};
ghost use Rattle.cfn_replay.specs.Answers.{IsAnswer};
ghost use Rattle.cfn_replay.specs.Replayed.{IsReplayed};
ghost use Rattle.cfn_replay.specs.Standing.{IsStop};

use crate::answer::{Replay, Stop};
use crate::closing::closing;
use crate::lines::Lines;
use crate::opening::opening;
use crate::sequence::events;
use cfn_leaves::Leaves;
use cfn_net::Network;
use cfn_proof::Tree;
use std::alloc::Global;

/// Runs a record of a network again, from its text. It answers the text of the certificate that a good record comes to, or the first
/// line that fails.
pub fn replay(alloc: Global, network: &Network, text: &[u8]) -> Replay
    ensures { IsAnswer network.now text.now result }
{
    match replayed(alloc, network, text) {
        Ok(bytes) => Replay::Certificate(bytes),
        Err(Stop::Refused { kind, line }) => Replay::Refused { kind, line },
        Err(Stop::Memory) => Replay::Memory,
    }
}

/// Goes over the lines of a text, one after another.
fn replayed(alloc: Global, network: &Network, text: &[u8]) -> Result<Vec<u8>, Stop>
    ensures good { IfOk result (λ bytes. IsReplayed network.now text.now bytes.items) }
    ensures stop { IfErr result (IsStop network.now text.now) }
{
    let mut lines = Lines::of(text);
    let budget = opening(network, &mut lines)?;
    let tree = Tree::new(alloc)?;
    let mut leaves = Leaves::start(alloc, network, tree, None, network.ub(), budget)?;
    let best = events(alloc, network, &mut lines, &mut leaves)?;
    closing(alloc, network, &mut lines, leaves, best)
}
