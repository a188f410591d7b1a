//! All events of a record.

ghost use Rattle.std.specs.Prelude.{◌≡◌, IfErr, IfOk};
ghost use Rattle.cfn_replay.specs.Standing.{IsAtBest, IsStop, Stands};

use crate::answer::{Stop, refused};
use crate::events::event;
use crate::kinds::{best_in, event_in};
use crate::lines::Lines;
use cfn_leaves::Leaves;
use cfn_net::Network;
use cfn_record::RecordFault;
use std::alloc::Global;

/// Does one event after another, and reads the line behind them. The answer is the cost of the best assignment, which the pool has
/// seen last, or nothing where there is none.
pub(crate) fn events(
    alloc: Global,
    network: &Network,
    lines: &mut Lines<'_>,
    leaves: &mut Leaves,
) -> Result<Option<u64>, Stop>
    requires { Stands network.now lines.old leaves.old network.now.upper }
    ensures text { lines.new.text ≡ lines.old.text }
    ensures right { IfOk result (IsAtBest network.now lines.new leaves.new) }
    ensures stop { IfErr result (IsStop network.now lines.old.text) }
{
    let mut seen = network.ub();
    loop {
        let line = lines.due();
        let said = lines.next();
        if let Some(its) = event_in(&said) {
            seen = event(alloc, lines, leaves, seen, its, line)?;
            continue;
        }
        let Some(best) = best_in(&said) else {
            return Err(refused(RecordFault::Text, line));
        };
        if best.unwrap_or(network.ub()) != seen {
            return Err(refused(RecordFault::Seen, line));
        }
        return Ok(best);
    }
}
