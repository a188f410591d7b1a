//! The lines behind the events.

ghost use Rattle.std.specs.Prelude.{◌≡◌, IfErr, IfOk};
ghost use Rattle.cfn_replay.specs.Replayed.{IsReplayed};
ghost use Rattle.cfn_replay.specs.Standing.{IsAtBest, IsStop};

use crate::answer::{Stop, refused};
use crate::best::values;
use crate::judging::judged;
use crate::kinds::is_end;
use crate::lines::Lines;
use cfn_leaves::Leaves;
use cfn_net::Network;
use cfn_record::RecordFault;
use std::alloc::Global;

/// Reads the lines behind the cost of the best assignment, and answers the text of the certificate that the record
/// comes to.
pub(crate) fn closing(
    alloc: Global,
    network: &Network,
    lines: &mut Lines<'_>,
    leaves: Leaves,
    best: Option<u64>,
) -> Result<Vec<u8>, Stop>
    requires { IsAtBest network.now lines.old leaves best }
    ensures good { IfOk result (λ bytes. IsReplayed network.now lines.old.text bytes.items) }
    ensures stop { IfErr result (IsStop network.now lines.old.text) }
{
    let told = values(alloc, network, lines, best)?;
    let line = lines.due();
    let said = lines.next();
    if !is_end(&said) {
        return Err(refused(RecordFault::Text, line));
    }
    let Some(bytes) = judged(alloc, network, leaves, told)? else {
        return Err(refused(RecordFault::Certificate, line));
    };
    if !lines.is_over() {
        return Err(refused(RecordFault::Text, lines.due()));
    }
    Ok(bytes)
}
