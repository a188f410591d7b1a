//! Events, one after another.

ghost use Rattle.std.specs.Prelude.{◌≡◌, ◌+◌, ◌≤◌, ◌↔◌, length, IfErr, IfOk, IsTrue, OnOk};
ghost use Rattle.cfn_model.specs.Network.{Network as Net};
ghost use Rattle.cfn_record.specs.Lines.{Give as GiveLine};
ghost use Rattle.cfn_replay.specs.Position.{IsRead, Position};
ghost use Rattle.cfn_replay.specs.Said.{line_of_event};
ghost use Rattle.cfn_replay.specs.Standing.{IsStop, Stands};

use crate::answer::{Stop, refused};
use crate::entries::{back, give, is_out, recall, sweep, take};
use crate::lines::Lines;
use crate::piece::{PieceText, piece};
use crate::said::EventLine;
use cfn_leaves::Leaves;
use cfn_record::RecordFault;
use std::alloc::Global;

/// A give, as its line has it.
#[derive(Clone, Copy)]
pub(crate) struct Give {
    pub(crate) worker: u64,
    pub(crate) leaf: u64,
    pub(crate) grant: u64,
    pub(crate) threshold: u64,
    pub(crate) seen: u64,
}

/// Does what an event says, whose line was read last and has this number. The answer is what the pool has seen then.
pub(crate) fn event(
    alloc: Global,
    lines: &mut Lines<'_>,
    leaves: &mut Leaves,
    seen: u64,
    event: EventLine,
    line: u64,
) -> Result<u64, Stop>
    ensures text { lines.new.text ≡ lines.old.text }
    ensures less { OnOk result (length lines.new.rest ≤ length lines.old.rest) }
    ensures right { IfOk result (λ now. (P : Net) (old : Position) → Stands P old leaves.old seen
        → IsRead old lines.old (line_of_event event) → Stands P lines.new leaves.new now) }
    ensures stop { IfErr result (λ stop. (P : Net) (old : Position) → Stands P old leaves.old seen
        → IsRead old lines.old (line_of_event event) → line ≡ old.count + 1 → IsStop P old.text stop) }
{
    match event {
        EventLine::Take {
            worker,
            want,
            leaf,
            grant,
        } => {
            if !take(leaves, worker, want, leaf, grant) {
                return Err(refused(RecordFault::Take, line));
            }
            Ok(seen)
        }
        EventLine::Give {
            worker,
            leaf,
            grant,
            threshold,
            seen: saw,
        } => {
            let told = Give {
                worker,
                leaf,
                grant,
                threshold,
                seen: saw,
            };
            given(alloc, lines, leaves, seen, told, line)
        }
        EventLine::Back {
            worker,
            leaf,
            grant,
        } => {
            if !back(leaves, worker, leaf, grant) {
                return Err(refused(RecordFault::Back, line));
            }
            Ok(seen)
        }
        EventLine::Recall => {
            recall(leaves);
            Ok(seen)
        }
        EventLine::Sweep { seen: saw } => {
            if saw > seen {
                return Err(refused(RecordFault::Seen, line));
            }
            sweep(leaves, saw);
            Ok(saw)
        }
    }
}

/// Gives the piece whose first line is next. The answer is what the pool has seen then.
fn given(
    alloc: Global,
    lines: &mut Lines<'_>,
    leaves: &mut Leaves,
    seen: u64,
    told: Give,
    line: u64,
) -> Result<u64, Stop>
    ensures text { lines.new.text ≡ lines.old.text }
    ensures less { OnOk result (length lines.new.rest ≤ length lines.old.rest) }
    ensures right { IfOk result (λ now. (P : Net) (old : Position) → Stands P old leaves.old seen
        → IsRead old lines.old (GiveLine told.worker told.leaf told.grant told.threshold told.seen) → Stands P lines.new leaves.new now) }
    ensures stop { IfErr result (λ stop. (P : Net) (old : Position) → Stands P old leaves.old seen
        → IsRead old lines.old (GiveLine told.worker told.leaf told.grant told.threshold told.seen) → line ≡ old.count + 1 → IsStop P old.text stop) }
{
    if !is_out(leaves, told.worker, told.leaf, told.grant) {
        return Err(refused(RecordFault::Give, line));
    }
    let sees = could_see(told, seen);
    match piece(alloc, lines)? {
        PieceText::Broken { line: at } => {
            if !sees {
                return Err(refused(RecordFault::Seen, line));
            }
            Err(refused(RecordFault::Text, at))
        }
        PieceText::Whole { tree, made } => {
            if !keeps(made, told.grant) {
                return Err(refused(RecordFault::Give, line));
            }
            if !sees {
                return Err(refused(RecordFault::Seen, line));
            }
            give(leaves, told.worker, told.leaf, told.grant, tree)?;
            Ok(told.seen)
        }
    }
}

/// Whether what was seen at a give is at most its threshold and what was seen before.
fn could_see(told: Give, seen: u64) -> bool
    ensures { IsTrue result ↔ ((told.seen ≤ told.threshold) × (told.seen ≤ seen)) }
{
    told.seen <= told.threshold && told.seen <= seen
}

/// Whether so many splits and closed leaves are 1 to a grant.
fn keeps(made: u64, grant: u64) -> bool
    ensures { IsTrue result ↔ ((1 ≤ made) × (made ≤ grant)) }
{
    made != 0 && made <= grant
}
