//! The greatest unary cost of each variable's live values, where it is remembered.
//!
//! Where a variable has a live value that costs nothing, and none that costs as much as the floor lacks, it needs no look for
//! node consistency. Its peak tells so at once, until an event changes one of its costs or takes or gives back one of its
//! values (the "maximal costs" of node consistency in toulbar2).

ghost use Rattle.std.specs.Prelude.{◌≡◌, ◌<◌, length, slice_set};
ghost use Rattle.cfn_model.specs.Decisions.{variable_of};
ghost use Rattle.cfn_scan.specs.Exact.{InPlace};
ghost use Rattle.cfn_store.specs.Peaks.{AreForgotten, unknown};

use cfn_model::{Decision, Event, Step};
use cfn_net::Network;

/// A peak that is not known.
pub(crate) const UNKNOWN: u64 = u64::MAX;

/// Forgets the peak of the variable one of whose costs or values an event changes.
#[inline(always)]
pub(crate) fn forget_changed(peaks: &mut Vec<u64>, network: &Network, event: Event)
    requires size { length peaks.old.items ≡ length network.now.sizes }
    requires place { InPlace network.now event }
    ensures { AreForgotten network.now event peaks.old.items peaks.new.items }
{
    network.law_limits();
    match event {
        Event::Did(step) => match step {
            Step::Project {
                function,
                place,
                ..
            }
            | Step::Extend {
                function,
                place,
                ..
            } => forget(peaks, network.scope(function)[place as usize]),
            Step::Lift { variable, .. } | Step::CutValue { variable, .. } => {
                forget(peaks, variable)
            }
            Step::CutTuple { .. } => {}
        },
        Event::Took(decision) | Event::Refused(decision) => forget(peaks, variable(decision)),
    }
}

/// Forgets the peak of a variable.
#[inline(always)]
fn forget(peaks: &mut Vec<u64>, x: u32)
    requires { x < length peaks.old.items }
    ensures { peaks.new.items ≡ slice_set peaks.old.items x unknown }
{
    peaks[x as usize] = UNKNOWN;
}

/// The variable of a decision.
#[inline(always)]
fn variable(decision: Decision) -> u32
    ensures { result ≡ variable_of decision }
{
    match decision {
        Decision::Is { variable, .. } | Decision::Most { variable, .. } => variable,
    }
}
