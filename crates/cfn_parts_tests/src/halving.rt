//! Two variables, and a task's leaf split over them.

ghost use Rattle.std.specs.Prelude.{◌≡◌, ◌≤◌, IsTrue, IfOk, IfSome, if◌then◌else◌, ◌==◌, Some, None};
ghost use Rattle.cfn_model.specs.Decisions.{variable_of, keeps};
ghost use Rattle.cfn_model.specs.Sums.{is_live, removes};

use cfn_explore::{Piece, Task};
use cfn_net::{Builder, Network};
use cfn_proof::{Decision, Event, Path, Step, Tree};
use std::alloc::{AllocError, Global};

/// Two variables with two values, which cost 1 where they agree, below 10.
pub(crate) fn pair(alloc: Global) -> Result<Network, AllocError> {
    let mut builder = Builder::make(alloc, b"pair", &[2, 2], 10)?;
    let agree = [([0, 0].as_slice(), 1), ([1, 1].as_slice(), 1)];
    builder.function(&[0, 1], 0, &agree)?;
    builder.finish()
}

/// Whether a value is on a decision's first side, if it is one of the variable's.
fn side(decision: Decision, x: u32, a: u32) -> Option<bool>
    ensures { result ≡ (if variable_of decision == x then Some (keeps decision a) else None) }
{
    match decision {
        Decision::Is { variable, value } if variable == x => Some(value == a),
        Decision::Most { variable, value } if variable == x => Some(a <= value),
        _ => None,
    }
}

/// Whether an event takes a value from a variable.
fn removes(event: Event, x: u32, a: u32) -> bool
    ensures { result ≡ removes event x a }
{
    match event {
        Event::Did(Step::CutValue { variable, value }) => variable == x && value == a,
        Event::Did(_) => false,
        Event::Took(decision) => side(decision, x, a) == Some(false),
        Event::Refused(decision) => side(decision, x, a) == Some(true),
    }
}

/// Whether a value is live at the end of a path.
fn is_live(path: &Path, x: u32, a: u32) -> bool
    ensures { IsTrue result → IsTrue (is_live path.now x a) }
{
    for event in path.events() {
        if removes(event, x, a) {
            return false;
        }
    }
    true
}

/// A task's leaf split at the value 0 of the first variable, where 0 and 1 are live, at the threshold of the upper bound.
pub(crate) fn halved(
    alloc: Global,
    network: &Network,
    task: Task,
) -> Result<Option<Piece>, AllocError>
    requires { task.network ≡ network.now }
    ensures own { IfOk result (λ half. IfSome half (λ piece. piece.network ≡ network.now)) }
    ensures at { IfOk result (λ half. IfSome half (λ piece. network.now.upper ≤ piece.threshold)) }
{
    network.law_limits();
    task.law_kept();
    if network.size(0) < 2 || !is_live(task.path(), 0, 0) || !is_live(task.path(), 0, 1) {
        return Ok(None);
    }
    let mut tree = Tree::new(alloc)?;
    let decision = Decision::Is {
        variable: 0,
        value: 0,
    };
    tree.split(Tree::ROOT, decision)?;
    Ok(Some(Piece::of(task, tree, network.ub())))
}
