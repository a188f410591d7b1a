//! Copies of what an action brings: the action keeps its own.

ghost use Rattle.std.specs.Prelude.{◌≡◌, IfOk};

use cfn_explore::{Piece, Task};
use cfn_net::Network;
use std::alloc::{AllocError, Global};

/// The same piece, of the network that it is of. An `Err` is want of memory.
pub(crate) fn piece_copy(
    alloc: Global,
    network: &Network,
    piece: &Piece,
) -> Result<Piece, AllocError>
    requires { piece.now.network ≡ network.now }
    ensures { IfOk result (λ copy. copy ≡ piece.now) }
{
    piece.law_kept();
    let task = task_copy(alloc, network, piece.task())?;
    let tree = piece.tree().copy(alloc)?;
    Ok(Piece::of(task, tree, piece.threshold()))
}

/// The same task, of the network that it is of. An `Err` is want of memory.
fn task_copy(alloc: Global, network: &Network, task: &Task) -> Result<Task, AllocError>
    requires { task.now.network ≡ network.now }
    ensures { IfOk result (λ copy. copy ≡ task.now) }
{
    task.law_kept();
    let path = task.path().copy(alloc)?;
    Ok(Task::of(
        network,
        task.leaf(),
        task.worker(),
        task.grant(),
        task.floor(),
        path,
    ))
}
