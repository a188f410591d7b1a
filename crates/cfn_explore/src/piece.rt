//! What a worker made of a task.

ghost use Rattle.std.specs.Prelude.{◌≡◌, ◌≤◌};
ghost use Rattle.cfn_model.specs.declared.limits.TheConstants.{GREATEST};
ghost use Rattle.cfn_model.specs.Paths.{Tame};
ghost use Rattle.cfn_model.specs.Tree.{Valid, Strict, count};
ghost use Rattle.cfn_proof.specs.Nodes.{tree_of};
ghost use Rattle.cfn_machine.specs.Pool.{IsPiece};
ghost use Rattle.cfn_explore.specs.Values.{piece_of};

use crate::task::Task;
use cfn_proof::Tree;
use std::marker::Model;

/// A task, the tree that its worker made below its leaf, and the threshold that the tree was made at.
///
/// The tree goes on from the leaf: it is valid there at the threshold, strict, and has small costs all along. It has 1
/// to `grant` splits and closed leaves.
#[derive(Drop)]
pub struct Piece {
    task: Task,
    tree: Tree,
    threshold: u64,
}

impl Model for Piece {
    ghost use Rattle.std.specs.Prelude.{◌≤◌};
    ghost use Rattle.cfn_machine.specs.Pool.{IsPiece};
    ghost use Rattle.cfn_explore.specs.Values.{PieceValue, IsPieceValue};

    ghost Value = { PieceValue };

    ghost view = { λ p. record { network = p.task.network; task = p.task.task; nodes = p.tree; threshold = p.threshold } };

    ghost invariant = { λ p. IsPieceValue (record { network = p.task.network; task = p.task.task; nodes = p.tree; threshold = p.threshold }) };
}

impl Piece {
    /// The piece of a task. The threshold is at most 9,223,372,036,854,775,807. It takes no memory.
    pub fn of(task: Task, tree: Tree, threshold: u64) -> Piece
        requires valid { Valid task.network task.task.path (tree_of tree) threshold }
        requires strict { Strict task.network task.task.path (tree_of tree) }
        requires tame { Tame task.network task.task.path (tree_of tree) }
        requires some { 1 ≤ count (tree_of tree) }
        requires few { count (tree_of tree) ≤ task.task.grant }
        requires threshold { threshold ≤ GREATEST }
        ensures { result ≡ record { network = task.network; task = task.task; nodes = tree; threshold = threshold } }
    {
        Piece {
            task,
            tree,
            threshold,
        }
    }

    /// Nothing: its contract tells a caller what a piece keeps.
    pub fn law_kept(&self)
        ensures piece { IsPiece self.now.network (piece_of self.now) }
        ensures threshold { self.now.threshold ≤ GREATEST }
    {
        let _ = &self.threshold;
    }

    /// The task that the piece is of.
    pub fn task(&self) -> &Task
        ensures network { result.now.network ≡ self.now.network }
        ensures task { result.now.task ≡ self.now.task }
    {
        &self.task
    }

    /// The tree below the leaf.
    pub fn tree(&self) -> &Tree
        ensures { result.now ≡ self.now.nodes }
    {
        &self.tree
    }

    /// The threshold that the tree was made at, at most 9,223,372,036,854,775,807.
    pub fn threshold(&self) -> u64
        ensures { result ≡ self.now.threshold }
    {
        self.threshold
    }

    /// The task again, without the tree. It takes no memory.
    pub fn into_task(self) -> Task
        ensures network { result.network ≡ self.network }
        ensures task { result.task ≡ self.task }
    {
        let (task, _) = self.into_parts();
        task
    }

    /// The task and the tree below its leaf. It takes no memory.
    pub fn into_parts(self) -> (Task, Tree)
        ensures network { result.0.network ≡ self.network }
        ensures task { result.0.task ≡ self.task }
        ensures tree { result.1 ≡ self.nodes }
    {
        let Piece {
            task,
            tree,
            threshold: _,
        } = self;
        (task, tree)
    }
}
