//! What makes a piece of a task.

use crate::{Halt, Piece, Task};
use cfn_low::{Holder, Incumbent, Low};
use cfn_net::Network;
use std::alloc::Global;

/// What is made of a task: a piece, and whether all backtracks were made; or, at want of memory, nothing.
#[derive(Drop)]
pub enum Explored {
    Piece { piece: Piece, cut: bool },
    Memory { task: Task },
}

/// Makes pieces of the tasks of a network.
pub trait Explore: Sized + Drop {
    ghost use Rattle.std.specs.Prelude.{◌≡◌, ◌≤◌, List};
    ghost use Rattle.cfn_model.specs.declared.step.Event.{Event as PathEvent};
    ghost use Rattle.cfn_model.specs.Network.{Network as CostNetwork};
    ghost use Rattle.cfn_model.specs.Tree.{Tree as PathTree};
    ghost use Rattle.cfn_explore.specs.Falling.{HasFallen};
    ghost use Rattle.cfn_explore.specs.Exploring.{IsExplored};

    /// The network that it was made for.
    ghost made_of: { Self → CostNetwork };

    /// What it keeps of each tree that it makes, behind the path before it.
    ghost keeps: { CostNetwork → List PathEvent → PathTree → Type 0 };

    /// Makes a piece of a task: the tree below its leaf, at the threshold that `holder` has seen at the end.
    ///
    /// It ends where no leaf is open, or the piece has as many nodes (splits and closed leaves) as the task grants, or
    /// `backtracks`, at least 1, were made, which `cut` tells; or where `halt` is past, though not without a node. What is found lowers the word, and `holder` keeps it. At want of
    /// memory the unfinished tree is dropped, and the task given back.
    fn explore<M: Incumbent, H: Halt>(
        &mut self,
        alloc: Global,
        network: &Network,
        task: Task,
        low: &Low<M>,
        holder: &mut Holder<M>,
        backtracks: u64,
        halt: &H,
    ) -> Explored
        requires network { network.now ≡ made_of self.old }
        requires task { task.network ≡ made_of self.old }
        requires word { M.network ≡ made_of self.old }
        requires some { 1 ≤ backtracks }
        ensures falls { HasFallen M.network holder.old holder.new }
        ensures makes { IsExplored keeps task backtracks (H.limited halt.now) holder.new.seen result }
        ensures same { made_of self.new ≡ made_of self.old };
}
