//! What a worker has for its dives, and what it makes of a task.

ghost use Rattle.std.specs.Prelude.{◌≡◌, ◌≤◌, IfOk};
ghost use Rattle.cfn_explore.specs.Falling.{HasFallen};
ghost use Rattle.cfn_explore.specs.Exploring.{IsExplored};
ghost use Rattle.cfn_dive.specs.Growing.{AreEnforced};
ghost use Rattle.cfn_dive.specs.Making.{IsMade};

use crate::growing::Grown;
use crate::parts::Parts;
use cfn_branch::Rule;
use cfn_explore::{Explore, Explored, Halt, Piece, Task};
use cfn_low::{Holder, Incumbent, Low};
use cfn_net::{Network, Tables};
use std::alloc::{AllocError, Global};
use std::marker::Model;

/// What a worker has for its dives: a store, what enforces and branches there, and buffers. Contracts see the network that it
/// is of.
#[derive(Drop)]
pub struct Diver<'n> {
    parts: Parts<'n>,
}

impl<'n> Model for Diver<'n> {
    ghost use Rattle.cfn_model.specs.Network.{Network as CostNetwork};
    ghost use Rattle.cfn_dive.specs.Diving.{IsOf};

    ghost Value = { CostNetwork };

    ghost view = { λ d. d.parts.store.network };

    ghost invariant = { λ d. IsOf d.parts.store.network d.parts };
}

impl<'n> Diver<'n> {
    /// For the tasks of a network, whose tables other divers may have too, and whose splits `rule` names. An `Err` is want of
    /// memory.
    pub fn make(
        alloc: Global,
        network: &'n Network,
        tables: &'n Tables,
        rule: Rule,
    ) -> Result<Diver<'n>, AllocError>
        requires { tables.now ≡ network.now }
        ensures { IfOk result (λ diver. diver ≡ network.now) }
    {
        let parts = Parts::make(alloc, network, tables, rule)?;
        Ok(Diver { parts })
    }

    /// Makes a piece of a task, depth first: the tree below its leaf, at the threshold that `holder` has seen at the end.
    ///
    /// The dive ends where no leaf is open, or the piece has as many nodes (splits and closed leaves) as the task grants, or
    /// `backtracks`, at least 1, were made, which `cut` tells; or `halt` is past, which is asked behind each node. At each leaf the
    /// word is read; behind the block of each split the
    /// network is fully consistent at its upper bound, or the block has all steps that it may have. What is found lowers the
    /// word, and `holder` keeps it. At want of memory the unfinished tree is dropped, and the task given back.
    pub fn dive<M: Incumbent, H: Halt>(
        &mut self,
        alloc: Global,
        network: &Network,
        task: Task,
        low: &Low<M>,
        holder: &mut Holder<M>,
        backtracks: u64,
        halt: &H,
    ) -> Explored
        requires network { network.now ≡ self.old }
        requires task { task.network ≡ self.old }
        requires word { M.network ≡ self.old }
        requires some { 1 ≤ backtracks }
        ensures falls { HasFallen M.network holder.old holder.new }
        ensures dives { IsExplored AreEnforced task backtracks (H.limited halt.now) holder.new.seen result }
        ensures same { self.new ≡ self.old }
    {
        let made = self
            .parts
            .grow(alloc, network, &task, low, holder, backtracks, halt);
        handed_back(task, made, holder.seen(), backtracks, halt)
    }
}

/// A diver explores by its dives: it keeps that each split is behind an enforced block.
impl<'n> Explore for Diver<'n> {
    ghost use Rattle.cfn_dive.specs.Growing.{AreEnforced};

    ghost made_of = { λ d. d };

    ghost keeps = { AreEnforced };

    fn explore<M: Incumbent, H: Halt>(
        &mut self,
        alloc: Global,
        network: &Network,
        task: Task,
        low: &Low<M>,
        holder: &mut Holder<M>,
        backtracks: u64,
        halt: &H,
    ) -> Explored {
        self.dive(alloc, network, task, low, holder, backtracks, halt)
    }
}

/// The piece of a task with a tree that was made, or the task itself where none was.
fn handed_back<H: Halt>(
    task: Task,
    made: Result<Grown, AllocError>,
    threshold: u64,
    backtracks: u64,
    halt: &H,
) -> Explored
    requires { IfOk made (λ made. IsMade task.network task.task backtracks (H.limited halt.now) threshold made.tree made.cut) }
    ensures { IsExplored AreEnforced task backtracks (H.limited halt.now) threshold result }
{
    match made {
        Ok(Grown { tree, cut }) => Explored::Piece {
            piece: Piece::of(task, tree, threshold),
            cut,
        },
        Err(AllocError) => Explored::Memory { task },
    }
}
