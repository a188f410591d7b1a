//! The machine that runs.

ghost use Rattle.std.specs.Prelude.{◌≡◌, ◌≤◌, [], length, map, take, vec_capacity, All, IfOk, OnOk, OnErr};
ghost use Rattle.std.specs.List.{AllByRecursion};
ghost use Rattle.cfn_model.specs.declared.limits.TheConstants.{GREATEST};
ghost use Rattle.cfn_core.specs.World.{opening};
ghost use Rattle.cfn_core.specs.Actions.{Acts, Runs, TakesMemory, TakesMemoryAt};
ghost use Rattle.cfn_core.specs.Laws.{Always, AreKept, AreOut, IsKept, IsNoRecall};
ghost use Rattle.cfn_core.specs.Machine.{IsOf, IsReplyOf, action_of, reply_of, world_of};

use crate::action::{Action, Reply};
use crate::hands::Hand;
use crate::seat::{Seat, new_seats};
use cfn_leaves::Leaves;
use cfn_net::{Network, Scored};
use cfn_proof::Tree;
use std::alloc::{AllocError, Global};
use std::marker::Model;

/// The pool with its tree, the word, a view of it for each worker, notes of what was seen, and the tasks in hand.
///
/// Contracts see the world of the definitions, for the network that it is of. In every world the pool is sound, the word
/// keeps its rule, and the task of each leaf that is out is in hand. There are numbers for 4,294,967,296 leaves and as many
/// nodes: a giving that needs one more, or a floor of 2^128 or more, wants memory.
#[derive(Drop)]
pub struct World<'n> {
    pub(crate) network: &'n Network,
    pub(crate) leaves: Leaves,
    /// The pool's own view of the word.
    pub(crate) best: Scored,
    pub(crate) seen: u64,
    pub(crate) shares: u32,
    pub(crate) word: u64,
    /// The views of the workers, the main thread's last.
    pub(crate) seats: Vec<Seat>,
    /// What each note has seen, where it is not heeded yet.
    pub(crate) notes: Vec<Option<u64>>,
    /// The tasks in hand, the newest last.
    pub(crate) hands: Vec<Hand>,
}

impl<'n> Model for World<'n> {
    ghost use Rattle.std.specs.Prelude.{map, reverse};
    ghost use Rattle.cfn_core.specs.Machine.{Machine, IsInside, found_of, seat_of};

    ghost Value = { Machine };

    ghost view = { λ w. record {
      network = w.network.now;
      leaves = w.leaves;
      view = record { best = found_of w.best.held; seen = w.seen; shares = w.shares };
      word = w.word;
      views = map seat_of w.seats.items;
      notes = w.notes.items;
      hands = reverse w.hands.items;
    } };

    ghost invariant = { λ w. IsInside (record {
      network = w.network.now;
      leaves = w.leaves;
      view = record { best = found_of w.best.held; seen = w.seen; shares = w.shares };
      word = w.word;
      views = map seat_of w.seats.items;
      notes = w.notes.items;
      hands = reverse w.hands.items;
    }) w.best w.seats.items };
}

impl<'n> World<'n> {
    /// The opening for the workers from 0 to `workers` - 1, of which there are 1 to 64, and the main thread as one more:
    /// one free leaf, and nothing found. The budget of nodes is at most 9,223,372,036,854,775,807. An `Err` is want of
    /// memory.
    pub fn start(
        alloc: Global,
        network: &'n Network,
        workers: u32,
        budget: u64,
    ) -> Result<World<'n>, AllocError>
        requires some { 1 ≤ workers }
        requires few { workers ≤ 64 }
        requires budget { budget ≤ GREATEST }
        ensures network { IfOk result (λ world. world.network ≡ network.now) }
        ensures world { IfOk result (λ world. world_of world ≡ opening network.now workers budget) }
        ensures out { IfOk result (λ world. AreOut (world_of world)) }
    {
        network.law_limits();
        let tree = Tree::new(alloc)?;
        let leaves = Leaves::start(alloc, network, tree, None, network.ub(), budget)?;
        Ok(World {
            network,
            leaves,
            best: Scored::empty(alloc, network)?,
            seen: network.ub(),
            shares: 127 - workers,
            word: network.ub(),
            seats: new_seats(alloc, network, workers + 1)?,
            notes: Vec::new(alloc),
            hands: Vec::new(alloc),
        })
    }

    /// Nothing: its contract tells a caller what holds in every world. The pool is sound, every assignment is covered, the
    /// word keeps its rule, the tree is valid at the word, and the task of each leaf that is out is in hand.
    pub fn law_kept(&self)
        ensures { Always self.now.network (world_of self.now) }
    {
        let _ = &self.word;
    }

    /// Does one action, and answers it. What the action brings is of the world's network. An `Err`, want of memory, comes
    /// only where the action is a note, a taking or a giving, and leaves the world as it was.
    pub fn step(&mut self, action: &Action) -> Result<Reply, AllocError>
        requires { IsOf self.old.network action.now }
        ensures network { self.new.network ≡ self.old.network }
        ensures acts { IfOk result (λ reply. Acts self.old.network (world_of self.old) (action_of action.now) (reply_of reply) (world_of self.new)) }
        ensures of { IfOk result (IsReplyOf self.old.network) }
        ensures err { OnErr result (self.new ≡ self.old) }
        ensures memory { OnErr result (TakesMemory (action_of action.now)) }
        ensures always { Always self.new.network (world_of self.new) }
        ensures never_gone { IfOk result (λ reply. AreOut (world_of self.old) → IsKept (world_of self.old) (action_of action.now) (reply_of reply)) }
        ensures stays_out { OnOk result (AreOut (world_of self.old) → IsNoRecall (action_of action.now) → AreOut (world_of self.new)) }
    {
        let reply = self.act(action);
        self.law_kept();
        reply
    }

    /// Does actions one after another, and puts the answer of each into `replies`, which is empty and has room for them. What they
    /// bring is of the world's network. An `Err` is want of memory: as many are done as there are answers, and the next is one that
    /// takes memory.
    pub fn run(&mut self, actions: &[Action], replies: &mut Vec<Reply>) -> Result<(), AllocError>
        requires of { All (IsOf self.old.network) actions.now }
        requires none { replies.old.items ≡ [] }
        requires room { length actions.now ≤ vec_capacity replies.old }
        ensures network { self.new.network ≡ self.old.network }
        ensures runs { Runs self.old.network (world_of self.old) (map action_of (take (length replies.new.items) actions.now)) (map reply_of replies.new.items) (world_of self.new) }
        ensures of { AllByRecursion (IsReplyOf self.old.network) replies.new.items }
        ensures all { OnOk result (length replies.new.items ≡ length actions.now) }
        ensures memory { OnErr result (TakesMemoryAt (map action_of actions.now) (length replies.new.items)) }
        ensures always { Always self.new.network (world_of self.new) }
        ensures never_gone { OnOk result (AreOut (world_of self.old) → AllByRecursion IsNoRecall (map action_of actions.now)
            → AreKept self.old.network (world_of self.old) (map action_of actions.now) (map reply_of replies.new.items)) }
        ensures stays_out { OnOk result (AreOut (world_of self.old) → AllByRecursion IsNoRecall (map action_of actions.now) → AreOut (world_of self.new)) }
    {
        self.law_kept();
        for action in actions {
            let reply = self.step(action)?;
            replies.push_reserved(reply);
        }
        Ok(())
    }

    /// Does one action, each by the call that is its own.
    fn act(&mut self, action: &Action) -> Result<Reply, AllocError>
        requires { IsOf self.old.network action.now }
        ensures network { self.new.network ≡ self.old.network }
        ensures acts { IfOk result (λ reply. Acts self.old.network (world_of self.old) (action_of action.now) (reply_of reply) (world_of self.new)) }
        ensures of { IfOk result (IsReplyOf self.old.network) }
        ensures err { OnErr result (self.new ≡ self.old) }
        ensures memory { OnErr result (TakesMemory (action_of action.now)) }
    {
        match action {
            Action::Look { worker } => Ok(self.look(*worker)),
            Action::Lower { worker, found } => Ok(self.lower(*worker, found)),
            Action::Note { worker } => self.note(*worker),
            Action::Meet { worker } => Ok(self.meet(*worker)),
            Action::Take { worker, want } => self.take(*worker, *want),
            Action::Give { piece, note } => self.give(piece, *note),
            Action::Back { task } => Ok(self.back(task)),
            Action::Recall => Ok(self.call_back()),
            Action::Sweep => Ok(self.close_free()),
        }
    }
}
