//! What a worker has made of a task takes the place of the task's leaf.

ghost use Rattle.std.specs.Prelude.{◌≡◌, ◌↔◌, ◌<◌, ◌≤◌, length, IfErr, IsTrue, OnOk, OnErr};
ghost use Rattle.cfn_model.specs.Tree.{count};
ghost use Rattle.cfn_proof.specs.Nodes.{graft_at, tree_of, IsFree, IsLinked};
ghost use Rattle.cfn_leaves.specs.Given.{Gives};
ghost use Rattle.cfn_leaves.specs.Out.{IsTaskOut, Puts};

use crate::climb::is_at;
use crate::leaves::Leaves;
use crate::placed::Placed;
use crate::placing::{place, reserve};
use crate::taking::clear;
use crate::walk::open_spots;
use cfn_explore::{Piece, Task};
use cfn_proof::laws::law_same_before;
use cfn_proof::{NodeId, Tree};

/// The answer to a piece that is given.
#[derive(Drop)]
pub enum Handed {
    /// It has taken the place of its leaf.
    Done,
    /// Its leaf is not out to its task's worker with the task's grant, or has another path.
    Gone { piece: Piece },
    /// There is no memory for it, or no number for a node, a leaf or a floor.
    Memory { piece: Piece },
}

impl Leaves {
    /// Puts a piece in the place of its task's leaf, behind the leaf's own block: its open leaves are free, with the next
    /// numbers in the order of the piece's text, its nodes are counted, and the leaf's grant ends. Where it can't, the piece
    /// is given back, and nothing changes.
    pub fn give(&mut self, piece: Piece) -> Handed
        requires own { piece.network ≡ self.old.network }
        ensures network { self.new.network ≡ self.old.network }
        ensures gives { Gives self.old piece result self.new }
    {
        piece.law_kept();
        if !self.is_out_as(piece.task()) {
            return Handed::Gone { piece };
        }
        let threshold = piece.threshold();
        let (task, tree) = piece.into_parts();
        let worker = u64::from(task.worker());
        match self.put(task.leaf(), worker, task.grant(), tree) {
            Placed::Done => Handed::Done,
            Placed::Gone { tree } => Handed::Gone {
                piece: Piece::of(task, tree, threshold),
            },
            Placed::Memory { tree } => Handed::Memory {
                piece: Piece::of(task, tree, threshold),
            },
        }
    }

    /// Whether a task's leaf is out to the task's worker with the task's grant, and has the task's path. It takes no memory.
    fn is_out_as(&self, task: &Task) -> bool
        ensures { IsTrue result ↔ IsTaskOut self.now task.now.task }
    {
        law_same_before();
        let worker = u64::from(task.worker());
        match self.out_entry(task.leaf(), worker, task.grant()) {
            Some(entry) => is_at(&self.tree, entry.node, task.path()),
            None => false,
        }
    }

    /// Puts a tree with at most so many splits and closed leaves in the place of a leaf that is out to a worker with such a
    /// grant, behind the leaf's own block: its open leaves are free, with the next numbers in the order of the tree's text,
    /// its nodes are counted, and the grant ends. Where it can't, the tree is given back, and nothing changes.
    pub fn put(&mut self, leaf: u64, worker: u64, grant: u64, tree: Tree) -> Placed
        requires few { count (tree_of tree) ≤ grant }
        ensures network { self.new.network ≡ self.old.network }
        ensures puts { Puts self.old leaf worker grant tree result self.new }
    {
        law_same_before();
        tree.law_linked();
        let Some(entry) = self.out_entry(leaf, worker, grant) else {
            return Placed::Gone { tree };
        };
        let Ok(walk) = open_spots(*self.table.allocator(), &tree, entry.floor) else {
            return Placed::Memory { tree };
        };
        let more = walk.spots.len();
        let opened = self.opened as usize;
        let Ok(()) = reserve(&mut self.table, &mut self.list, opened, more) else {
            return Placed::Memory { tree };
        };
        let nodes = self.tree.len();
        if let Err(tree) = graft(&mut self.tree, entry.node, tree) {
            return Placed::Memory { tree };
        }
        clear(&mut self.table, leaf as usize);
        place(
            &mut self.table,
            &mut self.list,
            &walk.spots,
            entry.node,
            nodes,
        );
        self.opened = self.opened + more as u64 - 1;
        self.granted -= grant;
        self.nodes += walk.made;
        Placed::Done
    }
}

/// Puts a piece into a leaf. An `Err`, want of memory or of numbers, gives back the piece, and leaves the tree as it was.
fn graft(tree: &mut Tree, leaf: NodeId, piece: Tree) -> Result<(), Tree>
    requires there { leaf.number < length tree.old }
    requires free { IsFree tree.old leaf.number }
    ensures ok { OnOk result (tree.new ≡ graft_at tree.old leaf.number piece) }
    ensures linked { IsLinked tree.new }
    ensures err { OnErr result (tree.new ≡ tree.old) }
    ensures back { IfErr result (λ given. given ≡ piece) }
{
    let grafted = tree.graft(leaf, piece);
    tree.law_linked();
    grafted
}
