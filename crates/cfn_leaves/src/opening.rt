//! The opening of a pool.

ghost use Rattle.std.specs.Prelude.{◌≡◌, ℕ, ◌<◌, ◌^◌, [], List, Option, IfOk, IfSome};
ghost use Rattle.cfn_model.specs.Tree.{count};
ghost use Rattle.cfn_proof.specs.Nodes.{tree_of};
ghost use Rattle.cfn_machine.specs.Pool.{opening_part, price};
ghost use Rattle.cfn_machine.specs.Parts.{IsPart, has_leaf};
ghost use Rattle.cfn_leaves.specs.Value.{pool_of};
ghost use Rattle.cfn_leaves.specs.Placed.{IsOpening};

use crate::leaves::{Leaves, ROWS};
use crate::placing::{place, reserve};
use crate::walk::open_spots;
use cfn_machine::Part;
use cfn_net::{Network, NetworkSnapshot};
use cfn_proof::Tree;
use cfn_proof::laws::law_same_before;
use cfn_queue::OpenList;
use std::alloc::{AllocError, Global};

impl Leaves {
    /// The leaves of a tree that a pool begins with, such as one open leaf: each open leaf is free, with numbers in the order
    /// of the tree's text, but those that a part of a search leaves to others, which are set aside; no node is made yet; and the
    /// first row of bounds is that of the threshold. An `Err` is want of memory, or of a number for a floor.
    pub fn start(
        alloc: Global,
        network: &Network,
        tree: Tree,
        part: Option<Part>,
        threshold: u64,
        budget: u64,
    ) -> Result<Leaves, AllocError>
        requires few { count (tree_of tree) < 2 ^ 64 }
        requires part { IfSome part IsPart }
        ensures network { IfOk result (λ leaves. leaves.network ≡ network.now) }
        ensures pool { IfOk result (λ leaves. (shares : ℕ) (best : Option (List ℕ)) → price network.now best ≡ threshold →
            pool_of leaves (record { best = best; seen = threshold; shares = shares }) ≡ opening_part (has_leaf part) network.now shares budget (tree_of tree) best) }
    {
        let mut leaves = Leaves::bare(alloc, network, tree, budget)?;
        leaves.deal(part)?;
        leaves.note(network, threshold);
        Ok(leaves)
    }

    /// The same without a row of bounds.
    fn bare(alloc: Global, network: &Network, tree: Tree, budget: u64) -> Result<Leaves, AllocError>
        requires { count (tree_of tree) < 2 ^ 64 }
        ensures { IfOk result (IsOpening network.now tree budget) }
    {
        law_same_before();
        tree.law_linked();
        let walk = open_spots(alloc, &tree, network.constants())?;
        let more = walk.spots.len();
        let mut table = Vec::new(alloc);
        let mut list = OpenList::make(alloc);
        reserve(&mut table, &mut list, 0, more)?;
        place(&mut table, &mut list, &walk.spots, Tree::ROOT, 1);
        Ok(Leaves {
            network: NetworkSnapshot::of(network),
            tree,
            table,
            list,
            opened: more as u64,
            granted: 0,
            budget,
            begun: walk.made,
            nodes: 0,
            rows: Vec::with_capacity(alloc, ROWS)?,
        })
    }
}
