//! The pool, how it begins and how it ends.

ghost use Rattle.std.specs.Prelude.{◌≡◌, ℕ, ◌<◌, ◌≤◌, ◌^◌, [], Some, None, IfOk, IfErr, IfSome, OnOk, OnErr};
ghost use Rattle.cfn_model.specs.declared.limits.TheConstants.{GREATEST};
ghost use Rattle.cfn_model.specs.Tree.{count};
ghost use Rattle.cfn_proof.specs.Nodes.{tree_of};
ghost use Rattle.cfn_machine.specs.Pool as machine;
ghost use Rattle.cfn_machine.specs.Pool.{IsKept, opening_part, opening_pool, price};
ghost use Rattle.cfn_machine.specs.Parts.{IsPart, has_leaf};
ghost use Rattle.cfn_pool.specs.Recorded.{IsRecordOf, record_of, told_by, told_in};
ghost use Rattle.cfn_pool.specs.Views.{pool, values_of, view_of};

use crate::recording::{Recording, SPARE};
use cfn_leaves::Leaves;
use cfn_low::{Holder, Incumbent};
use cfn_machine::Part;
use cfn_net::Network;
use cfn_proof::{Row, Tree};
use cfn_record::History;
use std::alloc::{AllocError, Global};
use std::marker::Model;

/// A search tree whose open leaves are free, or out to workers, with a part of the word of the incumbent.
///
/// Contracts see the pool's state. It is sound: the tree is valid, strict and has small costs at the threshold that the
/// part has seen, the nodes keep to the budget, and the rows of bounds hold. Where a record is kept, what it says was done makes such
/// a pool of the opening.
#[derive(Drop)]
pub struct Pool<M: Incumbent> {
    pub(crate) leaves: Leaves,
    pub(crate) holder: Holder<M>,
    pub(crate) recording: Recording,
    /// From how many nodes on it is looked for a row of bounds, once there are many.
    pub(crate) due: u64,
}

impl<M: Incumbent> Model for Pool<M> {
    ghost use Rattle.cfn_pool.specs.Recorded.{value_of};
    ghost use Rattle.cfn_pool.specs.Views.{Held, IsPooled};

    ghost Value = { Held };

    ghost view = { λ p. record { leaves = p.leaves; part = p.holder; recorded = value_of p.recording } };

    ghost invariant = { λ p. IsPooled M.network (record { leaves = p.leaves; part = p.holder; recorded = value_of p.recording }) p.recording };
}

/// What a pool leaves.
#[derive(Drop)]
pub struct Finished<M: Incumbent> {
    /// The search tree: leaves that were out are open.
    pub tree: Tree,
    /// The pool's part of the word.
    pub holder: Holder<M>,
    /// The rows of bounds that were noted, the first of them first.
    pub rows: Vec<Row>,
    /// How many nodes were made.
    pub nodes: u64,
    /// What was done to the pool, where a record was begun.
    pub history: Option<History>,
}

impl<M: Incumbent> Pool<M> {
    /// A pool with one open leaf, no node made of at most `budget`, and the first row of bounds, of a part of the word that
    /// keeps nothing and has seen the upper bound. An `Err`, want of memory, gives the part back.
    pub fn begin(
        alloc: Global,
        network: &Network,
        holder: Holder<M>,
        budget: u64,
    ) -> Result<Pool<M>, Holder<M>>
        requires own { network.now ≡ M.network }
        requires none { holder.held ≡ None }
        requires seen { holder.seen ≡ M.network.upper }
        ensures pool { IfOk result (λ held. pool held ≡ opening_pool M.network holder.shares budget) }
        ensures recorded { IfOk result (λ held. held.recorded ≡ None) }
        ensures back { IfErr result (λ given. given ≡ holder) }
    {
        network.law_limits();
        let Ok(tree) = Tree::new(alloc) else {
            return Err(holder);
        };
        Pool::begin_with(alloc, network, holder, budget, tree, None)
    }

    /// Begins a record of what is done to a pool from its usual opening on. An `Err` is want of memory, and changes nothing. The budget
    /// is at most 9,223,372,036,854,775,807.
    pub fn begin_record(&mut self, alloc: Global, network: &Network) -> Result<(), AllocError>
        requires own { network.now ≡ M.network }
        requires opening { (shares : ℕ) × (pool self.old ≡ opening_pool M.network shares (pool self.old).budget) }
        requires budget { (pool self.old).budget ≤ GREATEST }
        ensures pool { pool self.new ≡ pool self.old }
        ensures ok { OnOk result (self.new.recorded ≡ Some (record { told = record { budget = (pool self.old).budget; happened = [] }; out = 0; spare = 3 })) }
        ensures err { OnErr result (self.new ≡ self.old) }
    {
        network.law_limits();
        let mut history = History::new(alloc, self.leaves.budget());
        history.reserve(SPARE)?;
        self.recording = Recording::On {
            history,
            out: 0,
            spare: SPARE,
        };
        Ok(())
    }

    /// A pool with a tree of an earlier search, whose open leaves are free, but those that a part of a search leaves to others, which
    /// are set aside, and a part of the word that has seen the price of what it keeps. No node is made of at most `budget`, and the first row of bounds is that of the price. An `Err`, want of memory or
    /// of a number for a floor, gives the part back.
    pub fn begin_with(
        alloc: Global,
        network: &Network,
        holder: Holder<M>,
        budget: u64,
        tree: Tree,
        part: Option<Part>,
    ) -> Result<Pool<M>, Holder<M>>
        requires own { network.now ≡ M.network }
        requires part { IfSome part IsPart }
        requires few { count (tree_of tree) < 2 ^ 64 }
        requires kept { IsKept M.network (tree_of tree) (values_of holder.held) }
        requires seen { holder.seen ≡ price M.network (values_of holder.held) }
        ensures pool { IfOk result (λ held. pool held ≡ opening_part (has_leaf part) M.network holder.shares budget (tree_of tree) (values_of holder.held)) }
        ensures recorded { IfOk result (λ held. held.recorded ≡ None) }
        ensures back { IfErr result (λ given. given ≡ holder) }
    {
        network.law_limits();
        match Leaves::start(alloc, network, tree, part, holder.seen(), budget) {
            Ok(leaves) => Ok(Pool {
                leaves,
                holder,
                recording: Recording::Off,
                due: 0,
            }),
            Err(AllocError) => Err(holder),
        }
    }

    /// What the pool has: its tree, its part of the word, the rows, and the record, where one is kept. It takes no memory.
    pub fn finish(self) -> Finished<M>
        ensures tree { tree_of result.tree ≡ machine.tree_of (pool self).tree }
        ensures view { view_of result.holder ≡ (pool self).view }
        ensures rows { result.rows.items ≡ (pool self).rows }
        ensures nodes { result.nodes ≡ (pool self).nodes }
        ensures same { record_of result.history ≡ told_in self.recorded }
        ensures history { IfSome result.history (λ history. IsRecordOf M.network (pool self) (told_by history)) }
    {
        let Pool {
            leaves,
            holder,
            recording,
            due: _,
        } = self;
        let nodes = leaves.nodes();
        let (tree, rows) = leaves.finish();
        Finished {
            tree,
            holder,
            rows,
            nodes,
            history: recording.finish(),
        }
    }
}
