//! Free leaves whose floor reaches the threshold are closed.

ghost use Rattle.std.specs.Prelude.{◌≡◌, ◌<◌, length, slice_set, None};
ghost use Rattle.cfn_proof.specs.Nodes.{node_at, close_at, IsFree, IsLinked};
ghost use Rattle.cfn_machine.specs.Pool.{View};
ghost use Rattle.cfn_machine.specs.Steps.{PoolSweeps};
ghost use Rattle.cfn_leaves.specs.Value.{pool_of};

use crate::entry::Entry;
use crate::leaves::Leaves;
use crate::taking::held;
use cfn_proof::laws::law_same_before;
use cfn_proof::{NodeId, Tree};

impl Leaves {
    /// Closes each free leaf whose floor is at least `word`, behind its own block. It takes no memory, and goes over the
    /// list of free leaves.
    pub fn sweep(&mut self, word: u64)
        ensures network { self.new.network ≡ self.old.network }
        ensures sweeps { (view : View) → PoolSweeps self.old.network (pool_of self.old view) word (pool_of self.new (record view { seen = word })) }
    {
        law_same_before();
        let k = u128::from(word);
        for place in 0..self.list.len() {
            let leaf = self.list.at(place);
            if leaf.floor >= k {
                let number = leaf.leaf as usize;
                if let Some(entry) = held(&self.table, number) {
                    close(&mut self.tree, &mut self.table, number, entry.node);
                    self.opened -= 1;
                }
            }
        }
        self.list.keep_below(k);
    }
}

/// Closes an open leaf, and takes it out of the table. It takes no memory.
fn close(tree: &mut Tree, table: &mut Vec<Option<Entry>>, number: usize, node: NodeId)
    requires there { node.number < length tree.old }
    requires free { IsFree tree.old node.number }
    requires held { number < length table.old.items }
    ensures tree { tree.new ≡ close_at tree.old node.number (node_at tree.old node.number).block }
    ensures linked { IsLinked tree.new }
    ensures table { table.new.items ≡ slice_set table.old.items number None }
{
    tree.shut(node);
    tree.law_linked();
    table[number] = None;
}
