//! Whether two nodes are one split.

ghost use Rattle.std.specs.Prelude.{◌≡◌};
ghost use Rattle.cfn_merge.specs.Same.{same};

use cfn_model::Decision;
use cfn_proof::Block;

/// Whether two nodes with these blocks and decisions are one split. It takes no memory.
pub(crate) fn same(block: &Block, decision: Decision, more: &Block, other: Decision) -> bool
    ensures { result ≡ same block.now decision more.now other }
{
    decision == other && block.is_same(more)
}
