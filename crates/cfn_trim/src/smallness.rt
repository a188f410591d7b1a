//! Costs along a block.

ghost use Rattle.cfn_model.specs.Paths.{TameBlock};

use cfn_store::Store;

/// The block of a store is tame: along it each cost of what is live is below 2^64. It costs nothing.
pub fn law_block_stays_tame(store: &Store<'_>)
    ensures { TameBlock store.now.network store.now.base store.now.block }
{
    store.law_exact();
}
