//! What a search hands out: its bounds, its best assignment, and the tree that shows them.

ghost use Rattle.std.specs.Prelude.{◌≤◌, IsTrue, is_some};
ghost use Rattle.std.specs.Option.{ForSome};
ghost use Rattle.cfn_model.specs.declared.limits.TheConstants.{GREATEST};

use crate::tree::Tree;
use cfn_net::Scored;

/// A certificate: the network's numbers of variables and functions and its upper bound, the best assignment that is
/// known, a lower bound on the cost of every assignment, and a tree. `upper` and `lower` are at most
/// 9,223,372,036,854,775,807, and a best is not empty. It is written in version 2.
#[derive(Drop)]
pub struct Certificate {
    pub variables: u32,
    pub functions: u32,
    pub upper: u64,
    pub best: Option<Scored>,
    pub lower: u64,
    pub tree: Tree,
    pub ghost upper_fits: { upper ≤ GREATEST },
    pub ghost lower_fits: { lower ≤ GREATEST },
    pub ghost best_is_held: { ForSome best (λ scored. IsTrue (is_some scored.held)) },
}
