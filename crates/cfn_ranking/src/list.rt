//! What a search for the cheapest assignments hands out: the list, its bounds, and the tree that shows them.

ghost use Rattle.std.specs.Prelude.{◌<◌, ◌≤◌, length};
ghost use Rattle.std.specs.List.{AllByRecursion};
ghost use Rattle.std.proofs.Props.{props};
ghost use Rattle.cfn_model.specs.declared.limits.TheConstants.{GREATEST};
ghost use Rattle.cfn_ranking.specs.Trees.{NumbersAreThere};

use cfn_proof::Tree;

/// A listed assignment with its cost. It has a value at least, and cost and values are at most
/// 9,223,372,036,854,775,807.
#[derive(Drop)]
pub struct Listed {
    pub cost: u64,
    pub values: Vec<u32>,
    pub ghost cost_fits: { cost ≤ GREATEST },
    pub ghost values_some: { 0 < length values.items },
    pub ghost values_fit: { AllByRecursion (λ a. a ≤ GREATEST) values.items } by { Prim.hlevel props },
}

/// A certificate of a list: the network's numbers of variables and functions and its upper bound, how many assignments
/// were asked for, a lower bound on the cost of every assignment that is not listed, the listed assignments, the tree,
/// and beside each of its nodes a number of a listed assignment, counted from 0, or none: an open leaf with a number is
/// the leaf of that assignment. `upper`, `count` and `lower` are at most 9,223,372,036,854,775,807, `count` is at least
/// 1, and at most `count` assignments are listed.
#[derive(Drop)]
pub struct BestCertificate {
    pub variables: u32,
    pub functions: u32,
    pub upper: u64,
    pub count: u64,
    pub lower: u64,
    pub list: Vec<Listed>,
    pub tree: Tree,
    pub numbers: Vec<Option<u32>>,
    pub ghost upper_fits: { upper ≤ GREATEST },
    pub ghost count_some: { 0 < count },
    pub ghost count_fits: { count ≤ GREATEST },
    pub ghost lower_fits: { lower ≤ GREATEST },
    pub ghost list_fits: { length list.items ≤ count },
    pub ghost numbers_there: { NumbersAreThere tree numbers.items (length list.items) },
}
