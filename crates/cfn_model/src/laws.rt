//! The laws that the definitions have, each the contract of a function with nothing to do.

ghost use Rattle.cfn_model.specs.Laws.{ReadNetworks, Equivalence, Bounds, ClosedLeaves, EachLeaf, LowerBounds, Optimum, NoneBelow, RunLowering, ValidLowering, GoodInSecond, SpelledInSecond};

/// What reads is a network: whatever the bytes of a file are, what they read as keeps every limit of networks.
pub fn law_networks()
    ensures { ReadNetworks }
{}

/// Shifts keep the total of every assignment (equivalence-preserving transformations, Cooper et al. 2010).
pub fn law_equivalence()
    ensures { Equivalence }
{}

/// In a tree that is valid at a threshold, the bound is at most the cost of every assignment, and no assignment
/// below the threshold has a closed leaf: the leaf of an assignment is open, with a floor of at most its total, or the
/// assignment costs at least the threshold.
pub fn law_bounds()
    ensures bounds { Bounds }
    ensures closed_leaves { ClosedLeaves }
    ensures each_leaf { EachLeaf }
{}

/// A good certificate alone implies what it claims: its lower bound is at most the cost of every assignment; where
/// that is the best's cost, the best is an optimum; where it is the upper bound, no assignment is below that.
pub fn law_good_certificates()
    ensures lower_bounds { LowerBounds }
    ensures optimum { Optimum }
    ensures none_below { NoneBelow }
{}

/// What runs or is valid at a threshold does so at every smaller one.
pub fn law_lowering()
    ensures runs { RunLowering }
    ensures trees { ValidLowering }
{}

/// Written in the second version, a good certificate is as good, and has a spelling where it had one.
pub fn law_second_version()
    ensures good { GoodInSecond }
    ensures spelled { SpelledInSecond }
{}
