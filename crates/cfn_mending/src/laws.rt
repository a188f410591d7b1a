//! The laws that the definitions have, each the contract of a function with nothing to do.

ghost use Rattle.cfn_mending.specs.Laws.{KeptIsWell, KeptOnce, KeepsAll, JoinValid, JoinBound, BoundOfHeight, MergedGood, MergedLower, AllMergedGood, AllMergedLower, AllMergedSpelled, AllMergedAnew};
ghost use Rattle.cfn_mending.specs.MakingLaws.{MakesFromOne, MakesSame, MakesSplit, MakesClose, MakesLeave, MakesWhole};

/// What is kept of a tree is one tree, and well formed; of a tree that is well formed all is kept.
pub fn law_kept()
    ensures well { KeptIsWell }
    ensures once { KeptOnce }
    ensures all { KeepsAll }
{}

/// A joined tree is valid where both are, and its bound is at least that of each.
pub fn law_joined()
    ensures valid { JoinValid }
    ensures bound { JoinBound }
{}

/// A tree's bound is what its height comes to behind the floor.
pub fn law_height()
    ensures { BoundOfHeight }
{}

/// A merged certificate is good where both are, and its lower bound is at least that of each.
pub fn law_merged()
    ensures good { MergedGood }
    ensures lower { MergedLower }
{}

/// What certificates come to that are merged one after another is good where each is, and has a spelling where each has. Its
/// lower bound is its tree's bound, and at least that of each.
pub fn law_all_merged()
    ensures good { AllMergedGood }
    ensures lower { AllMergedLower }
    ensures spelled { AllMergedSpelled }
    ensures anew { AllMergedAnew }
{}

/// A tree of one open leaf will be what is due there. A leaf may be split, closed, or left open behind a block where that
/// is due, and the tree will be the same. Where each open leaf is due as it is, the tree is made.
pub fn law_making()
    ensures one { MakesFromOne }
    ensures same { MakesSame }
    ensures split { MakesSplit }
    ensures close { MakesClose }
    ensures leave { MakesLeave }
    ensures whole { MakesWhole }
{}
