//! What the test for one split has, as the contract of a function with nothing to do.

ghost use Rattle.cfn_mending.specs.Laws.{IsTest};
ghost use Rattle.cfn_merge.specs.Same.{same};

/// The test says yes only to the same block and the same decision.
pub fn law_same()
    ensures { IsTest same }
{}
