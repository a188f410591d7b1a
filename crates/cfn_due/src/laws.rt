//! What holds of that which does not wait, each the contract of a function with nothing to do.

ghost use Rattle.cfn_due.specs.Laws.{ArcGoesOn, DirectedGoesOn, ExistingGoesOn, HoldingGoesOn, HoldingGoesAlong, NothingWaitsIsFull};

/// Where something does not go with an event, no event that it depends on ends it: a value or tuple that it depends on stays
/// live, and costs that it depends on do not rise. So what holds goes on to hold where what goes is put.
pub fn law_going()
    ensures arc { ArcGoesOn }
    ensures directed { DirectedGoesOn }
    ensures existing { ExistingGoesOn }
    ensures holding { HoldingGoesOn }
    ensures along { HoldingGoesAlong }
{}

/// Where nothing waits, a node consistent network is fully consistent.
pub fn law_knowing()
    ensures { NothingWaitsIsFull }
{}
