//! The laws that the definitions have, each the contract of a function with nothing to do.

ghost use Rattle.cfn_best.specs.Laws.{Cheapest, Fewer, FaultsAreOne, ListedAreDistinct, ListedInOrder, NoFaultWhereGood, OneList, OthersCostMore, WholeTexts};

/// A good list alone implies what it claims. Its assignments are different and stand in order of cost and then values,
/// and each fits and has its cost, below the upper bound. Every assignment that is not listed costs at least the lower
/// bound. Where that is the threshold, the list has the cheapest assignments: no other one costs less than one of them,
/// and where they are fewer than asked for, every other one costs the upper bound.
pub fn law_good_lists()
    ensures others { OthersCostMore }
    ensures in_order { ListedInOrder }
    ensures distinct { ListedAreDistinct }
    ensures cheapest { Cheapest }
    ensures fewer { Fewer }
{}

/// For every network and all bytes: they spell one list at most; where that is good, no line fails; and one line fails
/// first at most, in one way.
pub fn law_texts()
    ensures one { OneList }
    ensures not_both { NoFaultWhereGood }
    ensures one_fault { FaultsAreOne }
{}

/// Where every line of a text is right, it spells a list, which is good where its lower bound is at most what its lines
/// show; else the lower bound is the fault.
pub fn law_whole_texts()
    ensures { WholeTexts }
{}
