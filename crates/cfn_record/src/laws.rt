//! The laws that the definitions have, each the contract of a function with nothing to do.

ghost use Rattle.cfn_record.specs.Laws.{ComesOnce, EntryPasses, FaultsAreOne, FollowsNumbered, GoodOrFault, MovesFollow, NoFaultWhereGood, NoWholePiece, OneEnd, OneMorePasses, OneRecord, OneRun, SearchIsRecorded, StepFollows, WholeTexts};

/// What is recorded of a legal step, and of a list of them, can be done to every pool that is alike, and leaves alike ones. So the record of a
/// search whose last step is a sweep at the cost of its best assignment is good, and comes to the search's own tree.
pub fn law_recorded_steps()
    ensures step { StepFollows }
    ensures moves { MovesFollow }
    ensures search { SearchIsRecorded }
{}

/// A list of entries makes one pool of a pool whose leaves have numbers of their own, as far as tree, numbers, budget, nodes and the
/// threshold seen go.
pub fn law_one_run()
    ensures numbered { FollowsNumbered }
    ensures run { OneRun }
    ensures end { OneEnd }
{}

/// For every network and all bytes exactly one holds: the bytes spell a good record, or they have a fault, at one line and of one kind. They
/// spell one record at most.
pub fn law_texts()
    ensures one { OneRecord }
    ensures some { GoodOrFault }
    ensures not_both { NoFaultWhereGood }
    ensures one_fault { FaultsAreOne }
{}

/// What a program may conclude that goes over the lines of a text: they come to one pool at most; lines that are right stay so with one right
/// line more, and with the lines of an entry that can be done; a piece of which a line does not follow the grammar is no whole one; and where
/// every line is right, the text spells a good record.
pub fn law_line_by_line()
    ensures one_pool { ComesOnce }
    ensures one_more { OneMorePasses }
    ensures entry { EntryPasses }
    ensures piece { NoWholePiece }
    ensures whole { WholeTexts }
{}
