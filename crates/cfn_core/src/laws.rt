//! What holds of the pool machine, each the contract of a function with nothing to do.

ghost use Rattle.cfn_core.specs.Examples.{IsSplittable, SplitSpends, RecallRefuses, one_variable};
ghost use Rattle.cfn_core.specs.Laws.{Opens, Keeps, OpensNumbered, KeepsNumbered, OpensHanded, KeepsHanded, Holds, IsFound, Solves, EndsAtMost, MeetsAll, HandsOutTasks, NeverGone, AnswersAll, AnswersOnce, AnswersNobody, RunsAll, RunsOnce, ReadsAsWord};

/// At the opening the pool is sound and the word keeps its rule, and each action of a worker keeps both.
pub fn law_each_action()
    ensures opens { Opens }
    ensures keeps { Keeps }
{}

/// Open leaves have numbers of their own, and those from the pool's next one on are fresh: at the opening, and after each
/// action.
pub fn law_numbered()
    ensures opens { OpensNumbered }
    ensures keeps { KeepsNumbered }
{}

/// The task of each leaf that is out is in some worker's hand, and the worker of each task in hand is there: at the
/// opening, and after each action.
pub fn law_in_hand()
    ensures opens { OpensHanded }
    ensures keeps { KeepsHanded }
{}

/// What holds after every list of actions from the opening, in whatever order the workers act: the pool is sound, every
/// assignment is covered by its leaf, the only one whose path agrees with it, the word keeps its rule, the tree is valid at the word, its bound there is at most every cost,
/// and the task of each leaf that is out is in hand.
pub fn law_every_order()
    ensures { Holds }
{}

/// Where the word is below the upper bound, an assignment has it as its cost; where no leaf is open besides, it is the
/// least cost. Where no leaf is open and the word is the upper bound, every assignment costs that.
pub fn law_solved()
    ensures found { IsFound }
    ensures solves { Solves }
{}

/// After every list of actions the word is at most the threshold of each piece that was taken over, and at most what each
/// view that was met had seen. Where all views are met, it is the price of the best that the pool keeps, or the upper bound.
pub fn law_thresholds()
    ensures ends { EndsAtMost }
    ensures meets { MeetsAll }
{}

/// Of the word in a world all is true that is true of one in memory: it is the least of all that is kept, and at most all that
/// was seen, and its shares are 128.
pub fn law_words()
    ensures { ReadsAsWord }
{}

/// The path of a task that is handed out runs at some threshold, with small costs all along it, and its grant is 1 to
/// what its worker wants.
pub fn law_tasks()
    ensures { HandsOutTasks }
{}

/// As long as no action calls the leaves back, a piece of a task that is in hand is never answered `Gone`.
pub fn law_never_gone()
    ensures { NeverGone }
{}

/// Every action has an answer in every world, and where leaves have numbers of their own it has one alone. Where it names
/// a worker that is not there, that is `Idle`, and nothing changes. So each list of actions from the opening has one list
/// of answers and leaves one world.
pub fn law_one_answer()
    ensures all { AnswersAll }
    ensures once { AnswersOnce }
    ensures nobody { AnswersNobody }
    ensures runs { RunsAll }
    ensures one_run { RunsOnce }
{}

/// Two lists of actions with their answers: a split spends a budget of 1, and a piece of a leaf that was called back is
/// refused and its leaf handed out again. They are shown for every network in which their actions are legal, and there is
/// one.
pub fn law_examples()
    ensures legal { IsSplittable one_variable }
    ensures spent { SplitSpends }
    ensures refused { RecallRefuses }
{}
