//! What holds of the pool's steps, each the contract of a function with nothing to do.

ghost use Rattle.cfn_machine.specs.Laws.{Opens, OpensWith, OpensPart, KeepsAside, SetsAside, EndsOthers, WasAside, TellsOwnLeaves, HasPaths, KeepsSound, KeepsNumbered, KeepsRows, Keeps, Holds, Agreed, Covered, Rises, SweepsAll, HandsOutTasks, TakesOut, StaysOut, WasOut, TakesOrNone, NeverBoth, OneLack, GivesOrNot, GivesOut, ReturnsOrNot, ReturnsOut, OneTask, OnePool, Joins};

/// The pool at the opening, also one with a kept tree, is sound, its leaves have numbers of their own, and what it keeps
/// fits. Each legal step keeps that, and so does every list of legal steps, in whatever order they come. The rows of
/// bounds that are there stay.
pub fn law_every_step()
    ensures opens { Opens }
    ensures opens_with { OpensWith }
    ensures opens_part { OpensPart }
    ensures sound { KeepsSound }
    ensures numbered { KeepsNumbered }
    ensures rows { KeepsRows }
    ensures keeps { Keeps }
    ensures holds { Holds }
{}

/// Exactly the leaves that a part of a search leaves to others are set aside at the opening. They stay so until all leaves are called
/// back, and no step sets another aside. After a sweep behind that each is still there, open or closed, and whether some open leaf is
/// the part's own is told by the leaves before. Open leaves have paths.
pub fn law_parts()
    ensures sets { SetsAside }
    ensures aside { KeepsAside }
    ensures was { WasAside }
    ensures ends { EndsOthers }
    ensures own { TellsOwnLeaves }
    ensures paths { HasPaths }
{}

/// Of all leaves of a tree, closed ones too, exactly one has a path that agrees with an assignment. In a sound pool that
/// leaf is open, or the assignment costs at least what the pool has seen.
pub fn law_covered()
    ensures agreed { Agreed }
    ensures covered { Covered }
{}

/// The floor at an open leaf is at least that of the whole network. After a sweep with no leaf out it is below the
/// threshold that the pool has seen.
pub fn law_floors()
    ensures rises { Rises }
    ensures swept { SweepsAll }
{}

/// The path of a task that is taken runs at some threshold, with small costs all along it, and its grant is 1 to what is
/// wanted. A worker that wants nodes takes a leaf, or there is none for exactly one reason.
pub fn law_tasks()
    ensures tasks { HandsOutTasks }
    ensures some { TakesOrNone }
    ensures either { NeverBoth }
    ensures one { OneLack }
{}

/// The leaf of a task that is taken is out. A leaf that is out stays out until its piece or its task is given or all leaves are called back, and none is out but
/// those whose task was taken.
pub fn law_leaves_out()
    ensures taken { TakesOut }
    ensures stays { StaysOut }
    ensures was { WasOut }
{}

/// A piece can be given, and a task given back, exactly where the leaf is out.
pub fn law_pieces()
    ensures given { GivesOrNot }
    ensures out { GivesOut }
    ensures returned { ReturnsOrNot }
    ensures back { ReturnsOut }
{}

/// Where leaves have numbers of their own, a step leaves one pool alone, and a taking hands out one task.
pub fn law_one_pool()
    ensures task { OneTask }
    ensures pool { OnePool }
{}

/// Where a view is joined in, the price of what is kept, and what was seen, become the lesser ones.
pub fn law_views()
    ensures { Joins }
{}
