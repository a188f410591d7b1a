//! Laws of trees: what a whole tree has where each of its nodes has it, and what a split, a closing or a graft changes.

ghost use Rattle.cfn_proof.specs.Local.{ValidLaw, StrictLaw, OpenBelowLaw, BoundFromLaw, BoundAtLaw, ValidBehindLaw, StrictBehindLaw, OpenBelowBehindLaw, BoundFromBehindLaw, BoundAtBehindLaw, CountSplitLaw, CountSplitBehindLaw, CountCloseLaw, SplitsSplitLaw, SplitsSplitBehindLaw, SplitsCloseLaw, CountGraftLaw, SplitsGraftLaw, GraftLaw, BeforeSplitLaw, BeforeSplitBehindLaw, BeforeCloseLaw, BeforeGraftLaw, ValidSplitBehindLaw, StrictSplitBehindLaw, ValidBehindSplitLaw, StrictBehindSplitLaw, ValidGraftLaw, StrictGraftLaw, BeforeOnceLaw, BeforeSomeLaw, SpelledLaw, LinesLaw, NoneOpenLaw, SomeOpenLaw};

/// A tree is valid at a threshold, or strict, where each of its nodes is after what stands before it.
pub fn law_valid_where_nodes_are()
    ensures valid { ValidLaw }
    ensures strict { StrictLaw }
{}

/// The floors of the open leaves decide whether they are below a threshold, and what a tree's bound is.
pub fn law_bound_where_floors_are()
    ensures below { OpenBelowLaw }
    ensures from { BoundFromLaw }
    ensures at { BoundAtLaw }
{}

/// The same of a tree that stands behind a history, where each of its nodes has it behind that history.
pub fn law_valid_behind_where_nodes_are()
    ensures valid { ValidBehindLaw }
    ensures strict { StrictBehindLaw }
{}

/// The floors of the open leaves of a tree that stands behind a history decide the same.
pub fn law_bound_behind_where_floors_are()
    ensures below { OpenBelowBehindLaw }
    ensures from { BoundFromBehindLaw }
    ensures at { BoundAtBehindLaw }
{}

/// A split or a closing of an open leaf adds one to the number of splits and closed leaves.
pub fn law_one_node_more()
    ensures split { CountSplitLaw }
    ensures split_behind { CountSplitBehindLaw }
    ensures close { CountCloseLaw }
{}

/// A split of an open leaf adds one to the number of splits, and a closing adds none.
pub fn law_one_split_more()
    ensures split { SplitsSplitLaw }
    ensures split_behind { SplitsSplitBehindLaw }
    ensures close { SplitsCloseLaw }
{}

/// A graft puts a piece's tree in the place of the leaf, and adds its splits and closed leaves.
pub fn law_grafted_tree()
    ensures tree { GraftLaw }
    ensures count { CountGraftLaw }
    ensures splits { SplitsGraftLaw }
{}

/// What stands before a node stays where another leaf is split or closed.
pub fn law_same_before()
    ensures split { BeforeSplitLaw }
    ensures split_behind { BeforeSplitBehindLaw }
    ensures close { BeforeCloseLaw }
    ensures once { BeforeOnceLaw }
    ensures some { BeforeSomeLaw }
{}

/// Nodes stay valid where a leaf is split behind a block that runs there, and strict where the split is strict there.
pub fn law_kept_by_a_split()
    ensures valid { ValidSplitBehindLaw }
    ensures strict { StrictSplitBehindLaw }
{}

/// The same of nodes that stand behind a history.
pub fn law_kept_behind_by_a_split()
    ensures valid { ValidBehindSplitLaw }
    ensures strict { StrictBehindSplitLaw }
{}

/// After a graft, what stands before a node of the piece is what stood before it, behind the leaf's path; so nodes stay
/// valid and strict where those of the piece are behind that path.
pub fn law_kept_by_a_graft()
    ensures before { BeforeGraftLaw }
    ensures valid { ValidGraftLaw }
    ensures strict { StrictGraftLaw }
{}

/// A tree whose nodes have a spelling has one, and version 2 has lines for all of its decisions.
pub fn law_spelled_where_nodes_are()
    ensures spelled { SpelledLaw }
    ensures lines { LinesLaw }
{}

/// A tree has an open leaf exactly where a node is one.
pub fn law_open_where_a_node_is()
    ensures none { NoneOpenLaw }
    ensures some { SomeOpenLaw }
{}
