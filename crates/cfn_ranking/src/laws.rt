//! Laws of trees with listed leaves: what a whole tree has where each of its nodes has it.

ghost use Rattle.cfn_ranking.specs.Laws.{PlainLaw, ValidLaw, BoundFromLaw, BoundAtLaw, BoundMostLaw, OpenBelowLaw, NoneOpenLaw, SomeOpenLaw, SpelledLaw, NumbersLaw};

/// Where each listed leaf is taken for an open one, the tree is that of its nodes.
pub fn law_plain_where_nodes_are()
    ensures { PlainLaw }
{}

/// A tree is valid at a threshold where each of its nodes is after what stands before it, and each numbered leaf is that
/// of its assignment.
pub fn law_valid_where_nodes_are()
    ensures { ValidLaw }
{}

/// The floors of the open leaves without a number decide whether they are below a threshold, and what a tree's bound is.
pub fn law_bound_where_floors_are()
    ensures below { OpenBelowLaw }
    ensures from { BoundFromLaw }
    ensures at { BoundAtLaw }
    ensures most { BoundMostLaw }
{}

/// A tree has an open leaf exactly where a node is one that has no number.
pub fn law_open_where_a_node_is()
    ensures none { NoneOpenLaw }
    ensures some { SomeOpenLaw }
{}

/// The lines of a tree have a spelling where its nodes and its numbers have. The numbers are those of listed assignments
/// where each numbered leaf is that of its assignment.
pub fn law_spelled_where_nodes_are()
    ensures spelled { SpelledLaw }
    ensures numbers { NumbersLaw }
{}
