//! What holds of local consistencies, each the contract of a function with nothing to do.

ghost use Rattle.cfn_consistency.specs.Laws.{NodesRise, ArcsRise, DirectionalsRise, ExistentialsRise, FullsRise, DeadFalls, NeverBoth, PartIsLocal, ArcIsLocal, DirectionalIsLocal, ExistentialIsLocal, NodesAreLocal, NodesGroup, GroupsJoin, OpenGroupsJoin, ClosedStaysClosed, SourcesDiffer};

/// What is consistent at a threshold is so at every greater one, and what is dead is so at every smaller one. Nothing is
/// node consistent and dead at once.
pub fn law_thresholds()
    ensures nodes { NodesRise }
    ensures arcs { ArcsRise }
    ensures directional { DirectionalsRise }
    ensures existential { ExistentialsRise }
    ensures full { FullsRise }
    ensures dead { DeadFalls }
    ensures either { NeverBoth }
{}

/// Where two histories agree on what a consistency looks at, it holds after one exactly where it holds after the other.
pub fn law_local()
    ensures part { PartIsLocal }
    ensures arc { ArcIsLocal }
    ensures directional { DirectionalIsLocal }
    ensures existential { ExistentialIsLocal }
    ensures nodes { NodesAreLocal }
{}

/// Steps that gain at nodes are groups, each of one step, and groups behind groups are groups,
/// the last of which may be unfinished.
pub fn law_groups()
    ensures nodes { NodesGroup }
    ensures join { GroupsJoin }
    ensures open { OpenGroupsJoin }
{}

/// Where propagation ended in a closed family, none under the same bans empties a variable.
pub fn law_families()
    ensures closed { ClosedStaysClosed }
{}

/// A source that is needed behind the cuts of others is none of them.
pub fn law_sources()
    ensures { SourcesDiffer }
{}
