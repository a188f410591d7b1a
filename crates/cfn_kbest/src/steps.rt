//! Where the store stands next, and what an expansion makes of the list.

ghost use Rattle.std.specs.Prelude.{◌≡◌, ◌+◌, ◌<◌, ◌≤◌, ◌^◌, List, [], ◌∷◌, ◌++◌, length, vec_len, vec_capacity, IfOk, IfSome, OnOk, OnErr};
ghost use Rattle.cfn_model.specs.declared.step.Event.{Event};
ghost use Rattle.cfn_proof.specs.Nodes.{node_at, Before};
ghost use Rattle.cfn_dive.specs.Diving.{IsOf};
ghost use Rattle.cfn_ranking.specs.Ranked.{IsRanked, Waits};
ghost use Rattle.cfn_kbest.specs.Expanding.{IsExpanded};
ghost use Rattle.cfn_kbest.specs.Steps.{AreMarked, EndsBehindPlace, IsAt, IsChild};

use crate::dive::Dive;
use crate::expanding::{Expanded, Stand, expand};
use cfn_dive::{Parts, since};
use cfn_explore::Halt;
use cfn_leaves::path_to;
use cfn_model::{Decision, Event};
use cfn_net::{Network, Scored};
use cfn_proof::laws::law_same_before;
use cfn_proof::{End, NodeId, Path, Side, Tree};
use cfn_ranking::Ranking;
use std::alloc::{AllocError, Global};

/// The leaf at which the store stands.
#[derive(Clone, Copy)]
pub(crate) struct Current {
    pub leaf: NodeId,
    /// The side of a split by which the store stands behind a place where it was fully consistent, if it was.
    pub since: Option<Event>,
}

/// The first child of a split behind whose block the store stands.
#[derive(Clone, Copy)]
pub(crate) struct Child {
    pub leaf: NodeId,
    pub decision: Decision,
    /// The floor at the split.
    pub floor: u128,
    /// Whether the store was fully consistent there.
    pub settled: bool,
}

/// Goes to the leaf that is expanded next: a child of the newest split, or else a second child of the dive, or else one of
/// least floor. `None` where no leaf waits that has a floor below the threshold. An `Err` is want of memory.
pub(crate) fn go_on(
    alloc: Global,
    network: &Network,
    parts: &mut Parts<'_>,
    ranking: &mut Ranking,
    marks: &[bool],
    dive: &mut Dive,
    child: Option<Child>,
) -> Result<Option<Current>, AllocError>
    requires of { IsOf network.now parts.old }
    requires ranked { IsRanked network.now ranking.old }
    requires marked { AreMarked network.now ranking.old.nodes marks.now }
    requires child { IfSome child (IsChild network.now parts.old ranking.old) }
    ensures at { IfOk result (λ next. IfSome next (IsAt ranking.new parts.new.store)) }
    ensures of { IsOf network.now parts.new }
    ensures same { ranking.new ≡ ranking.old }
{
    if let Some(child) = child {
        dive.split(child.leaf, child.floor);
        return Ok(Some(go_down(network, parts, ranking, child)));
    }
    let Some(leaf) = next_leaf(ranking, dive) else {
        return Ok(None);
    };
    Ok(Some(go_to(alloc, network, parts, ranking, marks, leaf)?))
}

/// A second child of the dive, or else a leaf of least floor, at which the next dive begins.
fn next_leaf(ranking: &mut Ranking, dive: &mut Dive) -> Option<NodeId>
    requires { length ranking.old.numbers ≡ length ranking.old.nodes }
    ensures waits { IfSome result (λ leaf. Waits ranking.old leaf.number) }
    ensures same { ranking.new ≡ ranking.old }
{
    if let Some(leaf) = dive.back(ranking) {
        return Some(leaf);
    }
    dive.begin();
    ranking.next()
}

/// Goes to a leaf that waits, wherever the store stands. An `Err` is want of memory.
fn go_to(
    alloc: Global,
    network: &Network,
    parts: &mut Parts<'_>,
    ranking: &Ranking,
    marks: &[bool],
    leaf: NodeId,
) -> Result<Current, AllocError>
    requires of { IsOf network.now parts.old }
    requires ranked { IsRanked network.now ranking.now }
    requires marked { AreMarked network.now ranking.now.nodes marks.now }
    requires waits { Waits ranking.now leaf.number }
    ensures at { IfOk result (IsAt ranking.now parts.new.store) }
    ensures of { IsOf network.now parts.new }
{
    law_same_before();
    let path = path_to(alloc, ranking.tree(), leaf)?;
    parts.store.replay(&path)?;
    Ok(Current {
        leaf,
        since: since_at(network, ranking, marks, &path, leaf),
    })
}

/// The side that leads to a leaf from a place where the network was fully consistent, where that is marked.
fn since_at(
    network: &Network,
    ranking: &Ranking,
    marks: &[bool],
    path: &Path,
    leaf: NodeId,
) -> Option<Event>
    requires ranked { IsRanked network.now ranking.now }
    requires waits { Waits ranking.now leaf.number }
    requires marked { AreMarked network.now ranking.now.nodes marks.now }
    requires before { Before ranking.now.nodes leaf.number path.now }
    ensures { IfSome result (EndsBehindPlace network.now path.now) }
{
    if marks[leaf.number as usize] {
        newest(ranking, path, leaf)
    } else {
        None
    }
}

/// The side of its parent's split by which the path of a leaf without steps ends.
fn newest(ranking: &Ranking, path: &Path, leaf: NodeId) -> Option<Event>
    requires there { leaf.number < length ranking.now.nodes }
    requires empty { (node_at ranking.now.nodes leaf.number).block ≡ [] }
    ensures { IfSome result (λ event. (above : List Event) × (path.now ≡ event ∷ above)) }
{
    let tree = ranking.tree();
    tree.law_linked();
    let node = tree.node(leaf);
    let parent = node.parent?;
    let End::Split {
        decision,
        first,
        ..
    } = tree.node(parent).end
    else {
        return None;
    };
    let side = side_of(decision, first == leaf);
    path.way_up().above(side, &node.block)?;
    Some(side.event())
}

/// A side of a split.
fn side_of(decision: Decision, is_first: bool) -> Side {
    if is_first {
        Side::Holds(decision)
    } else {
        Side::Fails(decision)
    }
}

/// Goes down to the first child of a split behind which the store stands. It takes no memory.
fn go_down(network: &Network, parts: &mut Parts<'_>, ranking: &Ranking, child: Child) -> Current
    requires of { IsOf network.now parts.old }
    requires child { IsChild network.now parts.old ranking.now child }
    ensures at { IsAt ranking.now parts.new.store result }
    ensures of { IsOf network.now parts.new }
{
    parts.store.take(child.decision);
    Current {
        leaf: child.leaf,
        since: since(child.settled, Event::Took(child.decision)),
    }
}

/// Expands the leaf at which the store stands, and answers the first child where it was split. An `Err` is want of memory, which
/// leaves the ranking as it was.
pub(crate) fn turn<H: Halt>(
    alloc: Global,
    network: &Network,
    parts: &mut Parts<'_>,
    ranking: &mut Ranking,
    best: &mut Scored,
    marks: &mut Vec<bool>,
    current: Current,
    halt: &H,
) -> Result<Option<Child>, AllocError>
    requires of { IsOf network.now parts.old }
    requires ranked { IsRanked network.now ranking.old }
    requires few { ranking.old.spent + 1 < 2 ^ 64 }
    requires best { best.old.network ≡ network.now }
    requires marked { AreMarked network.now ranking.old.nodes marks.old.items }
    requires at { IsAt ranking.old parts.old.store current }
    ensures of { IsOf network.now parts.new }
    ensures ranked { IsRanked network.now ranking.new }
    ensures spent { OnOk result (ranking.new.spent ≡ ranking.old.spent + 1) }
    ensures err { OnErr result (ranking.new ≡ ranking.old) }
    ensures count { ranking.new.count ≡ ranking.old.count }
    ensures best { best.new.network ≡ network.now }
    ensures marked { OnOk result (AreMarked network.now ranking.new.nodes marks.new.items) }
    ensures turned { IfOk result (λ next. IfSome next (IsChild network.now parts.new ranking.new)) }
{
    let stand = Stand {
        since: current.since,
        is_root: current.leaf == Tree::ROOT,
    };
    let expanded = expand(
        alloc,
        network,
        parts,
        best,
        ranking.threshold(),
        stand,
        halt,
    )?;
    apply(
        alloc,
        network,
        parts,
        ranking,
        best,
        marks,
        current.leaf,
        expanded,
    )
}

/// Says to the ranking what has become of a leaf, and answers the first child where it was split. A cheaper assignment than any
/// before is kept as the best. An `Err` is want of memory, which leaves the ranking as it was.
fn apply(
    alloc: Global,
    network: &Network,
    parts: &Parts<'_>,
    ranking: &mut Ranking,
    best: &mut Scored,
    marks: &mut Vec<bool>,
    leaf: NodeId,
    expanded: Expanded,
) -> Result<Option<Child>, AllocError>
    requires ranked { IsRanked network.now ranking.old }
    requires waits { Waits ranking.old leaf.number }
    requires few { ranking.old.spent + 1 < 2 ^ 64 }
    requires best { best.old.network ≡ network.now }
    requires marked { AreMarked network.now ranking.old.nodes marks.old.items }
    requires expanded { (path : List Event) → Before ranking.old.nodes leaf.number path → IsExpanded network.now path ranking.old.threshold parts.now expanded }
    ensures ranked { IsRanked network.now ranking.new }
    ensures spent { OnOk result (ranking.new.spent ≡ ranking.old.spent + 1) }
    ensures err { OnErr result (ranking.new ≡ ranking.old) }
    ensures count { ranking.new.count ≡ ranking.old.count }
    ensures best { best.new.network ≡ network.now }
    ensures marked { OnOk result (AreMarked network.now ranking.new.nodes marks.new.items) }
    ensures turned { IfOk result (λ next. IfSome next (IsChild network.now parts.now ranking.new)) }
{
    match expanded {
        Expanded::Closed { block } => {
            ranking.close(network, leaf, block);
            Ok(None)
        }
        Expanded::Found { block, cost } => {
            ranking.enter(alloc, network, leaf, block, cost, &parts.values)?;
            if cost < best.price() {
                best.fill(network, &parts.values);
            }
            Ok(None)
        }
        Expanded::Divided {
            block,
            decision,
            low,
            settled,
        } => {
            marks.reserve(2)?;
            let first = ranking.divide(network, leaf, block, decision, low)?;
            push_twice(marks, settled);
            Ok(Some(Child {
                leaf: first,
                decision,
                floor: low,
                settled,
            }))
        }
    }
}

/// Puts two marks behind all others, where there is room.
fn push_twice(marks: &mut Vec<bool>, mark: bool)
    requires { vec_len marks.old + 2 ≤ vec_capacity marks.old }
    ensures { marks.new.items ≡ marks.old.items ++ mark ∷ mark ∷ [] }
{
    marks.push_reserved(mark);
    marks.push_reserved(mark);
}
