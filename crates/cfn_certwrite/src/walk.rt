//! A walk over the nodes of a tree in the order of their lines, with no recursion and no memory.

ghost use Rattle.std.specs.Prelude.{◌≡◌, ◌<◌, ◌∷◌, length, IfSome};
ghost use Rattle.cfn_model.specs.Text.{text, tree_lines};
ghost use Rattle.cfn_proof.specs.Nodes.{tree_of};
ghost use Rattle.cfn_certwrite.specs.Walk.{order_behind, order_from, order_left, second_after};
ghost use Rattle.cfn_desk.specs.Outside.{IsWriting};
ghost use Rattle.cfn_line.specs.Appending.{Appends};
ghost use Rattle.cfn_line.specs.declared.channel.Channel.TheVariants.{File};

use crate::nodes::put_node;
use cfn_desk::{Desk, Failed};
use cfn_proof::{End, NodeId, Tree};

/// Puts the lines of a tree. It takes no memory. An `Err` is a put that failed behind some front of them.
pub(crate) fn put_tree<D: Desk>(tree: &Tree, desk: &mut D) -> Result<(), Failed>
    requires { IsWriting (D.outside desk.old).calls }
    ensures { Appends File (D.outside desk.old)
        (text (tree_lines (tree_of tree.now))) result (D.outside desk.new) }
{
    tree.law_linked();
    let mut next = Some(Tree::ROOT);
    while let Some(id) = next {
        put_node(tree.node(id), desk)?;
        next = next_node(tree, id);
    }
    Ok(())
}

/// The node whose lines stand behind those of a node, if any do: a split's first child, and behind a leaf the next
/// second child. From `Tree::ROOT` on it gives each node once. It takes no memory.
pub fn next_node(tree: &Tree, id: NodeId) -> Option<NodeId>
    requires { id.number < length tree.now }
    ensures there { IfSome result (λ next. next.number < length tree.now) }
    ensures order { order_from tree.now id.number ≡ id.number ∷ order_left tree.now result }
{
    tree.law_linked();
    match tree.node(id).end {
        End::Free | End::Shut => next_second(tree, id),
        End::Split { first, .. } => Some(first),
    }
}

/// The node whose lines stand behind the whole tree of a node, if any do: the second child of the nearest split
/// whose first side has the node.
fn next_second(tree: &Tree, id: NodeId) -> Option<NodeId>
    requires { id.number < length tree.now }
    ensures there { IfSome result (λ next. next.number < length tree.now) }
    ensures order { order_behind tree.now id.number ≡ order_left tree.now result }
{
    tree.law_linked();
    let mut done = id;
    while let Some(parent) = tree.node(done).parent {
        let sibling = second_behind(tree.node(parent).end, done);
        if sibling.is_some() {
            return sibling;
        }
        done = parent;
    }
    None
}

/// The second child of a split whose first child this is.
fn second_behind(end: End, child: NodeId) -> Option<NodeId>
    ensures { result ≡ second_after end child.number }
{
    match end {
        End::Split { first, second, .. } if first == child => Some(second),
        End::Free | End::Shut | End::Split { .. } => None,
    }
}
