//! The lines of a tree in which open leaves may be those of listed assignments.

ghost use Rattle.std.specs.Prelude.{◌≡◌, ◌<◌, length};
ghost use Rattle.cfn_best.specs.Lines.{bytes_of, lines_of_tree, text_of};
ghost use Rattle.cfn_desk.specs.Outside.{IsWriting};
ghost use Rattle.cfn_line.specs.Appending.{Appends};
ghost use Rattle.cfn_line.specs.declared.channel.Channel.TheVariants.{File};
ghost use Rattle.cfn_ranking.specs.Trees.{listed_of, number_at};
ghost use Rattle.cfn_certwrite.specs.ListLines.{last_line, leaf_line, node_lines};

use crate::number::write_number;
use crate::{next_node, put_end, put_steps};
use cfn_desk::{Desk, Failed};
use cfn_line::{Channel, Word, write_line};
use cfn_proof::{End, Node, NodeId, Tree};

/// Puts the lines of a tree, with the numbers beside its nodes.
pub fn put_tree<D: Desk>(tree: &Tree, numbers: &[Option<u32>], desk: &mut D) -> Result<(), Failed>
    requires { IsWriting (D.outside desk.old).calls }
    ensures { Appends File (D.outside desk.old)
        (text_of (lines_of_tree (listed_of tree.now numbers.now))) result (D.outside desk.new) }
{
    tree.law_linked();
    let mut next = Some(Tree::ROOT);
    while let Some(id) = next {
        put_node(tree.node(id), number_of(numbers, id), desk)?;
        next = next_node(tree, id);
    }
    Ok(())
}

/// The number beside a node, where there is one.
fn number_of(numbers: &[Option<u32>], id: NodeId) -> Option<u32>
    ensures { result ≡ number_at numbers.now id.number }
{
    match numbers.get(id.number as usize) {
        Some(number) => *number,
        None => None,
    }
}

/// Puts the lines of a node: a line for each step of its block, and the line of its end.
fn put_node<D: Desk>(node: &Node, number: Option<u32>, desk: &mut D) -> Result<(), Failed>
    requires { IsWriting (D.outside desk.old).calls }
    ensures { Appends File (D.outside desk.old)
        (text_of (node_lines node.now number)) result (D.outside desk.new) }
{
    put_steps(&node.block, desk)?;
    put_last(node.end, number, desk)
}

/// Puts the line of a node's end.
fn put_last<D: Desk>(end: End, number: Option<u32>, desk: &mut D) -> Result<(), Failed>
    requires { IsWriting (D.outside desk.old).calls }
    ensures { Appends File (D.outside desk.old)
        (bytes_of (last_line end number)) result (D.outside desk.new) }
{
    match end {
        End::Free => put_leaf(number, desk),
        End::Shut | End::Split { .. } => put_end(end, desk),
    }
}

/// Puts the last line of an open leaf: the number of its listed assignment, or that it is open.
fn put_leaf<D: Desk>(number: Option<u32>, desk: &mut D) -> Result<(), Failed>
    requires { IsWriting (D.outside desk.old).calls }
    ensures { Appends File (D.outside desk.old)
        (bytes_of (leaf_line number)) result (D.outside desk.new) }
{
    match number {
        Some(number) => write_number(Channel::File, "listed", u64::from(number), desk),
        None => write_line(Channel::File, &[Word::Name("open")], desk),
    }
}
