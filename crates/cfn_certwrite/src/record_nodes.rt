//! The lines of a piece's tree, which are those that it has in a certificate.

ghost use Rattle.std.specs.Prelude.{◌≡◌, ◌+◌, ◌<◌, ◌≤◌, [], ◌∷◌, ◌++◌, decimal, length, map};
ghost use Rattle.cfn_certwrite.specs.Walk.{end_words, node_lines};
ghost use Rattle.cfn_desk.specs.Outside.{IsWriting};
ghost use Rattle.cfn_line.specs.Appending.{Appends};
ghost use Rattle.cfn_line.specs.declared.channel.Channel.TheVariants.{File};
ghost use Rattle.cfn_model.specs.Text.{decision_words, line, step_words, text, tree_lines};
ghost use Rattle.cfn_proof.specs.Nodes.{tree_of};
ghost use Rattle.cfn_certwrite.specs.Batches.{Gathers};

use crate::batch::Batch;
use crate::next_node;
use cfn_desk::{Desk, Failed};
use cfn_proof::{Block, Decision, End, Node, Step, Tree};

/// Puts the lines of a tree, many of them by one put. It takes no memory. An `Err` is a put that failed behind some front
/// of them.
pub(crate) fn put_tree<D: Desk>(tree: &Tree, desk: &mut D) -> Result<(), Failed>
    requires { IsWriting (D.outside desk.old).calls }
    ensures { Appends File (D.outside desk.old)
        (text (tree_lines (tree_of tree.now))) result (D.outside desk.new) }
{
    tree.law_linked();
    let mut batch = Batch::new();
    let mut next = Some(Tree::ROOT);
    while let Some(id) = next {
        gather_node(tree.node(id), &mut batch, desk)?;
        next = next_node(tree, id);
    }
    batch.flush(desk)
}

/// Gathers the lines of a node: a line for each step of its block, and the line of its end.
fn gather_node<D: Desk>(node: &Node, batch: &mut Batch, desk: &mut D) -> Result<(), Failed>
    requires { IsWriting (D.outside desk.old).calls }
    ensures { Gathers (D.outside desk.old)
        (batch.old ++ text (node_lines node.now)) result (D.outside desk.new) batch.new }
{
    gather_steps(&node.block, batch, desk)?;
    batch.make_room(desk)?;
    add_end(node.end, batch);
    Ok(())
}

/// Gathers a line for each step of a block.
fn gather_steps<D: Desk>(block: &Block, batch: &mut Batch, desk: &mut D) -> Result<(), Failed>
    requires { IsWriting (D.outside desk.old).calls }
    ensures { Gathers (D.outside desk.old)
        (batch.old ++ text (map step_words block.now)) result (D.outside desk.new) batch.new }
{
    for step in block.cursor() {
        batch.make_room(desk)?;
        add_step(step, batch);
    }
    Ok(())
}

/// Adds the line of a step, of at most 86 bytes.
#[inline(always)]
fn add_step(step: Step, batch: &mut Batch)
    requires { length batch.old + 96 ≤ 4096 }
    ensures { batch.new ≡ batch.old ++ line (step_words step) }
{
    match step {
        Step::Project {
            function,
            place,
            value,
            amount,
        } => batch.add_four(
            b'p',
            u64::from(function),
            u64::from(place),
            u64::from(value),
            amount,
        ),
        Step::Extend {
            function,
            place,
            value,
            amount,
        } => batch.add_four(
            b'e',
            u64::from(function),
            u64::from(place),
            u64::from(value),
            amount,
        ),
        Step::Lift { variable, amount } => batch.add_two(
            &[b'u', b' '],
            u64::from(variable),
            amount,
        ),
        Step::CutValue { variable, value } => batch.add_two(
            &[b'v', b' '],
            u64::from(variable),
            u64::from(value),
        ),
        Step::CutTuple { function, cell } => batch.add_two(
            &[b't', b' '],
            u64::from(function),
            u64::from(cell),
        ),
    }
}

/// Adds the line of a node's end.
fn add_end(end: End, batch: &mut Batch)
    requires { length batch.old + 96 ≤ 4096 }
    ensures { batch.new ≡ batch.old ++ line (end_words end) }
{
    match end {
        End::Free => batch.add(b"open\n"),
        End::Shut => batch.add(b"closed\n"),
        End::Split { decision, .. } => add_decision(decision, batch),
    }
}

/// Adds the line of a split: `split` by a value, and `part` by a bound.
fn add_decision(decision: Decision, batch: &mut Batch)
    requires { length batch.old + 96 ≤ 4096 }
    ensures { batch.new ≡ batch.old ++ line (decision_words decision) }
{
    match decision {
        Decision::Is { variable, value } => batch.add_two(
            b"split ",
            u64::from(variable),
            u64::from(value),
        ),
        Decision::Most { variable, value } => batch.add_two(
            b"part ",
            u64::from(variable),
            u64::from(value),
        ),
    }
}
