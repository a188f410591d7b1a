//! The lines of one node: its block of steps, and how it ends.

ghost use Rattle.std.specs.Prelude.{◌≡◌, [], ◌∷◌, ◌++◌, decimal, map};
ghost use Rattle.cfn_model.specs.Text.{decision_words, line, step_words, text};
ghost use Rattle.cfn_certwrite.specs.Walk.{end_words, node_lines};
ghost use Rattle.cfn_desk.specs.Outside.{IsWriting};
ghost use Rattle.cfn_line.specs.Appending.{Appends};
ghost use Rattle.cfn_line.specs.declared.channel.Channel.TheVariants.{File};

use cfn_desk::{Desk, Failed};
use cfn_line::{Channel, Word, write_line};
use cfn_proof::{Block, Decision, End, Node, Step};

/// Puts the lines of a node: a line for each step of its block, and the line of its end.
pub fn put_node<D: Desk>(node: &Node, desk: &mut D) -> Result<(), Failed>
    requires { IsWriting (D.outside desk.old).calls }
    ensures { Appends File (D.outside desk.old)
        (text (node_lines node.now)) result (D.outside desk.new) }
{
    put_steps(&node.block, desk)?;
    put_end(node.end, desk)
}

/// Puts a line for each step of a block. It takes no memory. An `Err` is a put that failed behind some front of them.
pub fn put_steps<D: Desk>(block: &Block, desk: &mut D) -> Result<(), Failed>
    requires { IsWriting (D.outside desk.old).calls }
    ensures { Appends File (D.outside desk.old)
        (text (map step_words block.now)) result (D.outside desk.new) }
{
    for step in block.cursor() {
        put_step(step, desk)?;
    }
    Ok(())
}

/// Puts the line of a step.
fn put_step<D: Desk>(step: Step, desk: &mut D) -> Result<(), Failed>
    requires { IsWriting (D.outside desk.old).calls }
    ensures { Appends File (D.outside desk.old)
        (line (step_words step)) result (D.outside desk.new) }
{
    match step {
        Step::Project {
            function,
            place,
            value,
            amount,
        } => put_shift("p", [function, place, value], amount, desk),
        Step::Extend {
            function,
            place,
            value,
            amount,
        } => put_shift("e", [function, place, value], amount, desk),
        Step::Lift { variable, amount } => put_pair("u", variable, amount, desk),
        Step::CutValue { variable, value } => put_pair("v", variable, u64::from(value), desk),
        Step::CutTuple { function, cell } => put_pair("t", function, u64::from(cell), desk),
    }
}

/// Puts the line of a project or an extend: its letter, function, place, value and amount.
fn put_shift<D: Desk>(
    letter: &'static str,
    numbers: [u32; 3],
    amount: u64,
    desk: &mut D,
) -> Result<(), Failed>
    requires { IsWriting (D.outside desk.old).calls }
    ensures { Appends File (D.outside desk.old)
        (line (letter.now ∷ (map decimal numbers ++ decimal amount ∷ []))) result (D.outside desk.new) }
{
    let [function, place, value] = numbers;
    let words = [
        Word::Name(letter),
        Word::Number(u64::from(function)),
        Word::Number(u64::from(place)),
        Word::Number(u64::from(value)),
        Word::Number(amount),
    ];
    write_line(Channel::File, &words, desk)
}

/// Puts a line of a name and two numbers.
fn put_pair<D: Desk>(
    name: &'static str,
    first: u32,
    second: u64,
    desk: &mut D,
) -> Result<(), Failed>
    requires { IsWriting (D.outside desk.old).calls }
    ensures { Appends File (D.outside desk.old)
        (line (name.now ∷ decimal first ∷ decimal second ∷ [])) result (D.outside desk.new) }
{
    let words = [
        Word::Name(name),
        Word::Number(u64::from(first)),
        Word::Number(second),
    ];
    write_line(Channel::File, &words, desk)
}

/// Puts the line of a node's end. It takes no memory. An `Err` is a put that failed behind some front of it.
pub fn put_end<D: Desk>(end: End, desk: &mut D) -> Result<(), Failed>
    requires { IsWriting (D.outside desk.old).calls }
    ensures { Appends File (D.outside desk.old)
        (line (end_words end)) result (D.outside desk.new) }
{
    match end {
        End::Free => write_line(Channel::File, &[Word::Name("open")], desk),
        End::Shut => write_line(Channel::File, &[Word::Name("closed")], desk),
        End::Split { decision, .. } => put_decision(decision, desk),
    }
}

/// Puts the line of a split: `split` by a value, and `part` by a bound.
fn put_decision<D: Desk>(decision: Decision, desk: &mut D) -> Result<(), Failed>
    requires { IsWriting (D.outside desk.old).calls }
    ensures { Appends File (D.outside desk.old)
        (line (decision_words decision)) result (D.outside desk.new) }
{
    match decision {
        Decision::Is { variable, value } => put_pair("split", variable, u64::from(value), desk),
        Decision::Most { variable, value } => put_pair("part", variable, u64::from(value), desk),
    }
}
