//! The whole text of a certificate.

ghost use Rattle.std.specs.Prelude.{◌≡◌, [], ◌∷◌, None, Some, codes, decimal};
ghost use Rattle.cfn_model.specs.Text.{best_lines, head_lines, line, spelling, text};
ghost use Rattle.cfn_desk.specs.Outside.{IsWriting};
ghost use Rattle.cfn_line.specs.Appending.{Appends};
ghost use Rattle.cfn_line.specs.declared.channel.Channel.TheVariants.{File};
ghost use Rattle.cfn_proof.specs.Certificates.{certificate_of, solution_of};

use crate::walk::put_tree;
use cfn_desk::{Desk, Failed};
use cfn_line::{Channel, Word, write_line, write_list};
use cfn_net::Scored;
use cfn_proof::Certificate;

/// Puts the text of a certificate, version 2, behind the bytes of the file that the desk is writing. Each word is
/// one put, together with the space or LF behind it. It takes no memory.
///
/// An `Err` is a put that failed: some front of the text came behind the bytes, and the rest was not tried.
pub fn write<D: Desk>(certificate: &Certificate, desk: &mut D) -> Result<(), Failed>
    requires { IsWriting (D.outside desk.old).calls }
    ensures { Appends File (D.outside desk.old)
        (spelling (certificate_of certificate.now)) result (D.outside desk.new) }
{
    put_head(certificate, desk)?;
    write_line(Channel::File, &[Word::Name("tree")], desk)?;
    put_tree(&certificate.tree, desk)?;
    write_line(Channel::File, &[Word::Name("end")], desk)
}

/// Puts the lines before the tree.
fn put_head<D: Desk>(certificate: &Certificate, desk: &mut D) -> Result<(), Failed>
    requires { IsWriting (D.outside desk.old).calls }
    ensures { Appends File (D.outside desk.old)
        (text (head_lines (certificate_of certificate.now))) result (D.outside desk.new) }
{
    write_line(
        Channel::File,
        &[Word::Name("wcspcert"), Word::Name("2")],
        desk,
    )?;
    put_network(certificate, desk)?;
    write_line(
        Channel::File,
        &[Word::Name("lower"), Word::Number(certificate.lower)],
        desk,
    )?;
    put_best(&certificate.best, desk)
}

/// Puts the line of the network's numbers. It takes no memory. An `Err` is a put that failed behind some front of it.
pub fn put_network<D: Desk>(certificate: &Certificate, desk: &mut D) -> Result<(), Failed>
    requires { IsWriting (D.outside desk.old).calls }
    ensures { Appends File (D.outside desk.old)
        (line (codes "network" ∷ decimal certificate.now.variables ∷ decimal certificate.now.functions
        ∷ decimal certificate.now.upper ∷ [])) result (D.outside desk.new) }
{
    let words = [
        Word::Name("network"),
        Word::Number(u64::from(certificate.variables)),
        Word::Number(u64::from(certificate.functions)),
        Word::Number(certificate.upper),
    ];
    write_line(Channel::File, &words, desk)
}

/// Puts the lines of the best assignment that is known. It takes no memory. An `Err` is a put that failed behind some front of
/// them.
pub fn put_best<D: Desk>(best: &Option<Scored>, desk: &mut D) -> Result<(), Failed>
    requires { IsWriting (D.outside desk.old).calls }
    ensures { Appends File (D.outside desk.old)
        (text (best_lines (solution_of best.now))) result (D.outside desk.new) }
{
    match best {
        Some(scored) => put_scored(scored, desk),
        None => put_none(desk),
    }
}

/// Puts the lines of what a buffer holds.
fn put_scored<D: Desk>(scored: &Scored, desk: &mut D) -> Result<(), Failed>
    requires { IsWriting (D.outside desk.old).calls }
    ensures { Appends File (D.outside desk.old)
        (text (best_lines scored.now.held)) result (D.outside desk.new) }
{
    match scored.values() {
        Some(values) => put_solution(scored.price(), values, desk),
        None => put_none(desk),
    }
}

/// Puts the line that says that no assignment is known.
fn put_none<D: Desk>(desk: &mut D) -> Result<(), Failed>
    requires { IsWriting (D.outside desk.old).calls }
    ensures { Appends File (D.outside desk.old) (text (best_lines None)) result (D.outside desk.new) }
{
    write_line(
        Channel::File,
        &[Word::Name("best"), Word::Name("none")],
        desk,
    )
}

/// Puts the lines of an assignment with its cost.
fn put_solution<D: Desk>(cost: u64, values: &[u32], desk: &mut D) -> Result<(), Failed>
    requires { IsWriting (D.outside desk.old).calls }
    ensures { Appends File (D.outside desk.old)
        (text (best_lines (Some (record { cost = cost; values = values.now })))) result (D.outside desk.new) }
{
    write_line(
        Channel::File,
        &[Word::Name("best"), Word::Number(cost)],
        desk,
    )?;
    write_list(Channel::File, "values", values, desk)
}
