//! The whole text of a list.

ghost use Rattle.std.specs.Prelude.{◌≡◌, [], ◌∷◌, map};
ghost use Rattle.cfn_model.specs.Text.{line, text};
ghost use Rattle.cfn_fault.specs.Lines.{Numbers};
ghost use Rattle.cfn_best.specs.Lines.{Says, bytes_of, text_of};
ghost use Rattle.cfn_desk.specs.Outside.{IsWriting};
ghost use Rattle.cfn_line.specs.Appending.{Appends};
ghost use Rattle.cfn_line.specs.declared.channel.Channel.TheVariants.{File};
ghost use Rattle.cfn_ranking.specs.Certificates.{list_certificate_of, spelling};
ghost use Rattle.cfn_certwrite.specs.ListLines.{head_lines, listed_words};

use crate::list_nodes::put_tree;
use crate::number::write_number;
use cfn_desk::{Desk, Failed};
use cfn_line::{Channel, Word, write_line, write_list_behind};
use cfn_ranking::{BestCertificate, Listed};

/// Puts the text of a list behind the bytes of the file that the desk is writing. Each word is one put, together with the
/// space or LF behind it. It takes no memory.
///
/// An `Err` is a put that failed: some front of the text came behind the bytes, and the rest was not tried.
pub fn write_best<D: Desk>(certificate: &BestCertificate, desk: &mut D) -> Result<(), Failed>
    requires { IsWriting (D.outside desk.old).calls }
    ensures { Appends File (D.outside desk.old)
        (spelling (list_certificate_of certificate.now)) result (D.outside desk.new) }
{
    put_head(certificate, desk)?;
    put_list(&certificate.list, desk)?;
    write_line(Channel::File, &[Word::Name("tree")], desk)?;
    put_tree(&certificate.tree, &certificate.numbers, desk)?;
    write_line(Channel::File, &[Word::Name("end")], desk)
}

/// Puts the lines before the listed assignments.
fn put_head<D: Desk>(certificate: &BestCertificate, desk: &mut D) -> Result<(), Failed>
    requires { IsWriting (D.outside desk.old).calls }
    ensures { Appends File (D.outside desk.old)
        (text_of (head_lines (list_certificate_of certificate.now))) result (D.outside desk.new) }
{
    write_line(
        Channel::File,
        &[Word::Name("wcspbest"), Word::Name("1")],
        desk,
    )?;
    put_network(certificate, desk)?;
    write_number(Channel::File, "count", certificate.count, desk)?;
    write_number(Channel::File, "lower", certificate.lower, desk)?;
    let list: &[Listed] = &certificate.list;
    write_number(Channel::File, "best", list.len() as u64, desk)
}

/// Puts the line of the network's numbers.
fn put_network<D: Desk>(certificate: &BestCertificate, desk: &mut D) -> Result<(), Failed>
    requires { IsWriting (D.outside desk.old).calls }
    ensures { Appends File (D.outside desk.old)
        (bytes_of (Says (Numbers certificate.now.variables certificate.now.functions certificate.now.upper)))
        result (D.outside desk.new) }
{
    let words = [
        Word::Name("network"),
        Word::Number(u64::from(certificate.variables)),
        Word::Number(u64::from(certificate.functions)),
        Word::Number(certificate.upper),
    ];
    write_line(Channel::File, &words, desk)
}

/// Puts a line for each listed assignment.
fn put_list<D: Desk>(list: &[Listed], desk: &mut D) -> Result<(), Failed>
    requires { IsWriting (D.outside desk.old).calls }
    ensures { Appends File (D.outside desk.old)
        (text (map listed_words list.now)) result (D.outside desk.new) }
{
    for listed in list {
        put_listed(listed, desk)?;
    }
    Ok(())
}

/// Puts the line of a listed assignment: its cost, and its values.
fn put_listed<D: Desk>(listed: &Listed, desk: &mut D) -> Result<(), Failed>
    requires { IsWriting (D.outside desk.old).calls }
    ensures { Appends File (D.outside desk.old)
        (line (listed_words listed.now)) result (D.outside desk.new) }
{
    write_list_behind(
        Channel::File,
        &[Word::Name("values"), Word::Number(listed.cost)],
        &listed.values,
        desk,
    )
}
