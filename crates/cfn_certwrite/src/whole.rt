//! The whole text of a record.

ghost use Rattle.std.specs.Prelude.{◌≡◌};
ghost use Rattle.cfn_model.specs.Text.{IsSpelledBest};
ghost use Rattle.cfn_desk.specs.Outside.{IsWriting};
ghost use Rattle.cfn_line.specs.Appending.{Appends};
ghost use Rattle.cfn_line.specs.declared.channel.Channel.TheVariants.{File};
ghost use Rattle.cfn_proof.specs.Certificates.{solution_of};
ghost use Rattle.cfn_record.specs.Lines.{Spells, text_of};
ghost use Rattle.cfn_certwrite.specs.Records.{head_lines, recorded, spelling};

use crate::entries::put_entries;
use crate::{put_best, put_network};
use cfn_desk::{Desk, Failed};
use cfn_line::{Channel, Word, write_line};
use cfn_proof::Certificate;
use cfn_record::History;

/// Puts the text of a search's record behind the bytes of the file that the desk is writing: of its history, and of the numbers and the
/// best assignment of its certificate. That is the one spelling of the record. The lines of a piece's tree are put in stretches of at most
/// 4,096 bytes, each by one put, and in the other lines each word is one put, together with the space or LF behind it. It takes no
/// memory. A best assignment has to have a spelling, as that of a search's outcome has: its cost is at most 9,223,372,036,854,775,807,
/// and it has a value at least.
///
/// An `Err` is a put that failed: some front of the text came behind the bytes, and the rest was not tried.
pub fn write_record<D: Desk>(
    history: &History,
    certificate: &Certificate,
    desk: &mut D,
) -> Result<(), Failed>
    requires file { IsWriting (D.outside desk.old).calls }
    requires best { IsSpelledBest (solution_of certificate.now.best) }
    ensures text { Appends File (D.outside desk.old)
        (spelling (recorded history.now certificate.now)) result (D.outside desk.new) }
    ensures spells { Spells (recorded history.now certificate.now) (spelling (recorded history.now certificate.now)) }
{
    law_spelled(history, certificate);
    put_head(history.budget(), certificate, desk)?;
    put_entries(history.happened(), desk)?;
    put_best(&certificate.best, desk)?;
    write_line(Channel::File, &[Word::Name("end")], desk)
}

/// Nothing: its contract says that each number of such a record has a spelling, so that its text is its one spelling.
pub fn law_spelled(history: &History, certificate: &Certificate)
    requires { IsSpelledBest (solution_of certificate.now.best) }
    ensures { Spells (recorded history.now certificate.now) (spelling (recorded history.now certificate.now)) }
{
    history.law_spelled();
    let _variables = certificate.variables;
    let _functions = certificate.functions;
}

/// Puts the lines before what was done.
fn put_head<D: Desk>(budget: u64, certificate: &Certificate, desk: &mut D) -> Result<(), Failed>
    requires { IsWriting (D.outside desk.old).calls }
    ensures { Appends File (D.outside desk.old)
        (text_of (head_lines budget certificate.now)) result (D.outside desk.new) }
{
    write_line(
        Channel::File,
        &[Word::Name("wcsprecord"), Word::Name("1")],
        desk,
    )?;
    put_network(certificate, desk)?;
    write_line(
        Channel::File,
        &[Word::Name("budget"), Word::Number(budget)],
        desk,
    )
}
