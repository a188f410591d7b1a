//! The lines of what was done.

ghost use Rattle.std.specs.Prelude.{map};
ghost use Rattle.cfn_desk.specs.Outside.{IsWriting};
ghost use Rattle.cfn_line.specs.Appending.{Appends};
ghost use Rattle.cfn_line.specs.declared.channel.Channel.TheVariants.{File};
ghost use Rattle.cfn_record.specs.Lines.{Back, Give, Recall, Sweep, Take, bytes_of, lines_of_entries, lines_of_entry, text_of};
ghost use Rattle.cfn_record.specs.Histories.{entry_of};

use crate::record_nodes::put_tree;
use cfn_desk::{Desk, Failed};
use cfn_line::{Channel, Word, write_line};
use cfn_record::Happened;

/// Puts the lines of all that was done.
pub fn put_entries<D: Desk>(happened: &[Happened], desk: &mut D) -> Result<(), Failed>
    requires { IsWriting (D.outside desk.old).calls }
    ensures { Appends File (D.outside desk.old)
        (text_of (lines_of_entries (map entry_of happened.now))) result (D.outside desk.new) }
{
    for done in happened {
        put_entry(done, desk)?;
    }
    Ok(())
}

/// Puts the lines of one thing that was done: one line, and behind it those of a piece.
fn put_entry<D: Desk>(happened: &Happened, desk: &mut D) -> Result<(), Failed>
    requires { IsWriting (D.outside desk.old).calls }
    ensures { Appends File (D.outside desk.old)
        (text_of (lines_of_entry (entry_of happened.now))) result (D.outside desk.new) }
{
    match happened {
        Happened::Took {
            worker,
            want,
            leaf,
            grant,
        } => put_take(*worker, *want, *leaf, *grant, desk),
        Happened::Gave {
            worker,
            leaf,
            grant,
            threshold,
            seen,
            tree,
        } => {
            put_give(*worker, *leaf, *grant, *threshold, *seen, desk)?;
            put_tree(tree, desk)
        }
        Happened::Freed {
            worker,
            leaf,
            grant,
        } => put_back(*worker, *leaf, *grant, desk),
        Happened::CalledBack => put_recall(desk),
        Happened::Swept { seen } => put_sweep(*seen, desk),
    }
}

/// Puts the line of a leaf that was taken.
fn put_take<D: Desk>(
    worker: u32,
    want: u64,
    leaf: u64,
    grant: u64,
    desk: &mut D,
) -> Result<(), Failed>
    requires { IsWriting (D.outside desk.old).calls }
    ensures { Appends File (D.outside desk.old)
        (bytes_of (Take worker want leaf grant)) result (D.outside desk.new) }
{
    let words = [
        Word::Name("take"),
        Word::Number(u64::from(worker)),
        Word::Number(want),
        Word::Number(leaf),
        Word::Number(grant),
    ];
    write_line(Channel::File, &words, desk)
}

/// Puts the line of a piece that was given, without those of its tree.
fn put_give<D: Desk>(
    worker: u32,
    leaf: u64,
    grant: u64,
    threshold: u64,
    seen: u64,
    desk: &mut D,
) -> Result<(), Failed>
    requires { IsWriting (D.outside desk.old).calls }
    ensures { Appends File (D.outside desk.old)
        (bytes_of (Give worker leaf grant threshold seen)) result (D.outside desk.new) }
{
    let words = [
        Word::Name("give"),
        Word::Number(u64::from(worker)),
        Word::Number(leaf),
        Word::Number(grant),
        Word::Number(threshold),
        Word::Number(seen),
    ];
    write_line(Channel::File, &words, desk)
}

/// Puts the line of a leaf that was given back.
fn put_back<D: Desk>(worker: u32, leaf: u64, grant: u64, desk: &mut D) -> Result<(), Failed>
    requires { IsWriting (D.outside desk.old).calls }
    ensures { Appends File (D.outside desk.old)
        (bytes_of (Back worker leaf grant)) result (D.outside desk.new) }
{
    let words = [
        Word::Name("back"),
        Word::Number(u64::from(worker)),
        Word::Number(leaf),
        Word::Number(grant),
    ];
    write_line(Channel::File, &words, desk)
}

/// Puts the line of the call for all leaves.
fn put_recall<D: Desk>(desk: &mut D) -> Result<(), Failed>
    requires { IsWriting (D.outside desk.old).calls }
    ensures { Appends File (D.outside desk.old) (bytes_of Recall) result (D.outside desk.new) }
{
    write_line(Channel::File, &[Word::Name("recall")], desk)
}

/// Puts the line of a sweep.
fn put_sweep<D: Desk>(seen: u64, desk: &mut D) -> Result<(), Failed>
    requires { IsWriting (D.outside desk.old).calls }
    ensures { Appends File (D.outside desk.old) (bytes_of (Sweep seen)) result (D.outside desk.new) }
{
    write_line(
        Channel::File,
        &[Word::Name("sweep"), Word::Number(seen)],
        desk,
    )
}
