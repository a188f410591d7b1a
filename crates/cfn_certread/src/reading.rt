//! A certificate's text as a whole.

ghost use Rattle.std.specs.Prelude.{◌≡◌, [], ◌∷◌, IfOk, IfErr};
ghost use Rattle.cfn_model.specs.Certificate.{Certificate};
ghost use Rattle.cfn_model.specs.Text.{Spells};
ghost use Rattle.cfn_fault.specs.Lines as lines;
ghost use Rattle.cfn_certread.specs.Reading.{IsAnswer, IsExact, IsRead, IsStop, Stands};

use crate::certificate::ReadCertificate;
use crate::head::{best, head};
use crate::nodes::tree;
use crate::stop::Stop;
use cfn_certtext::{Reader, TextFault};
use std::alloc::{AllocError, Global};

/// Reads the text of a certificate, of either version. Its numbers and its best assignment are as the text has them. Its
/// tree is the text's, but that at the first step or decision with a number of 2^32 or more a block ends, and its node is
/// an open leaf: no network has such a number in range.
///
/// It takes memory for the values, for the nodes with their steps, and for the second sides of splits that are to come.
/// The inner answer is a fault exactly where the text spells no certificate: the first line, counted from 1, that follows
/// the lines before it in no certificate. An `Err` is want of memory, and leaves nothing.
pub fn read(alloc: Global, text: &[u8]) -> Result<Result<ReadCertificate, TextFault>, AllocError>
    ensures answer { IfOk result (IsAnswer text.now) }
    ensures exact { IfOk result (IsExact text.now) }
{
    let mut reader = Reader::new(text);
    match certificate(alloc, &mut reader) {
        Ok(read) => Ok(Ok(read)),
        Err(Stop::Text(fault)) => Ok(Err(fault)),
        Err(Stop::Memory) => Err(AllocError),
    }
}

/// Reads all lines of a text, one after another.
fn certificate(alloc: Global, reader: &mut Reader<'_>) -> Result<ReadCertificate, Stop>
    requires { Stands reader.old [] lines.AtVersion }
    ensures read { IfOk result (λ read. (c : Certificate) × Spells c reader.old.text × IsRead c read) }
    ensures stop { IfErr result (IsStop reader.old.text) }
{
    let head = head(reader)?;
    let best = best(alloc, reader)?;
    let tree = tree(alloc, reader)?;
    Ok(ReadCertificate {
        variables: head.variables,
        functions: head.functions,
        upper: head.upper,
        best,
        lower: head.lower,
        tree,
    })
}
