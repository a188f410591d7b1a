//! A search's beginning from a certificate's text.

ghost use Rattle.std.specs.Prelude.{◌≡◌, length, IfOk, IfSome};
ghost use Rattle.cfn_machine.specs.Parts.{IsPart};
ghost use Rattle.cfn_rebase.specs.Resuming.{IsResumed, Begins};

use crate::best::kept_best;
use crate::keep;
use cfn_certread::{ReadCertificate, read};
use cfn_machine::Part;
use cfn_mending::laws::law_kept;
use cfn_net::{Network, Tables};
use cfn_search::Begin;
use std::alloc::{AllocError, Global};

/// What a certificate's text comes to.
#[derive(Drop)]
pub enum Resumed {
    /// A search may go on from this.
    Goes(Begin),
    /// It spells no certificate: this line, counted from 1, follows those before it in none.
    Refused { line: u64 },
}

/// Reads the text of a certificate of an earlier state of a network, of either version, and keeps of it what holds: its best
/// assignment, where it fits and costs less than the upper bound; and its tree, at the cost of that assignment, or at the upper
/// bound, as far as its steps are allowed and its splits take values away. An `Err` is want of memory.
pub fn resume(
    alloc: Global,
    network: &Network,
    text: &[u8],
    part: Option<Part>,
) -> Result<Resumed, AllocError>
    requires { IfSome part IsPart }
    ensures { IfOk result (IsResumed network.now part text.now) }
{
    match read(alloc, text)? {
        Ok(old) => Ok(Resumed::Goes(begin(alloc, network, text, &old, part)?)),
        Err(fault) => Ok(Resumed::Refused { line: fault.line }),
    }
}

/// What is kept of a certificate that was read from a text.
fn begin(
    alloc: Global,
    network: &Network,
    text: &[u8],
    old: &ReadCertificate,
    part: Option<Part>,
) -> Result<Begin, AllocError>
    requires { IfSome part IsPart }
    ensures { IfOk result (Begins network.now part text.now old.now) }
{
    network.law_limits();
    law_kept();
    let _bytes = length_of(text);
    let best = kept_best(alloc, network, &old.best)?;
    best.law_priced();
    let tables = Tables::expand(alloc, network)?;
    let tree = keep(alloc, network, &tables, &old.tree, best.price())?;
    Ok(Begin {
        tree,
        best,
        part,
        recorded: false,
    })
}

/// How many bytes a text has.
fn length_of(text: &[u8]) -> usize
    ensures { result ≡ length text.now }
{
    text.len()
}
