//! What a certificate's text comes to that is to be merged.

ghost use Rattle.std.specs.Prelude.{◌≡◌, ℕ, ◌<◌, ◌^◌, length, slice_index, IfOk};
ghost use Rattle.cfn_model.specs.Certificate.{Certificate, Good, IsBest};
ghost use Rattle.cfn_certread.specs.Reading.{solution_of};
ghost use Rattle.cfn_model.specs.Text.{Spells};
ghost use Rattle.cfn_merge.specs.Judging.{HasFound, IsJudged};

use crate::Findings;
use cfn_certread::{Best, read};
use cfn_check::{Check, check};
use cfn_fault::FaultKind;
use cfn_net::{Network, Scored};
use std::alloc::{AllocError, Global};

/// What a text is judged to be.
#[derive(Drop)]
pub enum Judged {
    /// It is a good certificate, which has found this.
    Good(Findings),
    /// This line, counted from 1, is the first that fails, and fails so.
    Refused { kind: FaultKind, line: u64 },
}

/// Judges the text of a certificate of a network, of either version, as `check` does, and reads it where it is good: nothing of it
/// is lost. An `Err` is want of memory, or of numbers for nodes.
pub fn judge(alloc: Global, network: &Network, text: &[u8]) -> Result<Judged, AllocError>
    ensures { IfOk result (IsJudged network.now text.now) }
{
    match check(alloc, network, text)? {
        Check::Verified { .. } => Ok(Judged::Good(found(alloc, network, text)?)),
        Check::Refused { kind, line } => Ok(Judged::Refused { kind, line }),
    }
}

/// What a good certificate has found. An `Err` is want of memory, or of numbers for nodes.
fn found(alloc: Global, network: &Network, text: &[u8]) -> Result<Findings, AllocError>
    requires { (c : Certificate) × Spells c text.now × Good network.now c }
    ensures { IfOk result (HasFound network.now text.now) }
{
    network.law_limits();
    match read(alloc, text)? {
        Ok(read) => Ok(Findings {
            best: best_of(alloc, network, &read.best)?,
            tree: read.tree,
        }),
        // A text that spells a certificate is read.
        Err(_) => unreachable!(),
    }
}

/// A buffer that holds the best assignment of a good certificate, or nothing where there is none. An `Err` is want of memory.
fn best_of(alloc: Global, network: &Network, best: &Option<Best>) -> Result<Scored, AllocError>
    requires { IsBest network.now (solution_of best.now) }
    ensures own { IfOk result (λ scored. scored.network ≡ network.now) }
    ensures held { IfOk result (λ scored. scored.held ≡ solution_of best.now) }
{
    network.law_limits();
    let mut scored = Scored::empty(alloc, network)?;
    if let Some(best) = best {
        let values = in_32_bits(alloc, &best.values)?;
        scored.fill(network, &values);
    }
    Ok(scored)
}

/// Values in 32 bits, where they are below 2^32. An `Err` is want of memory.
fn in_32_bits(alloc: Global, values: &[u64]) -> Result<Vec<u32>, AllocError>
    requires { (i : ℕ) → i < length values.now → slice_index values.now i < 2 ^ 32 }
    ensures { IfOk result (λ narrow. narrow.items ≡ values.now) }
{
    let mut narrow = Vec::with_capacity(alloc, values.len())?;
    for value in values {
        narrow.push(*value as u32)?;
    }
    Ok(narrow)
}
