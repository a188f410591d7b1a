//! The command `merge`.

ghost use Rattle.std.specs.Prelude.{◌≡◌, ◌<◌, false, Some, None, IfErr, IfOk, length, map, string_bytes};
ghost use Rattle.clap.specs.Words.{found_of, rows_of, rule_of};
ghost use Rattle.cfn_cli.specs.Building.{Builds};
ghost use Rattle.cfn_cli.specs.Request.Merging.{IsMergeWithin, certificates_rule, merge_app, merge_in, merge_of, names_of, spoken_merge};

use crate::arguments::{file, out, wcnf, with};
use crate::fault::CliFault;
use crate::format::Format;
use crate::found::{format, text};
use clap::{Arg, ArgAction, ArgMatches, Command};
use std::alloc::{AllocError, Global};

/// Certificates to merge into one, and the file that they are for.
#[derive(Drop)]
pub struct MergeArguments {
    /// The name of the file that the network is read from.
    pub file: String,
    /// The name of the file that the merged certificate is written to. It is not the network's file.
    pub out: String,
    /// The names of the files that certificates are read from, in the order in which they are merged: at least one.
    pub certificates: Vec<String>,
    /// The format of the file: wcnf exactly where the words say so.
    pub format: Format,
}

pub(crate) fn line<'a>(alloc: Global) -> Result<Command<'a>, AllocError>
    ensures { IfOk result (Builds merge_app) }
{
    let line = Ok(Command::new(alloc, "merge"));
    let line = with(line, file(alloc));
    let line = with(line, out(alloc));
    let line = with(line, certificates(alloc));
    with(line, wcnf(alloc))
}

#[tactic(auto, unfolding(crate::specs::Request::Merging::certificates_rule))]
fn certificates<'a>(alloc: Global) -> Arg<'a>
    ensures rule { rule_of result ≡ certificates_rule }
    ensures local { result.global ≡ false }
{
    Arg::new(alloc, "certificates")
        .required(true)
        .action(ArgAction::Append)
}

/// What is asked of `merge`, which writes to another name than its file's.
pub(crate) fn read(alloc: Global, found: &ArgMatches<'_>) -> Result<MergeArguments, CliFault>
    ensures arguments { IfOk result (λ m. merge_of (rows_of (found_of found.now)) ≡ Some (spoken_merge m)) }
    ensures usage { IfErr result (λ fault. fault ≡ CliFault.Usage
        → merge_of (rows_of (found_of found.now)) ≡ None) }
    ensures within { IfOk result IsMergeWithin }
{
    let ask = arguments(alloc, found)?;
    if ask.file.as_str() == ask.out.as_str() {
        return Err(CliFault::Usage);
    }
    Ok(ask)
}

/// What the arguments of `merge` say.
fn arguments(alloc: Global, found: &ArgMatches<'_>) -> Result<MergeArguments, CliFault>
    ensures arguments { IfOk result (λ m. merge_in (rows_of (found_of found.now)) ≡ Some (spoken_merge m)) }
    ensures usage { IfErr result (λ fault. fault ≡ CliFault.Usage
        → merge_in (rows_of (found_of found.now)) ≡ None) }
    ensures within { IfOk result IsMergeWithin }
{
    let file = text(found, "file")?;
    let first = text(found, "out")?;
    let Some(texts) = found.get_strs("certificates") else {
        return Err(CliFault::Usage);
    };
    let certificates = names_in(alloc, texts)?;
    Ok(MergeArguments {
        file: String::from_str(alloc, file)?,
        out: String::from_str(alloc, first)?,
        certificates,
        format: format(found),
    })
}

/// The names that the texts are, of which there has to be one.
fn names_in(alloc: Global, texts: &[&str]) -> Result<Vec<String>, CliFault>
    ensures names { IfOk result (λ names. names_of (map (λ t. t.now) texts.now) ≡ Some (map (λ name. string_bytes name) names.items)) }
    ensures usage { IfErr result (λ fault. fault ≡ CliFault.Usage
        → names_of (map (λ t. t.now) texts.now) ≡ None) }
    ensures some { IfOk result (λ names. 0 < length names.items) }
{
    if texts.is_empty() {
        return Err(CliFault::Usage);
    }
    let mut names = Vec::with_capacity(alloc, texts.len())?;
    for text in texts {
        names.push(String::from_str(alloc, text)?)?;
    }
    Ok(names)
}
