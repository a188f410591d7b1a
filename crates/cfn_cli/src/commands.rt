//! The commands: which there are, the command line that clap has of them, and what was found of one by its name.

ghost use Rattle.std.specs.Prelude.{◌≡◌, Some, None, IfErr, IfOk, IsOkAnd};
ghost use Rattle.clap.specs.Words.{AddsSubcommand, found_of, rows_of, subcommand_rows_of};
ghost use Rattle.cfn_cli.specs.Request.{IsLine, IsWithin, name_of, request, request_as, request_from, request_named, solving_of};

mod check;
mod checkbest;
mod cost;
mod kbest;
mod merge;
mod migrate;
mod normal;
mod rebase;
mod recorded;
mod replay;
mod solve;
mod trial;

use crate::fault::CliFault;
pub use check::CheckArguments;
pub use checkbest::CheckBestArguments;
use clap::{ArgMatches, Command as Line};
pub use cost::CostArguments;
pub use kbest::KBestArguments;
pub use merge::MergeArguments;
pub use migrate::MigrateArguments;
pub use normal::NormalArguments;
pub use rebase::RebaseArguments;
pub use recorded::RecordedArguments;
pub use replay::ReplayArguments;
pub use solve::SolveArguments;
use std::alloc::{AllocError, Global};
pub use trial::TrialArguments;

/// A command, with all that its words say.
#[derive(Drop)]
pub enum Command {
    /// `solve FILE CERT [--workers W] [--budget B] [--seconds S] [--wcnf] [--progress]`
    Solve(SolveArguments),
    /// `solve FILE CERT [..] --record REC`
    Recorded(RecordedArguments),
    /// `check FILE CERT [--wcnf]`
    Check(CheckArguments),
    /// `cost FILE VALUES.. [--wcnf]`
    Cost(CostArguments),
    /// `normal FILE [--wcnf]`
    Normal(NormalArguments),
    /// `trial SEED SIZE [--workers W]`
    Trial(TrialArguments),
    /// `migrate FILE CERT OUT`
    Migrate(MigrateArguments),
    /// `rebase FILE OLD CERT [--workers W] [--budget B] [--seconds S] [--wcnf] [--progress] [--part I] [--parts N]`
    Rebase(RebaseArguments),
    /// `merge FILE OUT CERT.. [--wcnf]`
    Merge(MergeArguments),
    /// `replay FILE REC CERT [--wcnf]`
    Replay(ReplayArguments),
    /// `kbest FILE K CERT [--budget B] [--seconds S] [--wcnf]`
    KBest(KBestArguments),
    /// `checkbest FILE CERT [--wcnf] [--complete]`
    CheckBest(CheckBestArguments),
}

/// What a command is called.
#[derive(Clone, Copy)]
pub(crate) enum CommandName {
    /// `solve`
    Solve,
    /// `check`
    Check,
    /// `cost`
    Cost,
    /// `normal`
    Normal,
    /// `trial`
    Trial,
    /// `migrate`
    Migrate,
    /// `rebase`
    Rebase,
    /// `merge`
    Merge,
    /// `replay`
    Replay,
    /// `kbest`
    KBest,
    /// `checkbest`
    CheckBest,
}

/// The program with its commands, of which one has to be given.
pub(crate) fn command_line<'a>(alloc: Global) -> Result<Line<'a>, AllocError>
    ensures { IfOk result IsLine }
{
    let line = Ok(Line::new(alloc, "wcspsolve").subcommand_required(true));
    let line = under(line, solve::line(alloc));
    let line = under(line, check::line(alloc));
    let line = under(line, cost::line(alloc));
    let line = under(line, normal::line(alloc));
    let line = under(line, trial::line(alloc));
    let line = under(line, migrate::line(alloc));
    let line = under(line, rebase::line(alloc));
    let line = under(line, merge::line(alloc));
    let line = under(line, replay::line(alloc));
    let line = under(line, kbest::line(alloc));
    under(line, checkbest::line(alloc))
}

/// A command with one more below it, where both were built.
fn under<'a>(
    line: Result<Line<'a>, AllocError>,
    below: Result<Line<'a>, AllocError>,
) -> Result<Line<'a>, AllocError>
    ensures { IfOk result (λ new. IsOkAnd line.entry (λ old. IsOkAnd below.entry (λ sub. AddsSubcommand old sub new))) }
{
    line?.subcommand(below?)
}

/// The command that clap found.
pub(crate) fn read(alloc: Global, matches: &ArgMatches<'_>) -> Result<Command, CliFault>
    ensures command { IfOk result (λ c. request_from (subcommand_rows_of matches.now) ≡ Some (request c)) }
    ensures usage { IfErr result (λ fault. fault ≡ CliFault.Usage
        → request_from (subcommand_rows_of matches.now) ≡ None) }
    ensures within { IfOk result IsWithin }
{
    match matches.subcommand() {
        Some((name, found)) => named(alloc, name, found),
        None => Err(CliFault::Usage),
    }
}

/// The command of a name, from what clap found of it.
fn named(alloc: Global, name: &str, found: &ArgMatches<'_>) -> Result<Command, CliFault>
    ensures command { IfOk result (λ c. request_named name.now (rows_of (found_of found.now)) ≡ Some (request c)) }
    ensures usage { IfErr result (λ fault. fault ≡ CliFault.Usage
        → request_named name.now (rows_of (found_of found.now)) ≡ None) }
    ensures within { IfOk result IsWithin }
{
    match name_of(name) {
        Some(name) => read_of(alloc, name, found),
        None => Err(CliFault::Usage),
    }
}

/// The command that is called so.
fn name_of(text: &str) -> Option<CommandName>
    ensures { result ≡ name_of text.now }
{
    if text == "solve" {
        Some(CommandName::Solve)
    } else if text == "check" {
        Some(CommandName::Check)
    } else if text == "cost" {
        Some(CommandName::Cost)
    } else if text == "normal" {
        Some(CommandName::Normal)
    } else if text == "trial" {
        Some(CommandName::Trial)
    } else if text == "migrate" {
        Some(CommandName::Migrate)
    } else if text == "rebase" {
        Some(CommandName::Rebase)
    } else if text == "merge" {
        Some(CommandName::Merge)
    } else if text == "replay" {
        Some(CommandName::Replay)
    } else if text == "kbest" {
        Some(CommandName::KBest)
    } else if text == "checkbest" {
        Some(CommandName::CheckBest)
    } else {
        None
    }
}

/// A command, from what clap found of it.
fn read_of(alloc: Global, name: CommandName, found: &ArgMatches<'_>) -> Result<Command, CliFault>
    ensures command { IfOk result (λ c. request_as name (rows_of (found_of found.now)) ≡ Some (request c)) }
    ensures usage { IfErr result (λ fault. fault ≡ CliFault.Usage
        → request_as name (rows_of (found_of found.now)) ≡ None) }
    ensures within { IfOk result IsWithin }
{
    match name {
        CommandName::Solve => solving(alloc, found),
        CommandName::Check => Ok(Command::Check(check::read(alloc, found)?)),
        CommandName::Cost => Ok(Command::Cost(cost::read(alloc, found)?)),
        CommandName::Normal => Ok(Command::Normal(normal::read(alloc, found)?)),
        CommandName::Trial => Ok(Command::Trial(trial::read(found)?)),
        CommandName::Migrate => Ok(Command::Migrate(migrate::read(alloc, found)?)),
        CommandName::Rebase => Ok(Command::Rebase(rebase::read(alloc, found)?)),
        CommandName::Merge => Ok(Command::Merge(merge::read(alloc, found)?)),
        CommandName::Replay => Ok(Command::Replay(replay::read(alloc, found)?)),
        CommandName::KBest => Ok(Command::KBest(kbest::read(alloc, found)?)),
        CommandName::CheckBest => Ok(Command::CheckBest(checkbest::read(alloc, found)?)),
    }
}

/// The command `solve`, with a record where the words give one's name.
fn solving(alloc: Global, found: &ArgMatches<'_>) -> Result<Command, CliFault>
    ensures command { IfOk result (λ c. solving_of (rows_of (found_of found.now)) ≡ Some (request c)) }
    ensures usage { IfErr result (λ fault. fault ≡ CliFault.Usage
        → solving_of (rows_of (found_of found.now)) ≡ None) }
    ensures within { IfOk result IsWithin }
{
    let solve = solve::read(alloc, found)?;
    match found.get_str("record") {
        Some(name) => Ok(Command::Recorded(recorded::recorded(alloc, name, solve)?)),
        None => Ok(Command::Solve(solve)),
    }
}
