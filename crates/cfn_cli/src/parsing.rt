//! From words to a command.

ghost use Rattle.std.specs.Prelude.{◌≡◌, Some, None, IfErr, IfOk, map};
ghost use Rattle.cfn_cli.specs.Request.{IsWithin, request, request_of};

use crate::commands::{Command, command_line, read};
use crate::fault::{CliFault, fault_of};
use std::alloc::Global;

/// The command that the words spell, of which the first is the program's name.
///
/// Clap takes an option before, between or behind the files, and `--budget=5` for `--budget 5`. A
/// call for help is no command.
pub fn parse(alloc: Global, words: &[&str]) -> Result<Command, CliFault>
    ensures command { IfOk result (λ c. request_of (map (λ w. w.now) words.now) ≡ Some (request c)) }
    ensures usage { IfErr result (λ fault. fault ≡ CliFault.Usage
        → request_of (map (λ w. w.now) words.now) ≡ None) }
    ensures within { IfOk result IsWithin }
{
    let line = command_line(alloc)?;
    match line.try_get_matches_from(words) {
        Ok(matches) => read(alloc, &matches),
        Err(error) => Err(fault_of(&error)),
    }
}
