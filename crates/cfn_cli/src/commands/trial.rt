//! The command `trial`.

ghost use Rattle.std.specs.Prelude.{◌≡◌, false, Some, None, IfErr, IfOk};
ghost use Rattle.clap.specs.Words.{found_of, rows_of, rule_of};
ghost use Rattle.cfn_cli.specs.Building.{Builds};
ghost use Rattle.cfn_cli.specs.Request.Trying.{IsTrialWithin, seed_rule, size_rule, spoken_trial, trial_app, trial_of};

use crate::arguments::{with, workers};
use crate::fault::CliFault;
use crate::found::{MOST_WORKERS, number};
use clap::{Arg, ArgMatches, Command, value_parser};
use std::alloc::{AllocError, Global};

/// The greatest seed of a drawn network.
const MOST_SEED: u64 = 65_536;

/// The most variables of a drawn network.
const MOST_SIZE: u64 = 200;

/// A drawn network to solve.
#[derive(Drop)]
pub struct TrialArguments {
    /// The seed that its costs are drawn from: 0 to 65,536.
    pub seed: u32,
    /// How many variables it has: 1 to 200.
    pub size: u32,
    /// How many workers are asked for: 1 to 64, and 1 where the words give no number.
    pub workers: u8,
}

pub(crate) fn line<'a>(alloc: Global) -> Result<Command<'a>, AllocError>
    ensures { IfOk result (Builds trial_app) }
{
    let line = Ok(Command::new(alloc, "trial"));
    let line = with(line, seed(alloc));
    let line = with(line, size(alloc));
    with(line, workers(alloc))
}

#[tactic(auto, unfolding(crate::specs::Request::Trying::seed_rule))]
fn seed<'a>(alloc: Global) -> Arg<'a>
    ensures rule { rule_of result ≡ seed_rule }
    ensures local { result.global ≡ false }
{
    Arg::new(alloc, "seed")
        .required(true)
        .value_parser(value_parser!(u64))
}

#[tactic(auto, unfolding(crate::specs::Request::Trying::size_rule))]
fn size<'a>(alloc: Global) -> Arg<'a>
    ensures rule { rule_of result ≡ size_rule }
    ensures local { result.global ≡ false }
{
    Arg::new(alloc, "size")
        .required(true)
        .value_parser(value_parser!(u64))
}

/// What is asked of `trial`.
pub(crate) fn read(found: &ArgMatches<'_>) -> Result<TrialArguments, CliFault>
    ensures arguments { IfOk result (λ t. trial_of (rows_of (found_of found.now)) ≡ Some (spoken_trial t)) }
    ensures usage { IfErr result (λ fault. fault ≡ CliFault.Usage
        → trial_of (rows_of (found_of found.now)) ≡ None) }
    ensures within { IfOk result IsTrialWithin }
{
    let seed = number(found, "seed", 0, MOST_SEED)?;
    let size = number(found, "size", 1, MOST_SIZE)?;
    let workers = number(found, "workers", 1, MOST_WORKERS)?;
    Ok(TrialArguments {
        seed: seed as u32,
        size: size as u32,
        workers: workers as u8,
    })
}
