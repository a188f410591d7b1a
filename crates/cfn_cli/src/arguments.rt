//! The arguments that commands share, as clap has them. What one command alone takes stands in that command's file.

ghost use Rattle.std.specs.Prelude.{◌≡◌, false, IfOk, IsOkAnd};
ghost use Rattle.clap.specs.Words.{AddsArg, rule_of};
ghost use Rattle.cfn_cli.specs.Arguments.{budget_rule, certificate_rule, file_rule, out_rule, progress_rule, seconds_rule, wcnf_rule, workers_rule};

use clap::{Arg, ArgAction, Command, value_parser};
use std::alloc::{AllocError, Global};

/// A command with one more argument, where it was built.
pub(crate) fn with<'a>(
    line: Result<Command<'a>, AllocError>,
    arg: Arg<'a>,
) -> Result<Command<'a>, AllocError>
    ensures { IfOk result (λ new. IsOkAnd line.entry (λ old. AddsArg old arg.entry new)) }
{
    line?.arg(arg)
}

/// FILE
#[tactic(auto, unfolding(crate::specs::Arguments::file_rule))]
pub(crate) fn file<'a>(alloc: Global) -> Arg<'a>
    ensures rule { rule_of result ≡ file_rule }
    ensures local { result.global ≡ false }
{
    Arg::new(alloc, "file").required(true)
}

/// CERT
#[tactic(auto, unfolding(crate::specs::Arguments::certificate_rule))]
pub(crate) fn certificate<'a>(alloc: Global) -> Arg<'a>
    ensures rule { rule_of result ≡ certificate_rule }
    ensures local { result.global ≡ false }
{
    Arg::new(alloc, "certificate").required(true)
}

/// OUT
#[tactic(auto, unfolding(crate::specs::Arguments::out_rule))]
pub(crate) fn out<'a>(alloc: Global) -> Arg<'a>
    ensures rule { rule_of result ≡ out_rule }
    ensures local { result.global ≡ false }
{
    Arg::new(alloc, "out").required(true)
}

/// `[--workers W]`, and 1 where it is left out
#[tactic(auto, unfolding(crate::specs::Arguments::workers_rule))]
pub(crate) fn workers<'a>(alloc: Global) -> Arg<'a>
    ensures rule { rule_of result ≡ workers_rule }
    ensures local { result.global ≡ false }
{
    Arg::new(alloc, "workers")
        .long("workers")
        .value_parser(value_parser!(u64))
        .default_value("1")
}

/// `[--budget B]`, and 2^63 - 1 where it is left out
#[tactic(auto, unfolding(crate::specs::Arguments::budget_rule))]
pub(crate) fn budget<'a>(alloc: Global) -> Arg<'a>
    ensures rule { rule_of result ≡ budget_rule }
    ensures local { result.global ≡ false }
{
    Arg::new(alloc, "budget")
        .long("budget")
        .value_parser(value_parser!(u64))
        .default_value("9223372036854775807")
}

/// `[--seconds S]`
#[tactic(auto, unfolding(crate::specs::Arguments::seconds_rule))]
pub(crate) fn seconds<'a>(alloc: Global) -> Arg<'a>
    ensures rule { rule_of result ≡ seconds_rule }
    ensures local { result.global ≡ false }
{
    Arg::new(alloc, "seconds")
        .long("seconds")
        .value_parser(value_parser!(u64))
}

/// `[--wcnf]`
#[tactic(auto, unfolding(crate::specs::Arguments::wcnf_rule))]
pub(crate) fn wcnf<'a>(alloc: Global) -> Arg<'a>
    ensures rule { rule_of result ≡ wcnf_rule }
    ensures local { result.global ≡ false }
{
    Arg::new(alloc, "wcnf")
        .long("wcnf")
        .action(ArgAction::SetTrue)
}

/// `[--progress]`
#[tactic(auto, unfolding(crate::specs::Arguments::progress_rule))]
pub(crate) fn progress<'a>(alloc: Global) -> Arg<'a>
    ensures rule { rule_of result ≡ progress_rule }
    ensures local { result.global ≡ false }
{
    Arg::new(alloc, "progress")
        .long("progress")
        .action(ArgAction::SetTrue)
}
