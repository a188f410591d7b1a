//! The program: the words of its command line, real files, standard output, lines of progress on standard error, and the one
//! call that does all.
#![tactic(auto)]

ghost use Rattle.std.specs.Prelude.{◌≡◌, [], IfOk};
ghost use Rattle.wcspsolve.specs.Ending.{Ended, Ran};

use cfn_app::{Status, run};
use cfn_desk::HostDesk;
use cfn_report::Progress;
use std::alloc::{AllocError, AllocGlobal, Global};
use std::env;
use std::env::{Args, Env};
use std::fs::Files;
use std::io::{Eprint, ErrorKind, IsTerminal, Print};
use std::process::{ExitCode, Termination};
use std::sync::Wait;
use std::thread::Threads;
use std::time::Clock;

/// The number that the program ends with. It keeps that a run ended so.
#[derive(Drop)]
struct Exit {
    number: u8,
    ghost ended: { ∥ Ended number ∥₁ },
}

impl Termination for Exit {
    ghost use Rattle.std.specs.Prelude.{◌≡◌};
    ghost use Rattle.std.specs.Process.{exit_status};

    fn report<R: Eprint>(self, _rt: &R) -> ExitCode
        ensures { exit_status result ≡ self.number }
    {
        ExitCode::from(self.number)
    }
}

fn main(rt: HostRuntime) -> Exit {
    let terminal = rt.stderr().is_terminal();
    Exit {
        number: exit_number(&rt, terminal),
    }
}

/// Runs the program, and answers the number of its status, or 6 where memory was refused before there was a run. `terminal` is
/// whether standard error is a terminal.
fn exit_number<R: Env + AllocGlobal + Files + Print + Eprint + Clock + Threads + Wait + Sync>(
    rt: &R,
    terminal: bool,
) -> u8
    ensures { Ended result }
{
    match end_of(rt, terminal) {
        Ok(status) => status.code(),
        Err(AllocError) => Status::NoMemory.code(),
    }
}

/// Runs the program on the words of its command line. Words that are not UTF-8 are no command. An `Err` is want of
/// memory before there was a run.
fn end_of<R: Env + AllocGlobal + Files + Print + Eprint + Clock + Threads + Wait + Sync>(
    rt: &R,
    terminal: bool,
) -> Result<Status, AllocError>
    ensures { IfOk result (λ status. Ran status) }
{
    let progress = Progress::new(rt, terminal);
    let mut desk = HostDesk::make(rt)?;
    let ended = run_over(rt, &mut desk, &progress);
    drop(desk);
    ended
}

/// The same over a desk that nobody called yet.
fn run_over<R: Env + AllocGlobal + Files + Print + Eprint + Clock + Threads + Wait + Sync>(
    rt: &R,
    desk: &mut HostDesk<R>,
    progress: &Progress<'_, R>,
) -> Result<Status, AllocError>
    requires { desk.old.calls ≡ [] }
    ensures { IfOk result (λ status. Ran status) }
{
    match env::args(rt) {
        Ok(words) => run_words(rt, words, desk, progress),
        Err(e) if e.kind() == ErrorKind::OutOfMemory => Err(AllocError),
        Err(_) => Ok(run(rt, rt.alloc(), &[], desk, progress, rt)),
    }
}

/// Runs the program on words.
fn run_words<R: AllocGlobal + Files + Print + Eprint + Clock + Threads + Wait + Sync>(
    rt: &R,
    words: Args,
    desk: &mut HostDesk<R>,
    progress: &Progress<'_, R>,
) -> Result<Status, AllocError>
    requires { desk.old.calls ≡ [] }
    ensures { IfOk result (λ status. Ran status) }
{
    let kept = kept(rt.alloc(), words)?;
    let ended = run_kept(rt, &kept, desk, progress);
    drop(kept);
    ended
}

/// The words, to lend them from.
fn kept(alloc: Global, words: Args) -> Result<Vec<String>, AllocError> {
    let mut kept = Vec::new(alloc);
    for word in words {
        kept.push(word)?;
    }
    Ok(kept)
}

/// Runs the program on words that are kept.
fn run_kept<R: AllocGlobal + Files + Print + Eprint + Clock + Threads + Wait + Sync>(
    rt: &R,
    kept: &[String],
    desk: &mut HostDesk<R>,
    progress: &Progress<'_, R>,
) -> Result<Status, AllocError>
    requires { desk.old.calls ≡ [] }
    ensures { IfOk result (λ status. Ran status) }
{
    let words = lent(rt.alloc(), kept)?;
    Ok(run(rt, rt.alloc(), &words, desk, progress, rt))
}

/// The words as they are lent.
fn lent<'a>(alloc: Global, kept: &'a [String]) -> Result<Vec<&'a str>, AllocError> {
    let mut lent = Vec::new(alloc);
    for word in kept {
        lent.push(word.as_str())?;
    }
    Ok(lent)
}
