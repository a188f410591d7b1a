//! When something has to end.

ghost use Rattle.std.specs.Prelude.{◌≡◌, is_some};

use std::marker::Model;
use std::time::{Clock, Duration, Instant};

/// That a limit is past: a reading of the clock was not before it, or the clock could not be read. Nothing else makes one.
#[derive(Clone, Copy)]
pub struct Past {
    /// Whether the clock was read.
    read: bool,
}

/// What may have to end before it is done.
pub trait Halt {
    ghost use Rattle.std.specs.Prelude.{Bool, true, ◌≡◌, IfSome};

    /// Whether it ever may.
    ghost limited: { Self → Bool };

    /// Whether it has to end now.
    fn past(&self) -> Option<Past>
        ensures { IfSome result (λ _. limited self.now ≡ true) };
}

/// A limit of time, by a clock, or none. Contracts see whether there is one.
///
/// A clock that can't be read, or whose range ends before the limit, counts as past: what has a limit that can't be kept must
/// not go on for ever.
#[derive(Drop)]
pub struct Deadline<'a, C: Clock> {
    clock: &'a C,
    limited: bool,
    /// When it is, if the clock can tell.
    due: Option<Instant>,
}

impl<'a, C: Clock> Model for Deadline<'a, C> {
    ghost use Rattle.std.specs.Prelude.{Bool};

    ghost Value = { Bool };

    ghost view = { λ d. d.limited };
}

impl<'a, C: Clock> Deadline<'a, C> {
    /// So many seconds from now, or never.
    pub fn after(clock: &'a C, seconds: Option<u64>) -> Deadline<'a, C>
        ensures { result ≡ is_some seconds }
    {
        match seconds {
            None => Deadline {
                clock,
                limited: false,
                due: None,
            },
            Some(seconds) => Deadline {
                clock,
                limited: true,
                due: due_in(clock, seconds),
            },
        }
    }
}

/// When so many seconds have gone by. `None` where the clock can't tell.
fn due_in<C: Clock>(clock: &C, seconds: u64) -> Option<Instant> {
    match Instant::now(clock) {
        Ok(now) => now.checked_add(Duration::from_secs(seconds)),
        Err(_) => None,
    }
}

impl<'a, C: Clock> Halt for Deadline<'a, C> {
    ghost limited = { λ d. d };

    fn past(&self) -> Option<Past> {
        if !self.limited {
            return None;
        }
        let Some(due) = self.due else {
            return Some(Past { read: false });
        };
        match Instant::now(self.clock) {
            Ok(now) if now < due => None,
            Ok(_) => Some(Past { read: true }),
            Err(_) => Some(Past { read: false }),
        }
    }
}

/// No limit.
#[derive(Clone, Copy)]
pub struct Never;

impl Halt for Never {
    ghost use Rattle.std.specs.Prelude.{false};

    ghost limited = { λ _. false };

    fn past(&self) -> Option<Past> {
        None
    }
}
