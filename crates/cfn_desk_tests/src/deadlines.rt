//! When a limit of time is past.

use cfn_explore::{Deadline, Halt};
use std::cell::Cell;
use std::io;
use std::io::ErrorKind;
use std::test::*;
use std::time::{Clock, Duration};

/// A clock that shows what a test sets, or can't be read.
#[derive(Drop)]
struct Set {
    time: Cell<Option<Duration>>,
}

impl Set {
    fn at(time: Duration) -> Set {
        Set {
            time: Cell::new(Some(time)),
        }
    }
}

impl Clock for Set {
    fn monotonic(&self) -> io::Result<Duration> {
        self.time.get().ok_or(io::Error::from(ErrorKind::Other))
    }

    fn since_1970(&self) -> io::Result<Duration> {
        self.monotonic()
    }
}

/// Whether a limit of two seconds, or none, is past after so many milliseconds of a clock that began at 5 seconds.
fn is_past_after(seconds: Option<u64>, millis: u64) -> bool {
    let clock = Set::at(Duration::from_secs(5));
    let deadline = Deadline::after(&clock, seconds);
    let now = Duration::from_secs(5).saturating_add(Duration::from_millis(millis));
    clock.time.set(Some(now));
    deadline.past().is_some()
}

#[test]
fn limit_is_past_from_its_second_on(rt: HostRuntime) {
    assert!(rt; !is_past_after(Some(2), 0));
    assert!(rt; !is_past_after(Some(2), 1_999));
    assert!(rt; is_past_after(Some(2), 2_000));
    assert!(rt; is_past_after(Some(2), 9_000));
    assert!(rt; is_past_after(Some(0), 0));
    assert!(rt; !is_past_after(None, 9_000));
}

/// Whether a limit, or none, is past by a clock that can't be read when it is made, or from then on.
fn is_past_unread(seconds: Option<u64>, at_first: bool) -> bool {
    let clock = Set::at(Duration::from_secs(5));
    if at_first {
        clock.time.set(None);
    }
    let deadline = Deadline::after(&clock, seconds);
    clock.time.set(if at_first {
        Some(Duration::from_secs(5))
    } else {
        None
    });
    deadline.past().is_some()
}

#[test]
fn clock_that_is_not_read_counts_as_past(rt: HostRuntime) {
    assert!(rt; is_past_unread(Some(2), true));
    assert!(rt; is_past_unread(Some(2), false));
    assert!(rt; !is_past_unread(None, true));
    assert!(rt; !is_past_unread(None, false));
}

/// Whether a limit behind the end of the clock's range is past.
fn is_past_behind_the_end() -> bool {
    let clock = Set::at(Duration::from_secs(5));
    Deadline::after(&clock, Some(u64::MAX)).past().is_some()
}

#[test]
fn limit_behind_the_end_counts_as_past(rt: HostRuntime) {
    assert!(rt; is_past_behind_the_end());
}
