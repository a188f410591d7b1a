//! Clocks that move as a test wants.

use std::io;
use std::sync::atomic::{AtomicU64, Ordering};
use std::time::{Clock, Duration};

/// A clock that stands still.
#[derive(Drop)]
pub struct Still;

impl Clock for Still {
    fn monotonic(&self) -> io::Result<Duration> {
        Ok(Duration::ZERO)
    }

    fn since_1970(&self) -> io::Result<Duration> {
        self.monotonic()
    }
}

/// A clock that stands still for so many readings, and jumps far ahead then.
#[derive(Drop)]
pub struct Jumping {
    still: u64,
    /// How often it was read.
    read: AtomicU64,
}

impl Jumping {
    /// A clock that jumps behind so many readings.
    pub fn behind(still: u64) -> Jumping {
        Jumping {
            still,
            read: AtomicU64::new(0),
        }
    }

    /// How often it was read.
    pub fn readings(&self) -> u64 {
        self.read.load(Ordering::SeqCst)
    }
}

impl Clock for Jumping {
    fn monotonic(&self) -> io::Result<Duration> {
        if self.read.fetch_add(1, Ordering::SeqCst) < self.still {
            Ok(Duration::ZERO)
        } else {
            Ok(Duration::from_secs(2_000_000_000))
        }
    }

    fn since_1970(&self) -> io::Result<Duration> {
        self.monotonic()
    }
}
