//! A gate that shows how far a search is.

ghost use Rattle.cfn_explore.specs.Telling.{AreBounds};

use crate::line::Line;
use cfn_explore::{Gate, News, Point};
use cfn_net::Network;
use std::io::Eprint;
use std::sync::atomic::{AtomicBool, AtomicU64, Ordering};
use std::time::{Clock, Instant};

/// How many milliseconds at least lie between two lines, where no cheaper assignment is found.
const PAUSE: u64 = 200;

/// Shows lines of progress on the standard error of a runtime: at most five a second, and one at each cheaper assignment.
///
/// At a terminal each line is written over the one before it, and the last one is ended when the search has ended. Elsewhere
/// each line is ended. A line that can't be written is left out.
#[derive(Drop)]
pub struct Progress<'a, R: Clock + Eprint> {
    rt: &'a R,
    /// Whether standard error is a terminal.
    terminal: bool,
    /// When it was made, if the clock could be read.
    start: Option<Instant>,
    /// Whether lines are shown.
    shows: AtomicBool,
    /// After how many milliseconds the next line is due.
    due: AtomicU64,
    /// Whether a line stands at the terminal that is not ended.
    unended: AtomicBool,
}

impl<'a, R: Clock + Eprint> Progress<'a, R> {
    /// Lines on the standard error of a runtime, with times from now on; `terminal` tells whether that is a terminal. A clock
    /// that can't be read shows 0.0, and a line at each cheaper assignment alone.
    pub fn new(rt: &'a R, terminal: bool) -> Progress<'a, R> {
        Progress {
            rt,
            terminal,
            start: Instant::now(rt).ok(),
            shows: AtomicBool::new(false),
            due: AtomicU64::new(PAUSE),
            unended: AtomicBool::new(false),
        }
    }

    /// How many milliseconds have gone by.
    fn millis(&self) -> u64 {
        let Some(start) = self.start else {
            return 0;
        };
        match start.elapsed(self.rt) {
            Ok(gone) => gone
                .as_secs()
                .saturating_mul(1000)
                .saturating_add(u64::from(gone.subsec_millis())),
            Err(_) => 0,
        }
    }

    /// Shows a line.
    fn show(&self, line: Line) {
        let rt = self.rt;
        let written = if self.terminal {
            self.unended.store(true, Ordering::Relaxed);
            eprint!(rt; "\r{line}\x1b[K")
        } else {
            rt.eprintln(line)
        };
        let _ = written;
    }
}

/// Lines are shown where they were asked for, or standard error is a terminal.
impl<'a, R: Clock + Eprint> Gate for Progress<'a, R> {
    fn pass(&self, _worker: u32, _point: Point) {}

    fn begin(&self, asked: bool) {
        self.shows.store(asked || self.terminal, Ordering::Relaxed);
    }

    fn asks(&self, cheaper: bool) -> bool {
        if !self.shows.load(Ordering::Relaxed) {
            return false;
        }
        let now = self.millis();
        if !cheaper && now < self.due.load(Ordering::Relaxed) {
            return false;
        }
        self.due.store(now.saturating_add(PAUSE), Ordering::Relaxed);
        true
    }

    fn tell(&self, network: &Network, news: News)
        requires { AreBounds network.now news.bounds }
    {
        let _ = network;
        self.show(Line {
            tenths: self.millis() / 100,
            news,
        });
    }

    fn end(&self) {
        if self.unended.swap(false, Ordering::Relaxed) {
            let _ = self.rt.eprintln("");
        }
    }
}
