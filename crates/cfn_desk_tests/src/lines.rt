//! What a line says, and when one is shown.

ghost use Rattle.std.specs.Prelude.{◌≡◌, None};
ghost use Rattle.cfn_explore.specs.Telling.{AreBounds};

use cfn_explore::{Gate, News};
use cfn_model::Row;
use cfn_net::{Builder, Network};
use cfn_report::{Line, Progress};
use std::alloc::{AllocError, Global};
use std::cell::{Cell, RefCell};
use std::fmt::Display;
use std::io;
use std::io::{Eprint, ErrorKind};
use std::test::*;
use std::time::{Clock, Duration};

/// A runtime whose clock shows what a test sets, and whose standard error is a text in memory.
#[derive(Drop)]
struct Fake {
    millis: Cell<u64>,
    said: RefCell<String>,
}

impl Fake {
    fn new(alloc: Global) -> Fake {
        Fake {
            millis: Cell::new(0),
            said: RefCell::new(String::new(alloc)),
        }
    }

    /// Whether this is all that was said.
    fn has_said(&self, text: &str) -> bool {
        match self.said.try_borrow() {
            Ok(said) => said.as_str() == text,
            Err(_) => false,
        }
    }
}

impl Clock for Fake {
    fn monotonic(&self) -> io::Result<Duration> {
        Ok(Duration::from_millis(self.millis.get()))
    }

    fn since_1970(&self) -> io::Result<Duration> {
        self.monotonic()
    }
}

impl Eprint for Fake {
    fn eprint<D: Display + Drop>(&self, value: D) -> io::Result<()> {
        match self.said.try_borrow_mut() {
            Ok(mut said) => {
                write!(said, "{value}").map_err(|_| io::Error::from(ErrorKind::OutOfMemory))
            }
            Err(_) => Err(io::Error::from(ErrorKind::Other)),
        }
    }

    fn eprintln<D: Display + Drop>(&self, value: D) -> io::Result<()> {
        self.eprint(value)?;
        self.eprint("\n")
    }
}

/// One variable with two values, of costs 3 and 1.
fn tiny(alloc: Global) -> Result<Network, AllocError> {
    let mut builder = Builder::make(alloc, b"tiny", &[2], 10)?;
    builder.function(&[0], 3, &[([1].as_slice(), 1)])?;
    builder.finish()
}

/// What may be told of every search: no cost is below 0.
fn nothing_known(nodes: u64) -> News
    ensures lower { result.bounds.lower ≡ 0 }
    ensures upper { result.bounds.upper ≡ None }
{
    News {
        bounds: Row {
            lower: 0,
            upper: None,
        },
        nodes,
        leaves: 1,
    }
}

/// Asks a gate, and tells it where it wants to be told; whether it did.
fn asks(gate: &Progress<'_, Fake>, network: &Network, cheaper: bool, nodes: u64) -> bool {
    let asks = gate.asks(cheaper);
    if asks {
        gate.tell(network, nothing_known(nodes));
    }
    asks
}

/// Sets the clock, and asks a gate.
fn asks_at(rt: &Fake, gate: &Progress<'_, Fake>, network: &Network, millis: u64) -> bool {
    rt.millis.set(millis);
    asks(gate, network, false, millis)
}

#[test]
fn line_is_said(rt: HostRuntime) -> Result<(), Fail> {
    let bounds = Row {
        lower: 65,
        upper: Some(109),
    };
    let news = News {
        bounds,
        nodes: 31744,
        leaves: 512,
    };
    let line = Line { tenths: 124, news };
    let text = line.to_string(rt.alloc())?;
    assert!(rt; text.as_str() == "progress 12.4 lower 65 upper 109 nodes 31744 open 512");
    let line = Line {
        tenths: 3,
        news: nothing_known(7),
    };
    let text = line.to_string(rt.alloc())?;
    assert!(rt; text.as_str() == "progress 0.3 lower 0 upper none nodes 7 open 1");
    Ok(())
}

/// Whether lines come at most five a second, and at once where a cheaper assignment is known.
fn paces(alloc: Global, network: &Network) -> bool {
    let rt = Fake::new(alloc);
    let gate = Progress::new(&rt, false);
    gate.begin(true);
    let early = asks_at(&rt, &gate, network, 199);
    let due = asks_at(&rt, &gate, network, 200);
    let soon = asks_at(&rt, &gate, network, 399);
    let cheaper = asks(&gate, network, true, 3);
    let next = asks_at(&rt, &gate, network, 598);
    let last = asks_at(&rt, &gate, network, 599);
    gate.end();
    (early, due, soon, cheaper, next, last) == (false, true, false, true, false, true)
        && rt.has_said(
            "progress 0.2 lower 0 upper none nodes 200 open 1\n\
             progress 0.3 lower 0 upper none nodes 3 open 1\n\
             progress 0.5 lower 0 upper none nodes 599 open 1\n",
        )
}

#[test]
fn five_lines_come_a_second(rt: HostRuntime) -> Result<(), Fail> {
    let network = tiny(rt.alloc())?;
    assert!(rt; paces(rt.alloc(), &network));
    Ok(())
}

/// Whether nothing is shown where it was not asked for.
fn is_silent(alloc: Global, network: &Network) -> bool {
    let rt = Fake::new(alloc);
    let gate = Progress::new(&rt, false);
    gate.begin(false);
    let asks = asks_at(&rt, &gate, network, 10_000) || asks(&gate, network, true, 1);
    gate.end();
    !asks && rt.has_said("")
}

/// Whether lines are written over each other at a terminal, and the last one is ended.
fn writes_over(alloc: Global, network: &Network) -> bool {
    let rt = Fake::new(alloc);
    let gate = Progress::new(&rt, true);
    gate.begin(false);
    let shown = asks_at(&rt, &gate, network, 1_000) && asks_at(&rt, &gate, network, 2_000);
    gate.end();
    gate.end();
    shown
        && rt.has_said(
            "\rprogress 1.0 lower 0 upper none nodes 1000 open 1\x1b[K\
             \rprogress 2.0 lower 0 upper none nodes 2000 open 1\x1b[K\n",
        )
}

#[test]
fn lines_are_for_terminals_and_who_asks(rt: HostRuntime) -> Result<(), Fail> {
    let network = tiny(rt.alloc())?;
    assert!(rt; is_silent(rt.alloc(), &network));
    assert!(rt; writes_over(rt.alloc(), &network));
    Ok(())
}
