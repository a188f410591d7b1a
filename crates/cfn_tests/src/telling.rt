//! What a gate is told of a run while it searches.

ghost use Rattle.cfn_explore.specs.Telling.{AreBounds};

use cfn_app::{Gate, News, Point};
use cfn_net::Network;
use cfn_testing::running::{Run, TRI, has_line};
use std::alloc::{AllocError, AllocGlobal};
use std::sync::Wait;
use std::sync::atomic::{AtomicU64, Ordering};
use std::test::*;
use std::thread::Threads;

/// A gate that wants to be told at each piece, and counts what it was told.
#[derive(Drop)]
struct Listening {
    /// How many searches began for which that was asked, and for which it was not.
    asked: AtomicU64,
    unasked: AtomicU64,
    /// How often it was told, and of these how often with an upper bound.
    told: AtomicU64,
    upper: AtomicU64,
    /// Of how many nodes it was told last.
    nodes: AtomicU64,
    /// How often it was told before a search began or after it had ended.
    outside: AtomicU64,
    ended: AtomicU64,
}

impl Listening {
    fn new() -> Listening {
        Listening {
            asked: AtomicU64::new(0),
            unasked: AtomicU64::new(0),
            told: AtomicU64::new(0),
            upper: AtomicU64::new(0),
            nodes: AtomicU64::new(0),
            outside: AtomicU64::new(0),
            ended: AtomicU64::new(0),
        }
    }
}

impl Gate for Listening {
    fn pass(&self, _worker: u32, _point: Point) {}

    fn begin(&self, asked: bool) {
        if asked {
            self.asked.fetch_add(1, Ordering::SeqCst);
        } else {
            self.unasked.fetch_add(1, Ordering::SeqCst);
        }
    }

    fn asks(&self, _cheaper: bool) -> bool {
        true
    }

    fn tell(&self, network: &Network, news: News)
        requires { AreBounds network.now news.bounds }
    {
        let _ = network;
        self.told.fetch_add(1, Ordering::SeqCst);
        self.nodes.store(news.nodes, Ordering::SeqCst);
        if news.bounds.upper.is_some() {
            self.upper.fetch_add(1, Ordering::SeqCst);
        }
        let begun = self
            .asked
            .load(Ordering::SeqCst)
            .saturating_add(self.unasked.load(Ordering::SeqCst));
        if begun != 1 || self.ended.load(Ordering::SeqCst) != 0 {
            self.outside.fetch_add(1, Ordering::SeqCst);
        }
    }

    fn end(&self) {
        self.ended.fetch_add(1, Ordering::SeqCst);
    }
}

/// What a gate counted.
#[derive(Clone, Copy, PartialEq, Eq)]
struct Counts {
    asked: u64,
    unasked: u64,
    outside: u64,
    ended: u64,
    /// Whether it was told, and whether of an upper bound.
    told: bool,
    upper: bool,
    /// Whether the nodes that it was told of last are those of the report.
    all_nodes: bool,
}

/// What a gate counts in a run on `TRI`.
fn heard<R: AllocGlobal + Threads + Wait + Sync>(
    rt: &R,
    words: &[&str],
) -> Result<Counts, AllocError> {
    let gate = Listening::new();
    let run = Run::gated(rt, words, TRI, &gate)?;
    let nodes = gate.nodes.load(Ordering::SeqCst);
    let line = format!(in rt.alloc(); "nodes {nodes}")?;
    Ok(Counts {
        asked: gate.asked.load(Ordering::SeqCst),
        unasked: gate.unasked.load(Ordering::SeqCst),
        outside: gate.outside.load(Ordering::SeqCst),
        ended: gate.ended.load(Ordering::SeqCst),
        told: gate.told.load(Ordering::SeqCst) > 0,
        upper: gate.upper.load(Ordering::SeqCst) > 0,
        all_nodes: has_line(run.said(), line.as_bytes()),
    })
}

#[test]
fn gate_is_told_how_far_a_run_is(rt: HostRuntime) -> Result<(), Fail> {
    let words = ["wcspsolve", "solve", "in", "out", "--progress"];
    let right = Counts {
        asked: 1,
        unasked: 0,
        outside: 0,
        ended: 1,
        told: true,
        upper: true,
        all_nodes: true,
    };
    assert!(rt; heard(&rt, &words)? == right);
    Ok(())
}

#[test]
fn several_workers_tell_it_too(rt: HostRuntime) -> Result<(), Fail> {
    let words = ["wcspsolve", "solve", "in", "out", "--workers", "3"];
    let heard = heard(&rt, &words)?;
    assert!(rt; (heard.asked, heard.unasked, heard.outside, heard.ended) == (0, 1, 0, 1));
    assert!(rt; heard.told && heard.upper);
    Ok(())
}
