//! A gate that workers pass, by which a test can hold them, and that is told how far the search is.

ghost use Rattle.cfn_explore.specs.Telling.{AreBounds};

use crate::news::News;
use cfn_net::Network;

/// Where a worker passes the gate.
#[derive(Clone, Copy, PartialEq, Eq)]
pub enum Point {
    /// It has taken a task.
    Taken,
    /// It is about to give a piece.
    BeforeGive,
    /// It waits.
    Waiting,
    /// It has ended.
    Ended,
}

/// What a search calls while it runs. It promises nothing.
pub trait Gate {
    /// The worker with this number, from 0, passes this point. It may wait there.
    fn pass(&self, worker: u32, point: Point);

    /// A search is about to begin; whether its user asked to be told how far it is.
    fn begin(&self, _asked: bool) {}

    /// A piece was handed in; whether a cheaper assignment is known since. It answers whether it is to be told how far the
    /// search is. All workers wait for the answer.
    fn asks(&self, _cheaper: bool) -> bool {
        false
    }

    /// How far the search of a network is. What it is told holds: no assignment costs less than the lower bound, and the upper
    /// bound, where there is one, is the cost of an assignment.
    fn tell(&self, network: &Network, news: News)
        requires { AreBounds network.now news.bounds }
    {
        let _ = network;
        let _ = news;
    }

    /// The search has ended.
    fn end(&self) {}
}

/// The gate that returns at once, and wants to be told nothing.
#[derive(Clone, Copy)]
pub struct OpenGate;

impl Gate for OpenGate {
    fn pass(&self, _worker: u32, _point: Point) {}
}
