//! Gates that hold a worker.

use cfn_app::{Gate, Point};
use std::thread;

/// A gate that holds one of four workers for some time, at one of the points or at each.
#[derive(Drop)]
pub struct Holding {
    /// The worker is this modulo 4, and the point this by 4.
    pub number: u32,
}

impl Gate for Holding {
    fn pass(&self, worker: u32, point: Point) {
        let held = match self.number / 4 {
            0 => point == Point::Taken,
            1 => point == Point::BeforeGive,
            2 => point == Point::Waiting,
            3 => point == Point::Ended,
            _ => true,
        };
        if held && worker == self.number % 4 {
            for _ in 0..10_000 {
                thread::yield_now();
            }
        }
    }
}
