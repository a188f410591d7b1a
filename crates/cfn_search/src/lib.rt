//! Hybrid best-first search (Allouche et al. 2015) over a pool of open leaves, on the caller's thread or by several workers.
//!
//! `solve` and `solve_together` make the outcome that a report and a certificate are written from. Their contract is the
//! promise of every search, as `cfn_low` defines it: a good certificate with its tree's bound, and why the search stopped.
//! What makes a piece of a task they are given with the network, as a `Problem`.
//!
//! - `begin.rt`: what a search goes on from, which is one open leaf or the tree of an earlier search;
//! - `search.rt`: the search on one thread, and one dive of it;
//! - `team.rt`: the search by several workers, from the first share of the word to the last;
//! - `outcome.rt`: what a search that stopped hands out.
//!
//! What one worker of a search is: how it takes tasks, dives, and gives back what it made.
//!
//! - `worker.rt`: one worker, `board.rt` what all share under a lock, and `lanes.rt` the tasks that workers steal from each
//!   other;
//! - `hand.rt`: the task or the piece that a worker has in hand, which it can't lose;
//! - `account.rt`: a worker's part of the word, and the least threshold at which it made a piece;
//! - `steps.rt`: leaves are taken from the pool, pieces are handed in, and a gate is told how far the search is;
//! - `grants.rt`: how many nodes and backtracks a dive may make.
#![tactic(auto)]

mod account;
mod begin;
mod board;
mod grants;
mod hand;
mod lanes;
mod outcome;
mod search;
mod steps;
mod team;
mod worker;

pub use account::{Account, Threshold};
pub use begin::Begin;
pub use board::{Board, Crew};
pub use cfn_explore::{Gate, News, OpenGate, Point};
pub use grants::{FEWEST_BACKTRACKS, wanted};
pub use hand::{InHand, Made, Unplaced};
pub use lanes::{LaneTasks, Lanes, ROOM};
pub use search::solve;
pub use steps::{Asked, hand_in, news, sweep, take};
pub use team::{Teamwork, solve_from, solve_together};
pub use worker::{Shared, Worker};
