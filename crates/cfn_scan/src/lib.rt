//! What a store reads: the residual costs of a function's tuples and the unary costs of a variable's values, from words, flags and
//! live values that are lent to it. No call but `widths` takes memory.
//!
//! - A `Scan` goes over the live tuples of a function with one value at one place, or one at each of two, and finds the least or
//!   the greatest residual cost (`scan.rt`); a function of three variables has loops of its own (`three.rt`).
//! - A `Side` is a function of two variables seen from one of them; its `Line` tells the residual costs along the values of the
//!   other one, and `Nearest` keeps the least of them (`line.rt`).
//! - `Unaries` are the unary costs of one variable's values (`unaries.rt`).
//! - `slots.rt`: where the word of a value at a place stands in a function's row.
//! - `rows.rt`: the least of what a row's entries are once an amount each was taken off, of all of them or of those that are
//!   open; `words.rt`: the least of some words, how many are 0, and an amount taken off or put on each of them. Each is a plain
//!   loop: the compiler knows from the bounds that it has proved that no access can fail.
//!
//! Sums and differences that leave 64 bits are those modulo 2^64 (the "delta costs" of toulbar2): of what is live, costs fit.
#![tactic(auto)]

mod line;
mod rows;
mod scan;
mod slots;
mod three;
mod unaries;
mod words;

pub use line::{Line, Nearest, Side};
pub use rows::{Found, Row, least_below, least_difference, least_open};
pub use scan::{Extreme, Pin, Scan, Sense, Spot};
pub use slots::{slot_of, widths};
pub use unaries::Unaries;
pub use words::{least, put_on, take_off, zeros};
