//! What was read of one line.

use crate::event::Item;
use crate::fields::Fields;

/// What a line says: one item, or the first value and the words of the others, which are still to be told.
#[derive(Drop)]
pub enum Parsed<'a> {
    One(Item),
    Values { first: u64, others: Fields<'a> },
}
