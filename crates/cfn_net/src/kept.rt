//! How a network keeps a function.

use smallvec::SmallVec;

/// A function's scope, its default, and the number of its table. Scopes of up to four variables lie in it.
#[derive(Drop)]
pub(crate) struct Kept {
    pub(crate) scope: SmallVec<u32, 4>,
    pub(crate) default: u64,
    pub(crate) table: u32,
}
