//! One event of a path.

use cfn_model::Event;

/// What happened, and, of the cut of a tuple, whether the tuple was not cut before it.
#[derive(Clone, Copy)]
pub(crate) struct Entry {
    pub(crate) event: Event,
    pub(crate) fresh: bool,
}
