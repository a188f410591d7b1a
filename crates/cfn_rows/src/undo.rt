//! What takes an event back.

/// The variable of an event, and how many of its values were live before.
#[derive(Clone, Copy)]
pub(crate) struct Undo {
    pub variable: u32,
    pub count: u32,
}
