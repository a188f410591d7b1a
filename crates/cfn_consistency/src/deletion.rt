//! What a derivation of virtual arc consistency deletes, and the sources of its plan.

/// Why a value is deleted: by its own unary cost, or by a function, at a place of which its variable stands.
#[derive(Clone, Copy)]
pub enum Reason {
    Own,
    By { function: u32, place: u32 },
}

/// A value that is deleted, and why.
#[derive(Clone, Copy)]
pub struct Deletion {
    pub variable: u32,
    pub value: u32,
    pub reason: Reason,
}

/// A value at a place of a function.
#[derive(Clone, Copy)]
pub struct Source {
    pub place: u32,
    pub value: u32,
}
