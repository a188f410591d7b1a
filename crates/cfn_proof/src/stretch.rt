//! A stretch of bytes in a buffer that many have.

ghost use Rattle.std.specs.Prelude.{◌≡◌, ◌+◌, ◌≤◌, length, slice_range, IfOk, IfSome};
ghost use Rattle.std.specs.Arc.{arc_value};

use std::alloc::{AllocError, Global};
use std::marker::Model;
use std::sync::Arc;

/// Bytes that stand in a buffer, which is there as long as someone has a stretch of it. Contracts see the list of the bytes.
#[derive(Drop)]
pub(crate) struct Stretch {
    buffer: Arc<Vec<u8>>,
    start: u32,
    len: u32,
}

impl Model for Stretch {
    ghost use Rattle.std.specs.Prelude.{List, ℕ, ◌+◌, ◌≤◌, length, slice_range};
    ghost use Rattle.std.specs.Arc.{arc_value};

    ghost Value = { List ℕ };

    ghost view = { λ s. slice_range (arc_value s.buffer).items s.start (s.start + s.len) };

    ghost invariant = { λ s. s.start + s.len ≤ length (arc_value s.buffer).items };
}

impl Stretch {
    /// The stretch of a buffer from a place on that has these bytes, if they stand there and both places are below 2^32. An
    /// `Err` is want of one count more of who has the buffer.
    pub(crate) fn find(
        buffer: &Arc<Vec<u8>>,
        start: usize,
        bytes: &[u8],
    ) -> Result<Option<Stretch>, AllocError>
        ensures { IfOk result (λ found. IfSome found (λ stretch. stretch ≡ bytes.now)) }
    {
        let Ok(first) = u32::try_from(start) else {
            return Ok(None);
        };
        let Ok(len) = u32::try_from(bytes.len()) else {
            return Ok(None);
        };
        let Some(there) = buffer.as_slice().get(start..start + bytes.len()) else {
            return Ok(None);
        };
        if there != bytes {
            return Ok(None);
        }
        Ok(Some(Stretch {
            buffer: Arc::try_clone(buffer)?,
            start: first,
            len,
        }))
    }

    /// The bytes.
    pub(crate) fn bytes(&self) -> &[u8]
        ensures { result.now ≡ self.now }
    {
        let start = self.start as usize;
        &self.buffer.as_slice()[start..start + self.len as usize]
    }

    /// What takes memory for bytes of its own.
    pub(crate) fn allocator(&self) -> Global {
        *self.buffer.allocator()
    }

    /// The same stretch, which copies no byte. An `Err` is want of one count more of who has the buffer.
    pub(crate) fn another(&self) -> Result<Stretch, AllocError>
        ensures { IfOk result (λ stretch. stretch ≡ self.now) }
    {
        Ok(Stretch {
            buffer: Arc::try_clone(&self.buffer)?,
            start: self.start,
            len: self.len,
        })
    }
}
