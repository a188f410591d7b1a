//! Calls of any desk, and what came of them.

ghost use Rattle.std.specs.Prelude.{◌≡◌, OnOk};
ghost use Rattle.cfn_desk.specs.Outside.{IsIdle, IsWriting};

use cfn_desk::{Desk, Failed, LoadFault};
use std::alloc::{AllocError, Global};

/// A piece that is larger than the buffer of a desk.
pub(crate) fn large_piece(alloc: Global) -> Result<Vec<u8>, AllocError> {
    vec![in alloc; 7; 70000]
}

/// Writes a file in two pieces. Where one of them failed, the file is discarded.
pub(crate) fn write_file<D: Desk>(
    desk: &mut D,
    name: &str,
    front: &[u8],
    back: &[u8],
) -> Result<(), Failed>
    requires { IsIdle (D.outside desk.old).calls }
    ensures { IsIdle (D.outside desk.new).calls }
{
    desk.open_out(name)?;
    if let Err(fault) = desk.put(front) {
        desk.discard_out();
        return Err(fault);
    }
    if let Err(fault) = desk.put(back) {
        desk.discard_out();
        return Err(fault);
    }
    desk.close_out()
}

/// What a desk answered to a file written in two pieces, and to a load behind it.
#[derive(Clone, Copy, PartialEq, Eq)]
pub(crate) struct Kept {
    pub(crate) write: Result<(), Failed>,
    pub(crate) load: Result<(), LoadFault>,
}

/// Writes a file in two pieces, and loads one, which may be the same.
pub(crate) fn write_and_load<D: Desk>(
    desk: &mut D,
    pieces: (&str, &[u8], &[u8]),
    name: &str,
    into: &mut Vec<u8>,
) -> Kept
    requires { IsIdle (D.outside desk.old).calls }
    ensures { IsIdle (D.outside desk.new).calls }
{
    let write = write_file(desk, pieces.0, pieces.1, pieces.2);
    let load = desk.load(name, into);
    Kept { write, load }
}

/// Begins a file, and puts a piece.
pub(crate) fn begin_file<D: Desk>(desk: &mut D, name: &str, piece: &[u8]) -> Result<(), Failed>
    requires { IsIdle (D.outside desk.old).calls }
    ensures { OnOk result (IsWriting (D.outside desk.new).calls) }
{
    desk.open_out(name)?;
    desk.put(piece)
}

/// Begins a file, and drops it.
pub(crate) fn drop_file<D: Desk>(desk: &mut D, name: &str) -> Result<(), Failed>
    requires { IsIdle (D.outside desk.old).calls }
    ensures { IsIdle (D.outside desk.new).calls }
{
    desk.open_out(name)?;
    desk.discard_out();
    Ok(())
}
