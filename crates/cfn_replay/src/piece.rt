//! The piece behind a give.

ghost use Rattle.std.specs.Prelude.{◌≡◌, IfOk};
ghost use Rattle.cfn_replay.specs.Piece.{IsPieceText};

use crate::kinds::{capped, made_by, node_in};
use crate::lines::Lines;
use cfn_certread::{Maker, node};
use cfn_proof::Tree;
use std::alloc::{AllocError, Global};

/// What was read of a piece.
#[derive(Drop)]
pub(crate) enum PieceText {
    /// Its tree, with 32 bits for each number, and how many splits and closed leaves that has.
    Whole { tree: Tree, made: u64 },
    /// It stops at this line, which follows no grammar.
    Broken { line: u64 },
}

/// Reads the lines of a piece. An `Err` is want of memory.
pub(crate) fn piece(alloc: Global, lines: &mut Lines<'_>) -> Result<PieceText, AllocError>
    ensures text { lines.new.text ≡ lines.old.text }
    ensures piece { IfOk result (IsPieceText lines.old lines.new) }
{
    let mut maker = Maker::new(alloc)?;
    let mut made = 0;
    while !maker.is_over() {
        let line = lines.due();
        let said = lines.next();
        let Some(item) = node_in(&said) else {
            return Ok(PieceText::Broken { line });
        };
        node(&mut maker, capped(item))?;
        made += made_by(item);
    }
    Ok(PieceText::Whole {
        tree: maker.into_tree(),
        made,
    })
}
