//! What a table keeps beside its parts.
ghost use Rattle.std.specs.Prelude.{◌≡◌, ◌+◌, ◌*◌, ◌^◌, ◌<◌, ℕ, [], length, slice_index, IfOk};
ghost use Rattle.rbbi_table.specs.Parts.{table_of, rows_of, AreNextRows, AreValidParts};
ghost use Rattle.rbbi_table.specs.Kept.{AreMoves, IsWholeKept};

use crate::moves::moves_of;
use crate::short::{Short, short_of};
use crate::{Blocks, Parts, RowHead};
use std::alloc::{AllocError, Global};

/// The categories of all code points in blocks, and the rows for the loop of a search: short ones,
/// or if there are none, moves.
#[derive(Drop)]
pub(crate) struct Kept {
    pub(crate) blocks: Blocks,
    pub(crate) moves: Vec<u32>,
    pub(crate) short: Short,
}

/// That each item is a byte: it is there for proofs, and does nothing when it runs.
fn are_bytes(bytes: &[u8])
    ensures { (i : ℕ) → slice_index bytes.now i < 256 }
{
    let _bytes = bytes;
}

/// The moves of these rows, if there are no short ones.
fn moves_beside(
    alloc: Global,
    short: &[u16],
    categories: u16,
    rows: &[RowHead],
    cells: &[u16],
) -> Result<Vec<u32>, AllocError>
    requires steps { AreNextRows categories rows.now cells.now }
    requires small { length rows.now * (categories + 3) < 2 ^ 24 }
    ensures { IfOk result (λ moves. length short.now ≡ 0
        → AreMoves (rows_of categories rows.now cells.now []) moves.items) }
{
    if short.is_empty() {
        moves_of(alloc, categories, rows, cells)
    } else {
        Ok(Vec::new(alloc))
    }
}

/// What is kept beside these parts.
pub(crate) fn kept_beside(alloc: Global, parts: &Parts) -> Result<Kept, AllocError>
    requires { AreValidParts (table_of parts.now) }
    ensures { IfOk result (λ kept. IsWholeKept (table_of parts.now)
        kept.blocks.numbers.items kept.blocks.categories.items kept.moves.items
        kept.short.moves.items kept.short.near.items kept.short.start) }
{
    are_bytes(parts.safe.as_slice());
    let rows = parts.rows.as_slice();
    let cells = parts.cells.as_slice();
    let (slashes, categories) = (parts.slashes, parts.categories);
    let blocks = Blocks::new(alloc, parts.ranges.as_slice())?;
    let short = short_of(alloc, slashes, categories, rows, cells, &blocks)?;
    let moves = moves_beside(alloc, &short.moves, categories, rows, cells)?;
    Ok(Kept {
        blocks,
        moves,
        short,
    })
}
