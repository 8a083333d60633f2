//! The rows in one flat list, as the loop of a search reads them.
ghost use Rattle.std.specs.Prelude.{◌≡◌, ℕ, ◌+◌, ◌*◌, ◌^◌, ◌<◌, [], ◌++◌, length, slice_index};
ghost use Rattle.std.specs.Prelude.{slice_index_or, IfOk, OnOk};
ghost use Rattle.rbbi_model.specs.Tables.{empty_head};
ghost use Rattle.rbbi_table.specs.Parts.{rows_of, AreNextRows};
ghost use Rattle.rbbi_table.specs.Kept.{move_flags, AreMoves};
ghost use Rattle.rbbi_table.specs.inner.Moves.{row_moves};

use crate::RowHead;
use std::alloc::{AllocError, Global};

/// How many numbers follow the moves of a row: its front mask, list and accept number.
pub(crate) const HEAD: usize = 3;

/// The place of the front mask after a row's moves.
pub(crate) const FRONTS: usize = 0;

/// The place of the list after a row's moves.
pub(crate) const LIST: usize = 1;

/// The place of the accept number after a row's moves.
pub(crate) const ACCEPT: usize = 2;

/// The bit of a move to a row at which some rule ends, and no look-ahead rule.
const ENDS: u32 = 1;

/// The bit of a move to a row at which a front ends.
pub(crate) const FRONT_ENDS: u32 = 2;

/// The bit of a move to row 0, or to a row at which a look-ahead rule is completed.
pub(crate) const STOPS: u32 = 4;

/// A move has above its three bits the place at which the row begins in the flat list.
pub(crate) const PLACE: u32 = 8;

/// The move to a row: its place in the flat list, and the bits that say what is there.
fn move_to(rows: &[RowHead], next: u16, stride: usize) -> u32
    requires next { next < length rows.now }
    requires small { length rows.now * stride < 2 ^ 24 }
    ensures { result ≡ next * stride * 8 + move_flags
        (slice_index_or rows.now next empty_head) next }
{
    let head = &rows[next as usize];
    let place = u32::from(next) * stride as u32;
    let ends = if head.accept == 1 { ENDS } else { 0 };
    let fronts = if head.fronts != 0 { FRONT_ENDS } else { 0 };
    let stops = if next == 0 || head.accept >= 2 {
        STOPS
    } else {
        0
    };
    place * PLACE + ends + fronts + stops
}

/// Adds a row's moves, one for each of its next rows, and its front mask, list and accept number.
fn push_row(
    moves: &mut Vec<u32>,
    rows: &[RowHead],
    steps: &[u16],
    head: &RowHead,
) -> Result<(), AllocError>
    requires next { (i : ℕ) → i < length steps.now → slice_index steps.now i < length rows.now }
    requires small { length rows.now * (length steps.now + 3) < 2 ^ 24 }
    ensures { OnOk result (moves.new.items ≡ moves.old.items
        ++ row_moves (length steps.now + 3) rows.now steps.now head.now) }
{
    let stride = steps.len() + HEAD;
    for next in steps {
        moves.push(move_to(rows, *next, stride))?;
    }
    moves.push(head.fronts)?;
    moves.push(u32::from(head.list))?;
    moves.push(u32::from(head.accept))?;
    Ok(())
}

/// For each row its moves, one for each category, and then its front mask, its list and its accept
/// number. So a search reads one number a character, and a row's place needs no product.
pub(crate) fn moves_of(
    alloc: Global,
    categories: u16,
    rows: &[RowHead],
    cells: &[u16],
) -> Result<Vec<u32>, AllocError>
    requires steps { AreNextRows categories rows.now cells.now }
    requires small { length rows.now * (categories + 3) < 2 ^ 24 }
    ensures { IfOk result (λ moves.
        AreMoves (rows_of categories rows.now cells.now []) moves.items) }
{
    let width = categories as usize;
    let mut moves = Vec::with_capacity(alloc, rows.len() * (width + HEAD))?;
    for row in 0..rows.len() {
        let steps = &cells[row * width..row * width + width];
        push_row(&mut moves, rows, steps, &rows[row])?;
    }
    Ok(moves)
}
