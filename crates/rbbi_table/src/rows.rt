//! Whether the rows are valid.
ghost use Rattle.std.specs.Prelude.{◌≡◌, ℕ, ◌↔◌, ◌+◌, ◌*◌, ◌^◌, ◌<◌, ◌≤◌, ◌⊎◌, length, slice_index};
ghost use Rattle.std.specs.Prelude.{slice_index_or, EachIndex, IsTrue};
ghost use Rattle.rbbi_model.specs.ValidTables.{AreValidRows, IsPlain};
ghost use Rattle.rbbi_model.specs.Tables.{empty_head};
ghost use Rattle.rbbi_table.specs.inner.Rows.{IsValidHead, IsValidEntry};
ghost use Rattle.rbbi_table.specs.Parts.{table_of};

use crate::limits::{MOST_ROWS, MOST_SLASHES};
use crate::{Parts, RowHead};

/// Whether each cell is less than the bound.
fn are_below(cells: &[u16], bound: u16) -> bool
    ensures { IsTrue result ↔ EachIndex cells.now (λ k. slice_index cells.now k < bound) }
{
    cells.iter().all(|cell| *cell < bound)
}

/// Whether the front mask has no bit from bit `slashes` on.
fn has_fronts_below(fronts: u32, slashes: u16) -> bool
    requires { slashes ≤ 32 }
    ensures { IsTrue result ↔ (fronts < 2 ^ slashes) }
{
    slashes == 32 || fronts < 1 << slashes
}

/// Whether nothing ends at the row.
fn is_plain(head: &RowHead) -> bool
    ensures { IsTrue result ↔ IsPlain head.now }
{
    head.accept == 0 && head.fronts == 0 && head.list == 0
}

/// Whether the head's numbers are within their bounds, a row at which no rule ends has list 0, and
/// one at which a look-ahead rule is completed has no front.
fn is_valid_head(head: &RowHead, slashes: u16, lists: usize) -> bool
    requires { slashes ≤ 32 }
    ensures { IsTrue result ↔ IsValidHead slashes lists head.now }
{
    if head.accept > slashes + 1 || head.list as usize >= lists {
        return false;
    }
    if head.accept == 0 && head.list != 0 {
        return false;
    }
    if head.accept >= 2 && head.fronts != 0 {
        return false;
    }
    has_fronts_below(head.fronts, slashes)
}

/// Whether a row's head is valid, and it leads to rows, and if a search ends at it, to row 0 only.
fn is_valid_row(rows: &[RowHead], row: usize, steps: &[u16], slashes: u16, lists: usize) -> bool
    requires row { row < length rows.now }
    requires rows { length rows.now ≤ 4095 }
    requires slashes { slashes ≤ 32 }
    ensures { IsTrue result ↔ IsValidEntry slashes lists (length rows.now) row
        (slice_index_or rows.now row empty_head) steps.now }
{
    let head = rows[row];
    let stops = row == 0 || head.accept >= 2;
    let bound = if stops { 1 } else { rows.len() as u16 };
    is_valid_head(&head, slashes, lists) && are_below(steps, bound)
}

/// Whether there are enough and few enough rows and not too many look-ahead rules, each row is
/// valid, nothing ends at rows 0 and 1, and row 0 leads to itself only.
pub(crate) fn are_valid_rows(parts: &Parts) -> bool
    requires { length parts.now.cells ≡ length parts.now.rows * parts.now.categories }
    ensures { IsTrue result ↔ AreValidRows (table_of parts.now) }
{
    let rows = parts.rows.as_slice();
    let cells = parts.cells.as_slice();
    let width = parts.categories as usize;
    let lists = parts.lists.len();
    if rows.len() < 2 || rows.len() > MOST_ROWS || parts.slashes > MOST_SLASHES {
        return false;
    }
    if !is_plain(&rows[0]) || !is_plain(&rows[1]) {
        return false;
    }
    for row in 0..rows.len() {
        let steps = &cells[row * width..row * width + width];
        if !is_valid_row(rows, row, steps, parts.slashes, lists) {
            return false;
        }
    }
    true
}
