//! The kinds of the moves of a row: which characters leave a search in rows that are alike.
ghost use Rattle.std.specs.Prelude.{◌≡◌, ℕ, ◌+◌, ◌*◌, ◌<◌, ◌≤◌, length, slice_index, IsTrue};
ghost use Rattle.std.specs.Prelude.{if◌then◌else◌};
ghost use Rattle.rbbi_table.specs.Parts.{AreNextRows};
ghost use Rattle.rbbi_table.specs.Kinds.{IsLike, AreKinds, ends_plainly, next_of};

use crate::RowHead;

/// The move leads to a row at which a rule ends, whichever of the row's like rows it is made from,
/// and that row is like the row too.
pub(crate) const FORGETS: u8 = 0;

/// The move leads back to the row, and from each like row to that row.
pub(crate) const STAYS: u8 = 1;

/// The move leads to a row at which a rule ends.
pub(crate) const ENDS: u8 = 2;

/// The move leads to a row at which no rule ends.
pub(crate) const OTHER: u8 = 3;

/// While kinds are proposed: the move leads back to the row, and is of kind `FORGETS` or `STAYS`.
const OPEN: u8 = 4;

/// The next row by a category.
fn next_row(cells: &[u16], width: usize, row: usize, category: usize) -> usize
    requires { row * width + category < length cells.now }
    ensures { result ≡ slice_index cells.now (row * width + category) }
{
    cells[row * width + category] as usize
}

/// Whether some rule ends at a row, and no look-ahead rule.
fn ends_at(rows: &[RowHead], row: usize) -> bool
    requires { row < length rows.now }
    ensures { result ≡ ends_plainly rows.now row }
{
    let head = &rows[row];
    head.accept == 1
}

/// Whether a row is like a base row by the kinds of its moves: each move of kind `FORGETS` leads to
/// the same row from both, and each of kind `STAYS` leads back to the row that it is made from.
fn is_like(cells: &[u16], width: usize, base: usize, row: usize, kinds: &[u8]) -> bool
    requires all { length kinds.now ≡ width }
    requires base { base * width + width ≤ length cells.now }
    requires row { row * width + width ≤ length cells.now }
    ensures { IsTrue result → IsLike width cells.now (λ k. slice_index kinds.now k) base row }
{
    for k in 0..width {
        let next = next_row(cells, width, row, k);
        if kinds[k] == FORGETS && next != next_row(cells, width, base, k) {
            return false;
        }
        if kinds[k] == STAYS && next != row {
            return false;
        }
    }
    true
}

/// Whether these are kinds of the moves of a row.
fn are_kinds(rows: &[RowHead], cells: &[u16], width: usize, row: usize, kinds: &[u8]) -> bool
    requires next { AreNextRows width rows.now cells.now }
    requires all { length kinds.now ≡ width }
    requires row { row < length rows.now }
    ensures { IsTrue result → AreKinds width rows.now cells.now (λ k. slice_index kinds.now k) row }
{
    for k in 0..width {
        let next = next_row(cells, width, row, k);
        let ends = ends_at(rows, next);
        if kinds[k] > OTHER || (kinds[k] < OTHER) != ends {
            return false;
        }
        if kinds[k] == FORGETS && !is_like(cells, width, row, next, kinds) {
            return false;
        }
        if kinds[k] == STAYS && next != row {
            return false;
        }
    }
    true
}

/// Writes the kind `ENDS` or `OTHER` of each move of a row.
fn write_plain(rows: &[RowHead], cells: &[u16], width: usize, row: usize, kinds: &mut [u8])
    requires next { AreNextRows width rows.now cells.now }
    requires all { length kinds.old ≡ width }
    requires row { row < length rows.now }
    ensures { (k : ℕ) → k < width → slice_index kinds.new k
        ≡ (if ends_plainly rows.now (next_of width cells.now row k) then 2 else 3) }
{
    for k in 0..width {
        let next = next_row(cells, width, row, k);
        kinds[k] = if ends_at(rows, next) { ENDS } else { OTHER };
    }
}

/// Whether a category's move to `target` may be of kind `FORGETS`, beside the kinds so far.
fn fits(cells: &[u16], width: usize, rows: usize, row: usize, category: usize, kinds: &[u8]) -> bool
    requires next { (i : ℕ) → i < length cells.now → slice_index cells.now i < rows }
    requires cells { length cells.now ≡ rows * width }
    requires all { length kinds.now ≡ width }
    requires row { row < rows }
    requires category { category < width }
{
    let target = next_row(cells, width, row, category);
    if next_row(cells, width, target, category) != target {
        return false;
    }
    for k in 0..width {
        let here = next_row(cells, width, row, k);
        let there = next_row(cells, width, target, k);
        let fit = match kinds[k] {
            FORGETS => there == here && next_row(cells, width, here, category) == target,
            STAYS => there == target,
            OPEN => there == row || there == target,
            _ => true,
        };
        if !fit {
            return false;
        }
    }
    true
}

/// Closes the kinds that are open, as they must be for a move to `target` to be of kind `FORGETS`.
fn close(cells: &[u16], width: usize, row: usize, target: usize, kinds: &mut [u8])
    requires all { length kinds.old ≡ width }
    requires target { target * width + width ≤ length cells.now }
{
    for k in 0..width {
        if kinds[k] == OPEN {
            let back = target != row && next_row(cells, width, target, k) == row;
            kinds[k] = if back { FORGETS } else { STAYS };
        }
    }
}

/// Opens the kinds of the moves of a row that lead back to it.
fn open(cells: &[u16], width: usize, row: usize, kinds: &mut [u8])
    requires all { length kinds.old ≡ width }
    requires row { row * width + width ≤ length cells.now }
{
    for k in 0..width {
        if kinds[k] == ENDS && next_row(cells, width, row, k) == row {
            kinds[k] = OPEN;
        }
    }
}

/// Proposes kinds of the moves of a row at which a rule ends: those that lead back to it are of
/// kind `FORGETS` or `STAYS`, and as many others as go with them are of kind `FORGETS`.
fn propose(cells: &[u16], width: usize, rows: usize, row: usize, kinds: &mut [u8])
    requires next { (i : ℕ) → i < length cells.now → slice_index cells.now i < rows }
    requires cells { length cells.now ≡ rows * width }
    requires all { length kinds.old ≡ width }
    requires row { row < rows }
{
    open(cells, width, row, kinds);
    for k in 0..width {
        if kinds[k] == ENDS && fits(cells, width, rows, row, k, kinds) {
            let target = next_row(cells, width, row, k);
            close(cells, width, row, target, kinds);
            kinds[k] = FORGETS;
        }
    }
    close(cells, width, row, row, kinds);
}

/// Writes kinds of the moves of a row. What is proposed is checked, so that nothing rests on it.
pub(crate) fn write_kinds(
    rows: &[RowHead],
    cells: &[u16],
    width: usize,
    row: usize,
    kinds: &mut [u8],
)
    requires next { AreNextRows width rows.now cells.now }
    requires all { length kinds.old ≡ width }
    requires row { row < length rows.now }
    ensures { AreKinds width rows.now cells.now (λ k. slice_index kinds.new k) row }
{
    write_plain(rows, cells, width, row, kinds);
    if ends_at(rows, row) {
        propose(cells, width, rows.len(), row, kinds);
    }
    if !are_kinds(rows, cells, width, row, kinds) {
        write_plain(rows, cells, width, row, kinds);
    }
}
