//! Whether each look-ahead rule's front ends before the rule is completed.
ghost use Rattle.std.specs.Prelude.{◌≡◌, ℕ, ◌↔◌, ◌+◌, ◌*◌, ◌^◌, ◌<◌, ◌≤◌, [], length};
ghost use Rattle.std.specs.Prelude.{slice_index_or, IfOk, IsTrue};
ghost use Rattle.rbbi_model.specs.Tables.{empty_head};
ghost use Rattle.rbbi_model.specs.ValidTables.{AreFronted, AreValidRows, IsPlain};
ghost use Rattle.rbbi_table.specs.Parts.{table_of, rows_of, AreNextRows};
ghost use Rattle.rbbi_table.specs.inner.Fronts.{IsFronted, IsReached, IsWalk, GivesNext};

use crate::bits::has_front;
use crate::gather::add_target;
use crate::{Parts, RowHead};
use std::alloc::{AllocError, Global};

/// Adds the rows that a row leads to and at which the front of look-ahead rule `slash` doesn't end.
/// The answer is whether the rule is completed at none of the rows that it leads to.
fn follow_row(
    width: usize,
    rows: &[RowHead],
    cells: &[u16],
    slash: u16,
    row: usize,
    seen: &mut Vec<bool>,
    queue: &mut Vec<u16>,
) -> Result<bool, AllocError>
    requires steps { AreNextRows width rows.now cells.now }
    requires few { length rows.now < 2 ^ 16 }
    requires slash { slash < 32 }
    requires walk { IsWalk (rows_of width rows.now cells.now []) slash seen.old.items
        queue.old.items }
    requires reached { IsReached (rows_of width rows.now cells.now []) slash row }
    ensures { IfOk result (λ followed. GivesNext (rows_of width rows.now cells.now []) slash row
        queue.old.items seen.new.items queue.new.items followed) }
{
    for cell in &cells[row * width..row * width + width] {
        let head = rows[*cell as usize];
        if head.accept == slash + 2 {
            return Ok(false);
        }
        if has_front(head.fronts, slash) {
            continue;
        }
        add_target(seen, queue, *cell)?;
    }
    Ok(true)
}

/// Follows all rows of the queue, those too that it comes to. The answer is whether look-ahead
/// rule `slash` is completed at none of the rows that they lead to.
fn follow_rows(
    width: usize,
    rows: &[RowHead],
    cells: &[u16],
    slash: u16,
    seen: &mut Vec<bool>,
    queue: &mut Vec<u16>,
) -> Result<bool, AllocError>
    requires steps { AreNextRows width rows.now cells.now }
    requires few { length rows.now < 2 ^ 16 }
    requires slash { slash < 32 }
    requires walk { IsWalk (rows_of width rows.now cells.now []) slash seen.old.items
        queue.old.items }
    ensures { IfOk result (λ fronted. IsTrue fronted
        ↔ IsFronted (rows_of width rows.now cells.now []) slash) }
{
    let mut done = 0;
    while done < queue.len() {
        let row = queue[done] as usize;
        let followed = follow_row(width, rows, cells, slash, row, seen, queue)?;
        if !followed {
            return Ok(false);
        }
        done += 1;
    }
    Ok(true)
}

/// Whether no row at which look-ahead rule `slash` is completed can be entered from row 1 through
/// rows at which its front doesn't end: a breadth-first search.
fn is_fronted(
    alloc: Global,
    width: usize,
    rows: &[RowHead],
    cells: &[u16],
    slash: u16,
) -> Result<bool, AllocError>
    requires steps { AreNextRows width rows.now cells.now }
    requires some { 2 ≤ length rows.now }
    requires few { length rows.now < 2 ^ 16 }
    requires start { IsPlain (slice_index_or rows.now 1 empty_head) }
    requires slash { slash < 32 }
    ensures { IfOk result (λ fronted. IsTrue fronted
        ↔ IsFronted (rows_of width rows.now cells.now []) slash) }
{
    let mut seen = vec![in alloc; false; rows.len()]?;
    let mut queue = Vec::with_capacity(alloc, rows.len())?;
    add_target(&mut seen, &mut queue, 1)?;
    follow_rows(width, rows, cells, slash, &mut seen, &mut queue)
}

/// Whether on every way from row 1 into a row at which a look-ahead rule is completed, its front
/// ends at an earlier row. It goes over the rows once for each look-ahead rule, and not over ways.
pub(crate) fn are_fronted(alloc: Global, parts: &Parts) -> Result<bool, AllocError>
    requires cells { length parts.now.cells ≡ length parts.now.rows * parts.now.categories }
    requires rows { AreValidRows (table_of parts.now) }
    ensures { IfOk result (λ fronted. IsTrue fronted ↔ AreFronted (table_of parts.now)) }
{
    let rows = parts.rows.as_slice();
    let cells = parts.cells.as_slice();
    let width = parts.categories as usize;
    for slash in 0..parts.slashes {
        let fronted = is_fronted(alloc, width, rows, cells, slash)?;
        if !fronted {
            return Ok(false);
        }
    }
    Ok(true)
}
