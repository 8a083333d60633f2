//! A table as bytes.
ghost use Rattle.std.specs.Prelude.{◌≡◌, ◌*◌, ◌≤◌, ◌++◌, length, IfOk, OnOk, flat_map};
ghost use Rattle.std.specs.List.{AllByRecursion};
ghost use Rattle.rbbi_model.specs.TableFile.{spelling, range_bytes, list_bytes, head_bytes};
ghost use Rattle.rbbi_model.specs.TableFile.{row_bytes};
ghost use Rattle.rbbi_text.specs.Bytes.{most_bytes};
ghost use Rattle.rbbi_file.specs.Fitting.{FitsList};

use crate::MAGIC_2;
use crate::cells::{cell_size, row_size};
use crate::numbers::{put_all_sized, put_u16, put_u32, put_u32s};
use rbbi_table::{NumberList, RangeRow, RowHead, Table};
use std::alloc::{AllocError, Global};

/// How many bytes the table file takes, so that memory is taken once. A next row takes one or two.
fn size_of(table: &Table, size: usize) -> usize
    requires fit { AllByRecursion FitsList table.now.lists }
    requires some { 1 ≤ size }
    requires few { size ≤ 2 }
{
    let width = table.categories() as usize;
    let mut front = 20 + 6 * table.ranges() as usize;
    for list in 0..table.lists() {
        front += 2 + 4 * table.status_list(list).len();
    }
    front + table.rows() as usize * row_size(size, width) + (width * width + 7) / 8
}

/// Adds ranges: the start of each in four bytes and its category in two.
fn put_ranges(out: &mut Vec<u8>, ranges: &[RangeRow]) -> Result<(), AllocError>
    ensures { OnOk result (out.new.items ≡ out.old.items ++ flat_map range_bytes ranges.now) }
{
    for range in ranges {
        let range = *range;
        put_u32(out, range.start)?;
        put_u16(out, range.cat)?;
    }
    Ok(())
}

/// Adds status lists: the length of each in two bytes and each number in four.
fn put_lists(out: &mut Vec<u8>, lists: &[NumberList]) -> Result<(), AllocError>
    requires { AllByRecursion FitsList lists.now }
    ensures { OnOk result (out.new.items ≡ out.old.items ++ flat_map list_bytes lists.now) }
{
    for list in lists {
        put_u16(out, list.len() as u16)?;
        put_u32s(out, list.as_slice())?;
    }
    Ok(())
}

/// Adds a row's head in eight bytes.
fn put_head(out: &mut Vec<u8>, head: RowHead) -> Result<(), AllocError>
    ensures { OnOk result (out.new.items ≡ out.old.items ++ head_bytes head) }
{
    put_u16(out, head.accept)?;
    put_u32(out, head.fronts)?;
    put_u16(out, head.list)
}

/// Adds rows: the head of each and its next rows, each of these in one or two bytes.
fn put_rows(
    out: &mut Vec<u8>,
    size: usize,
    width: usize,
    rows: &[RowHead],
    cells: &[u16],
) -> Result<(), AllocError>
    requires some { 1 ≤ size }
    requires few { size ≤ 2 }
    requires whole { length cells.now ≡ length rows.now * width }
    ensures { OnOk result (out.new.items
        ≡ out.old.items ++ row_bytes size width rows.now cells.now) }
{
    for row in 0..rows.len() {
        put_head(out, rows[row])?;
        put_all_sized(out, size, &cells[row * width..row * width + width])?;
    }
    Ok(())
}

/// The table's spelling of version 2: the bytes of its table file. They are fewer than the most
/// that `read_table` takes.
pub fn write_table(alloc: Global, table: &Table) -> Result<Vec<u8>, AllocError>
    ensures spelled { IfOk result (λ bytes. bytes.items ≡ spelling table.now) }
    ensures short { IfOk result (λ bytes. length bytes.items ≤ most_bytes) }
{
    table.valid();
    let parts = table.parts();
    let size = cell_size(2, table.rows());
    let mut out = Vec::with_capacity(alloc, size_of(table, size))?;
    out.extend_from_slice(&MAGIC_2)?;
    put_u16(&mut out, table.categories())?;
    put_u32(&mut out, table.ranges())?;
    put_u16(&mut out, table.lists())?;
    put_u16(&mut out, table.rows())?;
    put_u16(&mut out, table.slashes())?;
    put_ranges(&mut out, parts.ranges.as_slice())?;
    put_lists(&mut out, parts.lists.as_slice())?;
    put_rows(
        &mut out,
        size,
        parts.categories as usize,
        parts.rows.as_slice(),
        parts.cells.as_slice(),
    )?;
    out.extend_from_slice(parts.safe.as_slice())?;
    Ok(out)
}
