//! The parts of a table from bytes.
ghost use Rattle.std.specs.Prelude.{◌≡◌, [], ◌+◌, ◌*◌, ◌^◌, ◌<◌, ◌≤◌, length, IfOk, OnOk, flat_map};
ghost use Rattle.std.specs.List.{AllByRecursion};
ghost use Rattle.rbbi_model.specs.TableFile.{u16 as two_bytes, u32 as four_bytes, range_bytes};
ghost use Rattle.rbbi_model.specs.TableFile.{list_bytes, head_bytes};
ghost use Rattle.rbbi_file.specs.Lengths.{lists_end, rows_size};
ghost use Rattle.rbbi_file.specs.Fitting.{FitsRange, FitsList, FitsHead};
ghost use Rattle.rbbi_file.specs.inner.Reading.{Stand, AreCellsAt, AreListsAt, AreRowsAt};

use crate::cells::row_size;
use crate::numbers::{sized_at, u16_at, u32_at};
use rbbi_table::{NumberList, RangeRow, RowHead};
use std::alloc::{AllocError, Global};

/// Reads `count` ranges at a place.
pub(crate) fn ranges_at(
    alloc: Global,
    bytes: &[u8],
    at: usize,
    count: usize,
) -> Result<Vec<RangeRow>, AllocError>
    requires { at + 6 * count ≤ length bytes.now }
    ensures stand { IfOk result (λ ranges.
        Stand bytes.now (flat_map range_bytes ranges.items) at (at + 6 * count)) }
    ensures count { IfOk result (λ ranges. length ranges.items ≡ count) }
    ensures fit { IfOk result (λ ranges. AllByRecursion FitsRange ranges.items) }
{
    let mut ranges = Vec::with_capacity(alloc, count)?;
    for range in 0..count {
        let start = u32_at(bytes, at + 6 * range);
        let cat = u16_at(bytes, at + 6 * range + 4);
        ranges.push(RangeRow { start, cat })?;
    }
    Ok(ranges)
}

/// Reads `count` numbers of four bytes at a place.
fn statuses_at(alloc: Global, bytes: &[u8], at: usize, count: usize) -> Result<Vec<u32>, AllocError>
    requires { at + 4 * count ≤ length bytes.now }
    ensures stand { IfOk result (λ statuses.
        Stand bytes.now (flat_map four_bytes statuses.items) at (at + 4 * count)) }
    ensures count { IfOk result (λ statuses. length statuses.items ≡ count) }
    ensures fit { IfOk result (λ statuses.
        AllByRecursion (λ status. status < 2 ^ 32) statuses.items) }
{
    let mut statuses = Vec::with_capacity(alloc, count)?;
    for status in 0..count {
        statuses.push(u32_at(bytes, at + 4 * status))?;
    }
    Ok(statuses)
}

/// Reads the status list at a place, which has `count` numbers after its length.
fn list_at(alloc: Global, bytes: &[u8], at: usize, count: u16) -> Result<NumberList, AllocError>
    requires length { Stand bytes.now (two_bytes count) at (at + 2) }
    requires whole { at + (2 + 4 * count) ≤ length bytes.now }
    ensures stand { IfOk result (λ statuses.
        Stand bytes.now (list_bytes statuses) at (at + (2 + 4 * count))) }
    ensures fit { IfOk result FitsList }
{
    let statuses = statuses_at(alloc, bytes, at + 2, count as usize)?;
    Ok(NumberList::from_vec(statuses))
}

/// Reads `count` status lists at a place, and tells where they end.
pub(crate) fn lists_at(
    alloc: Global,
    bytes: &[u8],
    at: usize,
    count: usize,
) -> Result<(Vec<NumberList>, usize), AllocError>
    requires { lists_end bytes.now count at ≤ length bytes.now }
    ensures lists { IfOk result (λ found. AreListsAt bytes.now found.0.items at found.1) }
    ensures count { IfOk result (λ found. length found.0.items ≡ count) }
    ensures end { IfOk result (λ found. found.1 ≡ lists_end bytes.now count at) }
{
    let mut end = at;
    let mut lists = Vec::with_capacity(alloc, count)?;
    for _list in 0..count {
        let length = u16_at(bytes, end);
        lists.push(list_at(alloc, bytes, end, length)?)?;
        end += 2 + 4 * length as usize;
    }
    Ok((lists, end))
}

/// Reads the head of a row at a place.
fn head_at(bytes: &[u8], at: usize) -> RowHead
    requires { at + 8 ≤ length bytes.now }
    ensures stand { Stand bytes.now (head_bytes result) at (at + 8) }
    ensures fits { FitsHead result }
{
    RowHead {
        accept: u16_at(bytes, at),
        fronts: u32_at(bytes, at + 2),
        list: u16_at(bytes, at + 6),
    }
}

/// Adds `count` numbers, which are read at a place, each in one or two bytes.
fn add_cells(
    cells: &mut Vec<u16>,
    bytes: &[u8],
    size: usize,
    at: usize,
    count: usize,
) -> Result<(), AllocError>
    requires some { 1 ≤ size }
    requires few { size ≤ 2 }
    requires whole { at + size * count ≤ length bytes.now }
    ensures { OnOk result (AreCellsAt size bytes.now cells.old.items cells.new.items at count) }
{
    let mut place = at;
    for _cell in 0..count {
        cells.push(sized_at(bytes, size, place))?;
        place += size;
    }
    Ok(())
}

/// Fills the lists of heads and of next rows with those of `count` rows, which are read at a place.
fn add_rows(
    rows: &mut Vec<RowHead>,
    cells: &mut Vec<u16>,
    bytes: &[u8],
    size: usize,
    at: usize,
    count: usize,
    width: usize,
) -> Result<(), AllocError>
    requires rows { rows.old.items ≡ [] }
    requires cells { cells.old.items ≡ [] }
    requires some { 1 ≤ size }
    requires few { size ≤ 2 }
    requires narrow { width < 2 ^ 16 }
    requires whole { at + rows_size size count width ≤ length bytes.now }
    ensures { OnOk result
        (AreRowsAt size bytes.now width count rows.new.items cells.new.items at) }
{
    let mut start = at;
    for _row in 0..count {
        rows.push(head_at(bytes, start))?;
        add_cells(cells, bytes, size, start + 8, width)?;
        start += row_size(size, width);
    }
    Ok(())
}

/// Reads `count` rows at a place: their heads, and their next rows, each in one or two bytes.
pub(crate) fn rows_at(
    alloc: Global,
    bytes: &[u8],
    size: usize,
    at: usize,
    count: usize,
    width: usize,
) -> Result<(Vec<RowHead>, Vec<u16>), AllocError>
    requires some { 1 ≤ size }
    requires few { size ≤ 2 }
    requires narrow { width < 2 ^ 16 }
    requires whole { at + rows_size size count width ≤ length bytes.now }
    ensures { IfOk result (λ rows.
        AreRowsAt size bytes.now width count rows.0.items rows.1.items at) }
{
    let mut rows = Vec::with_capacity(alloc, count)?;
    let mut cells = Vec::with_capacity(alloc, count * width)?;
    add_rows(&mut rows, &mut cells, bytes, size, at, count, width)?;
    Ok((rows, cells))
}
