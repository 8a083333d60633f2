//! A table from bytes.
ghost use Rattle.std.specs.Prelude.{◌≡◌, ◌^◌, ◌<◌, ◌≤◌, ◌++◌, length, IfOk, MatchOption, MatchBool};
ghost use Rattle.rbbi_model.specs.TableFile.{u16 as two_bytes, u32 as four_bytes};
ghost use Rattle.rbbi_text.specs.Bytes.{most_bytes};
ghost use Rattle.rbbi_table.specs.Parts.{table_of};
ghost use Rattle.rbbi_file.specs.Lengths.{u16_at as number_in_two, u32_at as number_in_four};
ghost use Rattle.rbbi_file.specs.Lengths.{HasMagic, lists_end, parts_end};
ghost use Rattle.rbbi_file.specs.Fitting.{Spell};
ghost use Rattle.rbbi_file.specs.inner.Reading.{Stand};
ghost use Rattle.rbbi_file.specs.Answers.{HasTablesOf, ReadsTable, ReadsEachSpelling};

use crate::cells::{cell_size, row_size};
use crate::numbers::{u16_at, u32_at};
use crate::parts::{lists_at, ranges_at, rows_at};
use crate::{FileErr, MAGIC_1, MAGIC_2};
use rbbi_table::{ByteList, CellList, NumberLists, Parts, RangeList, RowList, Table, TableErr};
use std::alloc::{AllocError, Global};

/// The most categories that a file of version 1 may have.
const MOST_CATEGORIES_1: u16 = 255;

/// The five counts after the magic.
#[derive(Clone, Copy)]
struct Counts {
    categories: u16,
    ranges: u32,
    lists: u16,
    rows: u16,
    slashes: u16,
}

/// The counts of a file that is long enough to have them.
fn counts_of(bytes: &[u8]) -> Counts
    requires { 20 ≤ length bytes.now }
    ensures categories { result.categories ≡ number_in_two bytes.now 8 }
    ensures ranges { result.ranges ≡ number_in_four bytes.now 10 }
    ensures lists { result.lists ≡ number_in_two bytes.now 14 }
    ensures rows { result.rows ≡ number_in_two bytes.now 16 }
    ensures slashes { result.slashes ≡ number_in_two bytes.now 18 }
    ensures stand { Stand bytes.now (two_bytes result.categories ++ four_bytes result.ranges
        ++ two_bytes result.lists ++ two_bytes result.rows ++ two_bytes result.slashes) 8 20 }
{
    Counts {
        categories: u16_at(bytes, 8),
        ranges: u32_at(bytes, 10),
        lists: u16_at(bytes, 14),
        rows: u16_at(bytes, 16),
        slashes: u16_at(bytes, 18),
    }
}

/// Where `count` status lists end that begin at a place, or none if the file ends before.
fn end_of_lists(bytes: &[u8], count: u16, at: usize) -> Option<usize>
    requires short { length bytes.now ≤ most_bytes }
    requires start { at < 2 ^ 36 }
    ensures exact { MatchOption result (length bytes.now < lists_end bytes.now count at)
        (λ end. end ≡ lists_end bytes.now count at) }
    ensures small { MatchOption result (length bytes.now < 2 ^ 37) (λ end. end < 2 ^ 37) }
{
    let mut at = at;
    for _list in 0..count {
        if at + 2 > bytes.len() {
            return None;
        }
        at += 2 + 4 * u16_at(bytes, at) as usize;
    }
    Some(at)
}

/// Where the parts end, as the counts and the lengths of the lists say, or none if the file ends
/// before. It takes no memory, whatever the counts promise.
fn end_of_parts(bytes: &[u8]) -> Option<usize>
    requires { length bytes.now ≤ most_bytes }
    ensures { MatchOption result (length bytes.now < parts_end bytes.now)
        (λ end. (end ≡ parts_end bytes.now) × (end ≤ length bytes.now)) }
{
    if bytes.len() < 20 {
        return None;
    }
    let counts = counts_of(bytes);
    let width = counts.categories as usize;
    let lists = end_of_lists(bytes, counts.lists, 20 + 6 * counts.ranges as usize)?;
    let row = row_size(cell_size(bytes[7], counts.rows), width);
    let end = lists + counts.rows as usize * row + (width * width + 7) / 8;
    if end <= bytes.len() { Some(end) } else { None }
}

/// The parts of a file whose length is that of its parts, and so memory of a small multiple of it.
fn parts_of(alloc: Global, bytes: &[u8]) -> Result<Parts, AllocError>
    requires magic { HasMagic bytes.now }
    requires whole { parts_end bytes.now ≡ length bytes.now }
    ensures { IfOk result (λ parts. Spell bytes.now (table_of parts)) }
{
    let counts = counts_of(bytes);
    let width = counts.categories as usize;
    let rows = counts.rows as usize;
    let at = 20 + 6 * counts.ranges as usize;
    let ranges = ranges_at(alloc, bytes, 20, counts.ranges as usize)?;
    let (lists, at) = lists_at(alloc, bytes, at, counts.lists as usize)?;
    let size = cell_size(bytes[7], counts.rows);
    let (heads, cells) = rows_at(alloc, bytes, size, at, rows, width)?;
    let safe = bytes[at + rows * row_size(size, width)..].to_vec(alloc)?;
    Ok(Parts {
        categories: counts.categories,
        slashes: counts.slashes,
        ranges: RangeList::from_vec(ranges),
        lists: NumberLists::from_vec(lists),
        rows: RowList::from_vec(heads),
        cells: CellList::from_vec(cells),
        safe: ByteList::from_vec(safe),
    })
}

/// Whether the file begins as a table file of one of the versions does.
fn has_magic(bytes: &[u8]) -> bool
    ensures { MatchBool result (HasMagic bytes.now) (¬ HasMagic bytes.now) }
{
    if bytes.len() < 8 {
        return false;
    }
    let magic = &bytes[..8];
    magic == MAGIC_1.as_slice() || magic == MAGIC_2.as_slice()
}

/// Whether the version has tables of these parts: in version 1 they have at most 255 categories.
fn has_tables(version: u8, parts: &Parts) -> bool
    ensures { MatchBool result (HasTablesOf version (table_of parts.now))
        (¬ HasTablesOf version (table_of parts.now)) }
{
    version != 1 || parts.categories <= MOST_CATEGORIES_1
}

/// The table that the bytes of a table file spell, of either version.
///
/// Refuses `BadMagic` if the first eight bytes aren't those of a table file; otherwise `Short` if
/// the file ends before its parts do; otherwise `Trailing` if bytes follow; otherwise `Part` with
/// the first part that isn't valid, which is `BadRanges` if a file of version 1 has more than 255
/// categories. Lengths are checked before memory is taken.
pub fn read_table(alloc: Global, bytes: &[u8]) -> Result<Table, FileErr>
    requires { length bytes.now ≤ most_bytes }
    ensures exact { ReadsTable bytes.now result }
    ensures complete { ReadsEachSpelling bytes.now result }
{
    if !has_magic(bytes) {
        return Err(FileErr::BadMagic);
    }
    let Some(end) = end_of_parts(bytes) else {
        return Err(FileErr::Short(bytes.len() as u32));
    };
    if end < bytes.len() {
        return Err(FileErr::Trailing(end as u32));
    }
    let parts = parts_of(alloc, bytes)?;
    if !has_tables(bytes[7], &parts) {
        return Err(FileErr::Part(TableErr::BadRanges));
    }
    match Table::from_parts(alloc, &parts) {
        Ok(table) => Ok(table),
        Err(error) => match error {
            TableErr::Memory => Err(FileErr::Memory),
            error => Err(FileErr::Part(error)),
        },
    }
}
