//! Tables worked by hand, each made in a function of its own.
use rbbi_table::{
    ByteList, CellList, NumberList, NumberLists, Parts, RangeList, RangeRow, RowHead, RowList,
    Table,
};
use std::alloc::{AllocError, Global};
use std::process::Abort;

/// Ranges of these starts and categories.
fn ranges_of(alloc: Global, pairs: &[(u32, u16)]) -> Result<RangeList, AllocError> {
    let mut ranges = RangeList::new(alloc);
    for pair in pairs {
        let (start, cat) = *pair;
        ranges.push(RangeRow { start, cat })?;
    }
    Ok(ranges)
}

/// One status list, `0`, and each of these numbers in a list of its own.
fn lists_of(alloc: Global, more: &[u32]) -> Result<NumberLists, AllocError> {
    let mut lists = NumberLists::new(alloc);
    lists.push(NumberList::from_vec(vec![in alloc; 0]?))?;
    for number in more {
        lists.push(NumberList::from_vec(vec![in alloc; *number]?))?;
    }
    Ok(lists)
}

/// Rows with these accept numbers, front masks and status lists.
fn rows_of(alloc: Global, given: &[(u16, u32, u16)]) -> Result<RowList, AllocError> {
    let mut rows = RowList::new(alloc);
    for row in given {
        let (accept, fronts, list) = *row;
        rows.push(RowHead {
            accept,
            fronts,
            list,
        })?;
    }
    Ok(rows)
}

fn cells_of(alloc: Global, cells: &[u16]) -> Result<CellList, AllocError> {
    Ok(CellList::from_vec(cells.to_vec(alloc)?))
}

fn safe_of(alloc: Global, safe: &[u8]) -> Result<ByteList, AllocError> {
    Ok(ByteList::from_vec(safe.to_vec(alloc)?))
}

/// The table of these parts.
fn table_of(rt: &impl Abort, alloc: Global, parts: &Parts) -> Table {
    let width = parts.categories as usize;
    assert!(rt; parts.rows.len() < 65536);
    let cells = u64::from(parts.rows.len() as u32) * u64::from(parts.categories);
    assert!(rt; parts.cells.len() as u64 == cells);
    assert!(rt; parts.safe.len() == (width * width + 7) / 8);
    Table::from_parts(alloc, parts).expect(rt, "a table")
}

/// The parts of a table of the letter `a`, or of the range that these give, alone.
fn parts_of_one(alloc: Global, ranges: &[(u32, u16)]) -> Result<Parts, AllocError> {
    Ok(Parts {
        categories: 2,
        slashes: 0,
        ranges: ranges_of(alloc, ranges)?,
        lists: lists_of(alloc, &[])?,
        rows: rows_of(alloc, &[(0, 0, 0), (0, 0, 0), (1, 0, 0)])?,
        cells: cells_of(alloc, &[0, 0, 0, 2, 0, 0])?,
        safe: safe_of(alloc, &[0x0F])?,
    })
}

/// The table of the rule `a;`.
pub(crate) fn letter_a(rt: &impl Abort, alloc: Global) -> Table {
    let ranges = [(0, 0), (0x61, 1), (0x62, 0)];
    let parts = parts_of_one(alloc, &ranges).expect(rt, "parts");
    table_of(rt, alloc, &parts)
}

/// The table of a rule that is the last code point.
pub(crate) fn last_character(rt: &impl Abort, alloc: Global) -> Table {
    let parts = parts_of_one(alloc, &[(0, 0), (0x10_FFFF, 1)]).expect(rt, "parts");
    table_of(rt, alloc, &parts)
}

fn parts_of_both(alloc: Global) -> Result<Parts, AllocError> {
    let ranges = [(0, 0), (0x61, 1), (0x62, 2), (0x63, 3), (0x64, 0)];
    let rows = [(0, 0, 0), (0, 0, 0), (0, 3, 0), (2, 0, 1), (3, 0, 0)];
    let cells = [0, 0, 0, 0, 0, 2, 0, 0, 0, 0, 3, 4, 0, 0, 0, 0, 0, 0, 0, 0];
    Ok(Parts {
        categories: 4,
        slashes: 2,
        ranges: ranges_of(alloc, &ranges)?,
        lists: lists_of(alloc, &[7])?,
        rows: rows_of(alloc, &rows)?,
        cells: cells_of(alloc, &cells)?,
        safe: safe_of(alloc, &[0x3F, 0xFF])?,
    })
}

/// The table of the rules `a/b;` and `a/[bc];`: after `ab` both are completed.
pub(crate) fn both(rt: &impl Abort, alloc: Global) -> Table {
    let parts = parts_of_both(alloc).expect(rt, "parts");
    table_of(rt, alloc, &parts)
}

fn parts_of_many(alloc: Global) -> Result<Parts, AllocError> {
    let ranges = [(0, 0), (0x61, 1), (0x62, 2), (0x63, 0)];
    let rows = [(0, 0, 0), (0, 0, 0), (0, 1, 0), (2, 0, 0)];
    Ok(Parts {
        categories: 3,
        slashes: 1,
        ranges: ranges_of(alloc, &ranges)?,
        lists: lists_of(alloc, &[])?,
        rows: rows_of(alloc, &rows)?,
        cells: cells_of(alloc, &[0, 0, 0, 0, 2, 0, 0, 2, 3, 0, 0, 0])?,
        safe: safe_of(alloc, &[0xFF, 0x01])?,
    })
}

/// The table of the rule `a+/b;`: the front ends after each `a`.
pub(crate) fn many(rt: &impl Abort, alloc: Global) -> Table {
    let parts = parts_of_many(alloc).expect(rt, "parts");
    table_of(rt, alloc, &parts)
}
