//! The parts of a table.
ghost use Rattle.std.specs.Prelude.{◌≡◌, IfOk};

use crate::{ByteList, CellList, NumberList, NumberLists, RangeList, RowList};
use std::alloc::{AllocError, Global};
use std::marker::Model;

/// A range of code points of one category. It reaches to the code point before the next range's
/// start, the last one to U+10FFFF. Contracts see it as a `CategoryRange` of `rbbi_model`.
#[derive(Clone, Copy, PartialEq, Eq)]
pub struct RangeRow {
    /// The first code point.
    pub start: u32,
    /// The number of the category.
    pub cat: u16,
}

impl Model for RangeRow {
    ghost use Rattle.rbbi_model.specs.Tables.{CategoryRange};

    ghost Value = { CategoryRange };

    ghost view = { λ range. record { start = range.start; category = range.cat } };

    ghost inverse = { λ range. record { start = range.start; cat = range.category } };
}

/// What is marked at a row. Contracts see it as a `RowHead` of `rbbi_model`.
#[derive(Clone, Copy, PartialEq, Eq)]
pub struct RowHead {
    /// 0 if no rule ends, 1 if some rule ends and no look-ahead rule, and `k + 2` if look-ahead
    /// rule `k` is completed.
    pub accept: u16,
    /// Bit `k` is set if the front of look-ahead rule `k` ends.
    pub fronts: u32,
    /// The number of the status list.
    pub list: u16,
}

impl Model for RowHead {
    ghost use Rattle.rbbi_model.specs.Tables.{RowHead};

    ghost Value = { RowHead };

    ghost view = { λ head. record {
      accept = head.accept;
      fronts = head.fronts;
      list = head.list;
    } };

    ghost inverse = { λ head. record {
      accept = head.accept;
      fronts = head.fronts;
      list =
          head.list;
    } };
}

/// The parts of a table, as a table file holds them. Contracts speak of the table that they are by
/// `table_of`.
#[derive(Drop)]
pub struct Parts {
    /// How many categories there are.
    pub categories: u16,
    /// How many look-ahead rules there are.
    pub slashes: u16,
    /// The ranges of the categories, by rising starts.
    pub ranges: RangeList,
    /// The status lists.
    pub lists: NumberLists,
    /// The heads of the rows.
    pub rows: RowList,
    /// The next rows, row after row, one for each category.
    pub cells: CellList,
    /// A bit for each pair of categories: the pair of `first` and `second` has the bit with the
    /// number `first * categories + second`, eight a byte, the one of least value first.
    pub safe: ByteList,
}
/// A copy of the parts.
pub(crate) fn copied(alloc: Global, parts: &Parts) -> Result<Parts, AllocError>
    ensures { IfOk result (λ copy. copy ≡ parts.now) }
{
    let mut lists = Vec::with_capacity(alloc, parts.lists.len())?;
    for list in parts.lists.as_slice() {
        lists.push(NumberList::from_vec(list.as_slice().to_vec(alloc)?))?;
    }
    Ok(Parts {
        categories: parts.categories,
        slashes: parts.slashes,
        ranges: RangeList::from_vec(parts.ranges.as_slice().to_vec(alloc)?),
        lists: NumberLists::from_vec(lists),
        rows: RowList::from_vec(parts.rows.as_slice().to_vec(alloc)?),
        cells: CellList::from_vec(parts.cells.as_slice().to_vec(alloc)?),
        safe: ByteList::from_vec(parts.safe.as_slice().to_vec(alloc)?),
    })
}
