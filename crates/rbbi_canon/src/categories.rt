//! The categories of a canonical table.
ghost use Rattle.std.specs.Prelude.{◌≡◌, ◌<◌, ◌≤◌, ℕ, length, slice_index, IfOk, OnOk};
ghost use Rattle.rbbi_model.specs.ValidTables.{AreValidRanges};
ghost use Rattle.rbbi_canon.specs.inner.Grids.{AreJoined};
ghost use Rattle.rbbi_canon.specs.inner.Ranges.{AddsRange};

use crate::columns::representatives;
use crate::grid::Grid;
use crate::numbering::Numbering;
use rbbi_table::RangeRow;
use std::alloc::{AllocError, Global};

/// The categories of a canonical table.
#[derive(Drop)]
pub(crate) struct Joined {
    /// For each category one of those that are joined in it.
    pub firsts: Vec<u16>,
    /// The ranges of the categories, by rising starts.
    pub ranges: Vec<RangeRow>,
}

/// Adds a range after others, unless the last of them has the same category.
fn add_range(ranges: &mut Vec<RangeRow>, range: RangeRow) -> Result<(), AllocError>
    ensures { OnOk result (AddsRange ranges.old.items range ranges.new.items) }
{
    let same = match ranges.last() {
        Some(last) => last.cat == range.cat,
        None => false,
    };
    if !same {
        ranges.push(range)?;
    }
    Ok(())
}

/// Joins categories by which every row leads to the same row. The one of the surrogates, which are
/// in category 0, comes first, and the others come by their least code points.
pub(crate) fn join_categories(
    alloc: Global,
    grid: &Grid,
    ranges: &[RangeRow],
) -> Result<Joined, AllocError>
    requires { AreValidRanges grid.now.width ranges.now }
    ensures { IfOk result (λ joined.
        AreJoined grid.now ranges.now joined.firsts.items joined.ranges.items) }
{
    let found = representatives(alloc, grid)?;
    let mut met = Numbering::new(alloc, grid.width)?;
    met.place_of(found[0])?;
    let mut joined = Vec::new(alloc);
    for range in ranges {
        let cat = met.place_of(found[range.cat as usize])?;
        let start = range.start;
        add_range(&mut joined, RangeRow { start, cat })?;
    }
    Ok(Joined {
        firsts: met.order,
        ranges: joined,
    })
}
