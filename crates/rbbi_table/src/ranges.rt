//! Whether the ranges of the categories are valid.
ghost use Rattle.std.specs.Prelude.{◌↔◌, IsTrue};
ghost use Rattle.rbbi_model.specs.ValidTables.{AreValidRanges};
ghost use Rattle.rbbi_table.specs.inner.Ranges.{IsValidBehind};

use crate::RangeRow;
use crate::limits::{LAST_CODE_POINT, MOST_CATEGORIES};

/// Whether the range starts past the one before it, has another category, and is within the bounds.
fn goes_on(categories: u16, previous: &RangeRow, range: &RangeRow) -> bool
    ensures { IsTrue result ↔ IsValidBehind categories previous.now range.now }
{
    previous.start < range.start
        && previous.cat != range.cat
        && range.start <= LAST_CODE_POINT
        && range.cat < categories
}

/// Whether the number of categories is allowed and the ranges give each code point one of them.
pub(crate) fn are_valid_ranges(categories: u16, ranges: &[RangeRow]) -> bool
    ensures { IsTrue result ↔ AreValidRanges categories ranges.now }
{
    if categories == 0 || categories > MOST_CATEGORIES || ranges.is_empty() {
        return false;
    }
    let mut previous = ranges[0];
    if previous.start != 0 || previous.cat >= categories {
        return false;
    }
    for range in &ranges[1..] {
        if !goes_on(categories, &previous, range) {
            return false;
        }
        previous = *range;
    }
    true
}
