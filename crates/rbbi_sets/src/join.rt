//! Ranges put at the end of a list that rises.
ghost use Rattle.std.specs.Prelude.{◌≡◌, ◌≤◌, OnOk};
ghost use Rattle.std.specs.Result.{OnErr};
ghost use Rattle.rbbi_sets.specs.Rising.{AreRising};
ghost use Rattle.rbbi_sets.specs.inner.Rising.{BeginUpTo};
ghost use Rattle.rbbi_sets.specs.Covers.{is_between};
ghost use Rattle.rbbi_sets.specs.inner.Joins.{Joins};

use crate::CodeRange;
use std::alloc::AllocError;

/// Adds the code points from `low` to `high` at the end. A last range that overlaps or touches them
/// takes them in.
pub(crate) fn join_last(ranges: &mut Vec<CodeRange>, low: u32, high: u32) -> Result<(), AllocError>
    requires range { low ≤ high }
    requires code_points { high ≤ 0x10FFFF }
    requires rising { AreRising ranges.old.items }
    requires begin { BeginUpTo ranges.old.items low }
    ensures joins { OnOk result
        (Joins ranges.old.items ranges.new.items (is_between low high) low) }
    ensures refused { OnErr result (ranges.new.items ≡ ranges.old.items) }
{
    let count = ranges.len();
    if count > 0 {
        let last = ranges[count - 1];
        if low <= last.high + 1 {
            if last.high < high {
                ranges[count - 1] = CodeRange {
                    low: last.low,
                    high,
                };
            }
            return Ok(());
        }
    }
    ranges.push(CodeRange { low, high })?;
    Ok(())
}
