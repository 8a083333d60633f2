//! Sets of code points by the ends of their ranges.
ghost use Rattle.std.specs.Prelude.{IfOk};
ghost use Rattle.std.specs.List.{All};
ghost use Rattle.rbbi_sets.specs.Rising.{IsRange};

use rbbi_sets::{CodeRange, CodeSet};
use std::alloc::{AllocError, Global};

pub(crate) type Pairs = &'static [(u32, u32)];

pub(crate) const LAST: u32 = 0x10_FFFF;

fn collect(alloc: Global, pairs: &[(u32, u32)]) -> Result<Vec<CodeRange>, AllocError>
    ensures { IfOk result (λ ranges. All IsRange ranges.items) }
{
    let mut ranges = Vec::new(alloc);
    for pair in pairs {
        let low = pair.0;
        let high = pair.1;
        if low <= high && high <= LAST {
            ranges.push(CodeRange { low, high })?;
        }
    }
    Ok(ranges)
}

pub(crate) fn set_of(alloc: Global, pairs: &[(u32, u32)]) -> Result<CodeSet, AllocError> {
    CodeSet::from_ranges(alloc, collect(alloc, pairs)?)
}
