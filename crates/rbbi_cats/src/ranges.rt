//! The ranges of the categories.
ghost use Rattle.std.specs.Prelude.{◌≡◌, ◌≤◌, ◌<◌, ◌^◌, ℕ, IfOk, length, slice_index};
ghost use Rattle.rbbi_classes.specs.Steps.{number_at, AreSteps};
ghost use Rattle.rbbi_cats.specs.inner.Ranges.{AreRangesOf};

use crate::CatRange;
use rbbi_classes::Step;
use std::alloc::{AllocError, Global};

/// The ranges of the categories, where each class of a division with these steps has one:
/// neighbours of one category are one range.
pub(crate) fn ranges_of(
    alloc: Global,
    steps: &[Step],
    categories: &[usize],
) -> Result<Vec<CatRange>, AllocError>
    requires steps { AreSteps steps.now }
    requires classes { (c : ℕ) → c ≤ 0x10FFFF → number_at steps.now c < length categories.now }
    requires small { (class : ℕ) → slice_index categories.now class < 2 ^ 16 }
    ensures { IfOk result (λ ranges. AreRangesOf steps.now categories.now ranges.items) }
{
    let mut ranges = Vec::new(alloc);
    let mut last = CatRange {
        start: 0,
        cat: categories[0] as u16,
    };
    for step in steps {
        let cat = categories[step.number as usize] as u16;
        if cat != last.cat {
            ranges.push(last)?;
            last = CatRange {
                start: step.start,
                cat,
            };
        }
    }
    ranges.push(last)?;
    Ok(ranges)
}
