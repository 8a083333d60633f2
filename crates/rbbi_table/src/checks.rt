//! The checks of parts that come from outside.
ghost use Rattle.std.specs.Prelude.{MatchResult};
ghost use Rattle.rbbi_table.specs.Parts.{table_of, HasFittingParts, AreValidParts};
ghost use Rattle.rbbi_table.specs.Answers.{IsRefused};

use crate::fronts::are_fronted;
use crate::lists::are_valid_lists;
use crate::ranges::are_valid_ranges;
use crate::rows::are_valid_rows;
use crate::safe::are_paired;
use crate::{Parts, TableErr};
use std::alloc::Global;

/// Refuses the first part that isn't valid.
pub(crate) fn check_parts(alloc: Global, parts: &Parts) -> Result<(), TableErr>
    requires { HasFittingParts (table_of parts.now) }
    ensures { MatchResult result (λ _. AreValidParts (table_of parts.now))
        (λ error. IsRefused (table_of parts.now) error) }
{
    if !are_valid_ranges(parts.categories, parts.ranges.as_slice()) {
        return Err(TableErr::BadRanges);
    }
    if !are_valid_lists(parts.lists.as_slice()) {
        return Err(TableErr::BadLists);
    }
    if !are_valid_rows(parts) {
        return Err(TableErr::BadRows);
    }
    let fronted = are_fronted(alloc, parts)?;
    if !fronted {
        return Err(TableErr::BadFronts);
    }
    let paired = are_paired(alloc, parts)?;
    if !paired {
        return Err(TableErr::BadSafe);
    }
    Ok(())
}
