//! From the positions of rules to their table.
ghost use Rattle.std.specs.Prelude.{◌≡◌, List, count_by, is_some};
ghost use Rattle.rbbi_model.specs.Rules.{Rule};
ghost use Rattle.rbbi_dfa.specs.Builds.{AreCompilable, BuildsTable};

use crate::determinize::automaton_of;
use crate::error::BuildErr;
use crate::table::least_table;
use rbbi_cats::Categories;
use rbbi_model::marks_are_unique;
use rbbi_positions::Positions;
use rbbi_table::{RangeList, Table};
use std::alloc::Global;

/// The least table with the marks of the rules that positions and categories are those of. Clauses
/// hold for any such list of lawful rules.
///
/// Refuses `TooManySets` exactly where the rules have more than 16,384 distinct leaf sets that
/// aren't empty; otherwise `TooManyRows` exactly where the least table has more than 4,095 rows,
/// rows 0 and 1 counted; otherwise `TooManyStatuses` exactly where it has more than 4,095 status
/// lists, 0 alone counted, which so few rows never have; and `Memory` where memory runs out.
pub fn build(alloc: Global, positions: &Positions, cats: &Categories) -> Result<Table, BuildErr>
    requires { (rules : List Rule) × AreCompilable rules positions.now cats.now }
    ensures { (rules : List Rule) →
        AreCompilable rules positions.now cats.now → BuildsTable rules result }
{
    let slashes = look_aheads(positions);
    let automaton = automaton_of(alloc, positions, cats.count(), slashes as u16)?;
    let ranges = RangeList::from_vec(cats.ranges().to_vec(alloc)?);
    marks_are_unique();
    least_table(alloc, &automaton, ranges)
}

/// How many rules look ahead.
fn look_aheads(positions: &Positions) -> u32
    ensures { result ≡ count_by (λ mark. is_some mark.slash) positions.now.rules }
{
    let mut count = 0;
    for rule in 0..positions.rules() {
        if positions.slash(rule).is_some() {
            count += 1;
        }
    }
    count
}
