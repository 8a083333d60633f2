//! What an edit changed.
ghost use Rattle.std.specs.Prelude.{◌≡◌, ◌≤◌, length};
ghost use Rattle.rbbi_model.specs.Searches.{table_boundaries};
ghost use Rattle.rbbi_cache.specs.Edits.{IsSpliced};
ghost use Rattle.rbbi_text.specs.Steps.{RisesUpTo};
ghost use Rattle.rbbi_change.specs.Changes.{IsLeastChange};
ghost use Rattle.rbbi_change.specs.Costs.{change_cost};

use crate::meet::meet_again;
use crate::part::part_ways;
use crate::quiet::quiet_start;
use rbbi_table::{FrontPlaces, Table};
use rbbi_text::{Chars, Steps};
use std::sync::ledger::Ledger;

/// An edit: so many characters are put in place of those removed from `at` on, from 0.
#[derive(Clone, Copy)]
pub struct Edit {
    /// Where it begins.
    pub at: u32,
    /// How many characters it removes.
    pub removed: u32,
    /// How many characters it inserts.
    pub inserted: u32,
}

/// A range of a text before and after an edit, in characters from 0. Boundaries that lie before
/// `from` are the old ones, and those past the range are the old ones, moved by the edit.
#[derive(Clone, Copy)]
pub struct Change {
    /// Where the range begins, in both texts.
    pub from: u32,
    /// Where it ended in the old text.
    pub old_to: u32,
    /// Where it ends in the new text.
    pub new_to: u32,
}

/// The least range that has the edit in it, and outside of which boundaries and their statuses are
/// the old ones. Where nothing else changed, it is what was removed and what was inserted.
///
/// It goes back from the edit to a safe pair at which every search from before stops, searches both
/// texts from there, and stops where a boundary after the edit is an old one, moved. On the way
/// back it reads a character for each place, and one more; after that it reads what the searches of
/// both texts read. It takes no memory.
pub fn changed<S: Chars, T: Chars, L: Ledger>(
    table: &Table,
    old: &S,
    new: &T,
    edit: Edit,
    marks: &mut FrontPlaces,
    steps: &mut Steps<L>,
) -> Change
    requires fit { marks.old ≡ table.now.slashes }
    requires edited { IsSpliced (S.characters old.now) (T.characters new.now) edit.at edit.removed
        edit.inserted }
    ensures least { IsLeastChange edit (table_boundaries table.now (S.characters old.now))
        (table_boundaries table.now (T.characters new.now)) result }
    ensures within { result.old_to ≤ length (S.characters old.now) }
    ensures read { RisesUpTo (change_cost table.now (S.characters old.now) (T.characters new.now)
        edit) steps.old steps.new }
    ensures fit { marks.new ≡ marks.old }
{
    table.valid();
    let _old_length = old.len();
    let _new_length = new.len();
    let start = quiet_start(table, old, edit.at, marks, steps);
    let parting = part_ways(table, old, new, edit, start, marks, steps);
    let old_to = meet_again(table, old, new, edit, parting, marks, steps);
    Change {
        from: parting.from,
        old_to,
        new_to: old_to + edit.inserted - edit.removed,
    }
}
