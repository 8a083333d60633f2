//! Where both texts are searched from.
ghost use Rattle.std.specs.Prelude.{◌≡◌, ◌+◌, ◌<◌, ◌≤◌, length};
ghost use Rattle.rbbi_change.specs.Costs.{barrier_before};
ghost use Rattle.rbbi_change.specs.inner.Reaching.{IsQuiet, ends_all};

use rbbi_table::{FrontPlaces, Table};
use rbbi_text::{Chars, Steps};
use std::sync::ledger::Ledger;

/// Whether each search that comes to two characters of these categories ends there.
fn ends_all(table: &Table, here: u16, next: u16) -> bool
    requires here { here < table.now.categories }
    requires next { next < table.now.categories }
    ensures { result ≡ ends_all table.now here next }
{
    table.valid();
    if !table.is_safe(here, next) {
        return false;
    }
    // A search that ends after the first character is in row 0 after the second.
    let row = table.step(table.step(1, here), next);
    row == 0 || table.row(row).accept >= 2
}

/// A boundary before a place, or 0, such that no search from before it looks past the place.
///
/// Where a safe pair begins and the search from there looks at the pair alone, so does each search
/// that comes to the pair: after a safe pair all of them are in one row.
pub(crate) fn quiet_start<T: Chars, L: Ledger>(
    table: &Table,
    text: &T,
    at: u32,
    marks: &mut FrontPlaces,
    steps: &mut Steps<L>,
) -> u32
    requires fit { marks.old ≡ table.now.slashes }
    requires within { at ≤ length (T.characters text.now) }
    ensures quiet { IsQuiet table.now (T.characters text.now) at result }
    ensures from { barrier_before table.now (T.characters text.now) at ≤ result }
    ensures more { steps.old ≤ steps.new }
    ensures read { steps.new + barrier_before table.now (T.characters text.now) at
        ≤ steps.old + at + 1 }
    ensures fit { marks.new ≡ marks.old }
{
    table.valid();
    let _short = text.len();
    if at < 4 {
        return 0;
    }
    let mut place = at - 2;
    let mut next = table.category(text.char_at(place, steps));
    while place > 1 {
        place -= 1;
        let here = table.category(text.char_at(place, steps));
        if ends_all(table, here, next) {
            return table.next(text, place, marks, steps).at;
        }
        next = here;
    }
    0
}
