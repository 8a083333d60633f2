//! Boundaries that a search has come to.
ghost use Rattle.std.specs.Prelude.{◌≡◌, ◌+◌, ◌<◌, ◌↔◌, IsTrue, length};
ghost use Rattle.rbbi_model.specs.Tables.{statuses_of};
ghost use Rattle.rbbi_model.specs.Costs.{characters_read};
ghost use Rattle.rbbi_change.specs.inner.Reaching.{IsNextOf};

use rbbi_table::{FrontPlaces, Table};
use rbbi_text::{Chars, Steps};
use std::sync::ledger::Ledger;

/// A boundary, with the number of its status list.
#[derive(Clone, Copy)]
pub(crate) struct Reached {
    pub(crate) at: u32,
    pub(crate) list: u16,
}

/// The boundary that follows one.
pub(crate) fn next_from<T: Chars, L: Ledger>(
    table: &Table,
    text: &T,
    place: u32,
    marks: &mut FrontPlaces,
    steps: &mut Steps<L>,
) -> Reached
    requires within { place < length (T.characters text.now) }
    requires fit { marks.old ≡ table.now.slashes }
    ensures next { IsNextOf table.now (T.characters text.now) place result }
    ensures read { steps.new
        ≡ steps.old + characters_read table.now (T.characters text.now) place }
    ensures fit { marks.new ≡ marks.old }
{
    table.valid();
    let found = table.next(text, place, marks, steps);
    Reached {
        at: found.at,
        list: found.status,
    }
}

/// Whether two status lists are the same.
pub(crate) fn are_same(table: &Table, these: u16, those: u16) -> bool
    requires these { these < length table.now.lists }
    requires those { those < length table.now.lists }
    ensures { IsTrue result ↔ (statuses_of table.now these ≡ statuses_of table.now those) }
{
    table.status_list(these) == table.status_list(those)
}

/// Whether two boundaries are at one place, with the same statuses.
pub(crate) fn is_same(table: &Table, this: Reached, that: Reached) -> bool
    requires this { this.list < length table.now.lists }
    requires that { that.list < length table.now.lists }
    ensures { IsTrue result ↔ ((this.at ≡ that.at)
        × (statuses_of table.now this.list ≡ statuses_of table.now that.list)) }
{
    this.at == that.at && are_same(table, this.list, that.list)
}
