//! Where the boundaries of the old and the new text meet again.
ghost use Rattle.std.specs.Prelude.{◌≡◌};
ghost use Rattle.rbbi_cache.specs.Edits.{IsSpliced};
ghost use Rattle.rbbi_change.specs.inner.Parting.{ArePartedAt, IsLastChange};
ghost use Rattle.rbbi_change.specs.inner.Reading.{HaveMet};

use crate::change::Edit;
use crate::part::Parting;
use crate::reached::{are_same, next_from};
use rbbi_table::{FrontPlaces, Table};
use rbbi_text::{Chars, Steps};
use std::sync::ledger::Ledger;

/// Goes on with the searches of both texts, one boundary after the other, until they meet after the
/// edit. It gives the last place of the old text at which boundaries differ, or where there is none
/// after it, the end of what was removed.
pub(crate) fn meet_again<S: Chars, T: Chars, L: Ledger>(
    table: &Table,
    old: &S,
    new: &T,
    edit: Edit,
    parting: Parting,
    marks: &mut FrontPlaces,
    steps: &mut Steps<L>,
) -> u32
    requires fit { marks.old ≡ table.now.slashes }
    requires edited { IsSpliced (S.characters old.now) (T.characters new.now) edit.at edit.removed
        edit.inserted }
    requires parted { ArePartedAt table.now (S.characters old.now) (T.characters new.now) edit.at
        parting }
    ensures last { IsLastChange table.now (S.characters old.now) (T.characters new.now) edit
        result }
    ensures read { HaveMet table.now (S.characters old.now) (T.characters new.now) edit parting
        steps.old steps.new }
    ensures fit { marks.new ≡ marks.old }
{
    table.valid();
    let _old_length = old.len();
    let _new_length = new.len();
    let mut here = parting.old;
    let mut there = parting.new;
    let mut last = edit.at + edit.removed;
    'meeting: loop {
        let old_place = here.at + edit.inserted;
        let new_place = there.at + edit.removed;
        if here.at < edit.at + edit.removed || old_place < new_place {
            last = last.max(here.at);
            here = next_from(table, old, here.at, marks, steps);
        } else if new_place < old_place {
            last = last.max(new_place.saturating_sub(edit.inserted));
            there = next_from(table, new, there.at, marks, steps);
        } else if are_same(table, here.list, there.list) {
            return last;
        } else {
            return here.at;
        }
    }
}
