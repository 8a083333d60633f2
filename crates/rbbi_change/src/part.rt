//! Where the boundaries of the old and the new text part.
ghost use Rattle.std.specs.Prelude.{◌≡◌};
ghost use Rattle.rbbi_cache.specs.Edits.{IsSpliced};
ghost use Rattle.rbbi_change.specs.inner.Reaching.{IsQuiet};
ghost use Rattle.rbbi_change.specs.inner.Parting.{ArePartedAt};
ghost use Rattle.rbbi_change.specs.inner.Reading.{AreSearched};

use crate::change::Edit;
use crate::reached::{Reached, is_same, next_from};
use rbbi_table::{FrontPlaces, Table};
use rbbi_text::{Chars, Steps};
use std::sync::ledger::Ledger;

/// Where old and new boundaries part, and where the searches of both texts have come to.
#[derive(Clone, Copy)]
pub(crate) struct Parting {
    pub(crate) from: u32,
    pub(crate) old: Reached,
    pub(crate) new: Reached,
}

/// Goes on from a boundary of both texts, until boundaries differ or the edit is reached.
pub(crate) fn part_ways<S: Chars, T: Chars, L: Ledger>(
    table: &Table,
    old: &S,
    new: &T,
    edit: Edit,
    start: u32,
    marks: &mut FrontPlaces,
    steps: &mut Steps<L>,
) -> Parting
    requires fit { marks.old ≡ table.now.slashes }
    requires edited { IsSpliced (S.characters old.now) (T.characters new.now) edit.at edit.removed
        edit.inserted }
    requires quiet { IsQuiet table.now (S.characters old.now) edit.at start }
    ensures parted { ArePartedAt table.now (S.characters old.now) (T.characters new.now) edit.at
        result }
    ensures read { AreSearched table.now (S.characters old.now) (T.characters new.now)
        start result.old.at start result.new.at steps.old steps.new }
    ensures fit { marks.new ≡ marks.old }
{
    table.valid();
    let _old_length = old.len();
    let _new_length = new.len();
    let mut here = Reached { at: start, list: 0 };
    let mut there = here;
    'parting: while here.at < edit.at {
        let next = next_from(table, old, here.at, marks, steps);
        let other = next_from(table, new, here.at, marks, steps);
        if !is_same(table, next, other) {
            let from = edit.at.min(next.at.min(other.at));
            let (old, new) = (next, other);
            return Parting { from, old, new };
        }
        here = next;
        there = other;
    }
    Parting {
        from: edit.at,
        old: here,
        new: there,
    }
}
