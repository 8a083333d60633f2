//! The verdict on a test.
ghost use Rattle.std.specs.Prelude.{◌≡◌, ◌<◌, ◌≤◌, length, MatchOption};
ghost use Rattle.rbbi_model.specs.Searches.{table_boundaries};
ghost use Rattle.rbbi_conform.specs.Verdicts.{IsVerdict};
ghost use Rattle.rbbi_conform.specs.inner.Verdicts.{AreRight, IsFirstWrong};

use crate::Test;
use rbbi_table::{FrontPlaces, Table};
use rbbi_text::{Chars, Steps};
use std::sync::ledger::Ledger;

/// What a table says of a test.
#[derive(Clone, Copy, PartialEq, Eq)]
pub enum Verdict {
    /// Each mark but the first is that of the table's boundaries.
    Same,
    /// This is the first place past 0 at which a mark differs, in characters from 0.
    Differs(u32),
}

/// Whether the marks of a test are those of the boundaries of its text by the table. The mark
/// before the first character isn't compared. No memory is taken.
pub fn judge<L: Ledger>(
    table: &Table,
    test: &Test,
    marks: &mut FrontPlaces,
    steps: &mut Steps<L>,
) -> Verdict
    requires { marks.old ≡ table.now.slashes }
    ensures verdict { IsVerdict (table_boundaries table.now test.now.text) test.now result }
    ensures fit { marks.new ≡ marks.old }
{
    let text = test.text();
    let mut last = 0;
    while last < text.len() {
        let next = table.next(text, last, marks, steps).at;
        if let Some(place) = first_wrong(test, last, next) {
            return Verdict::Differs(place);
        }
        last = next;
    }
    Verdict::Same
}

/// The first place past `last` and up to `next` whose mark is wrong, where `next` is the first
/// boundary past `last`.
fn first_wrong(test: &Test, last: u32, next: u32) -> Option<u32>
    requires past { last < next }
    requires within { next ≤ length test.now.text }
    ensures { MatchOption result (AreRight test.now last next next)
        (IsFirstWrong test.now last next) }
{
    for place in last + 1..next {
        if test.mark(place) {
            return Some(place);
        }
    }
    (!test.mark(next)).then_some(next)
}
