//! Whether the segments of a line are known as soon as the line is there.
ghost use Rattle.std.specs.Prelude.{◌≡◌, ◌↔◌, ◌<◌, ◌⊎◌, length, IsTrue};
ghost use Rattle.rbbi_model.specs.ValidTables.{LeadsToZero};
ghost use Rattle.rbbi_segment.specs.Closed.{Closes, EndLines, IsLine};

use rbbi_filter::Filter;
use rbbi_table::Table;
use rbbi_text::{Chars, PlainText, Steps};
use std::sync::ledger::Ledger;

/// Whether the row leads to row 0 only.
fn leads_to_zero(table: &Table, row: u16) -> bool
    requires { row < length table.now.rows }
    ensures { IsTrue result ↔ LeadsToZero table.now row }
{
    for category in 0..table.categories() {
        if table.step(row, category) != 0 {
            return false;
        }
    }
    true
}

/// Whether no search reads on after the character.
fn closes(table: &Table, c: char) -> bool
    ensures { IsTrue result ↔ Closes table.now c }
{
    table.valid();
    let category = table.category(c);
    for row in 0..table.rows() {
        if !leads_to_zero(table, table.step(row, category)) {
            return false;
        }
    }
    true
}

/// Whether what is found up to a line feed doesn't depend on what follows it: no search reads on
/// after one, and the filter, which may suppress a boundary before the text's end only, suppresses
/// none.
pub(crate) fn end_lines(table: &Table, filter: &Option<Filter>) -> bool
    ensures { IsTrue result ↔ EndLines filter.now table.now }
{
    match filter {
        None => closes(table, '\n'),
        Some(Filter::Suppressing(_)) => false,
        Some(Filter::Turning(pairs)) => closes(table, pairs.turn('\n')),
    }
}

/// Whether all segments of a window can be handed over: the text ends with it, or a line does that
/// doesn't depend on what follows.
pub(crate) fn is_whole<L: Ledger>(
    window: &PlainText,
    is_last: bool,
    lines_end: bool,
    steps: &mut Steps<L>,
) -> bool
    ensures last { IsTrue is_last → IsTrue result }
    ensures line { IsTrue result → IsTrue is_last ⊎ (IsTrue lines_end × IsLine window.now) }
{
    let len = window.len();
    is_last || (lines_end && len > 0 && window.char_at(len - 1, steps) == '\n')
}
