//! The lines of boundaries by a table, whose ends are made once.
ghost use Rattle.std.specs.Prelude.{◌≡◌, ◌<◌, map, length, IfOk};
ghost use Rattle.rbbi_model.specs.Lines.{boundary_line};
ghost use Rattle.rbbi_model.specs.Tables.{statuses_of};
ghost use Rattle.rbbi_text.specs.Appending.{Appends};
ghost use Rattle.rbbi_script.specs.LineEnds.{line_end};

use rbbi_script::LineEnd;
use rbbi_table::Table;
use rbbi_text::Counter;
use std::alloc::{AllocError, Global};

/// What follows the place in the lines of a table's boundaries, by the number of the list of their
/// statuses.
pub(crate) fn line_ends(alloc: Global, table: &Table) -> Result<Vec<LineEnd>, AllocError>
    ensures { IfOk result (λ ends. ends.items ≡ map line_end table.now.lists) }
{
    let mut ends = Vec::new(alloc);
    for list in 0..table.lists() {
        let end = LineEnd::new(alloc, table.status_list(list))?;
        ends.push(end)?;
    }
    Ok(ends)
}

/// Appends the line of a boundary at a place, with the list of statuses that has this number in the
/// table. After the refusal a prefix of the line was appended.
pub(crate) fn say_listed(
    table: &Table,
    ends: &[LineEnd],
    at: &Counter,
    list: u16,
    made: &mut Vec<u8>,
) -> Result<(), AllocError>
    requires ends { ends.now ≡ map line_end table.now.lists }
    requires within { list < length table.now.lists }
    ensures { Appends made.old.items
        (boundary_line (record { at = at.now; statuses = statuses_of table.now list }))
        result made.new.items }
{
    // The table is there for the contract.
    let _table = table;
    ends[list as usize].say(at, made)
}
