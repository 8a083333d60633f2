//! The lines of boundaries, as they are written.
ghost use Rattle.std.specs.Prelude.{◌≡◌, ◌≤◌, ◌++◌, length, OnOk, OnErr, IsErrOf};
ghost use Rattle.rbbi_model.specs.Searches.{table_boundaries};
ghost use Rattle.rbbi_model.specs.Lines.{boundary_lines};
ghost use Rattle.rbbi_model.specs.Plays.{measured_boundaries};
ghost use Rattle.rbbi_model.specs.Costs.{breaks_cost};
ghost use Rattle.rbbi_text.specs.Steps.{RisesUpTo};
ghost use Rattle.rbbi_filter.specs.Closures.{Turns};
ghost use Rattle.rbbi_filter.specs.declared.filter.Filter.TheVariants.{Turning};
ghost use Rattle.rbbi_filter.specs.Filters.{boundaries_through};
ghost use Rattle.rbbi_filter.specs.FilterCosts.{reporting_cost, breaks_through};
ghost use Rattle.rbbi_io.specs.Counts.{Rose, GoesOn};
ghost use Rattle.rbbi_io.specs.Sinks.{TakesFront, IsBuffered};
ghost use Rattle.rbbi_io.specs.declared.error.WriteErr.TheVariants.{Failed};
ghost use Rattle.rbbi_tool.specs.inner.Filters.{reported_line, reported_lines, scan_cost};
ghost use Rattle.rbbi_tool.specs.Filters.{kind_in};
ghost use Rattle.rbbi_tool.specs.Steps.{list_cost};
ghost use Rattle.rbbi_tool.specs.inner.Puts.{Puts};

use crate::line_ends::{line_ends, say_listed};
use rbbi_filter::{CharMap, Filter, Mapped, Tailoring};
use rbbi_io::{Sink, WriteErr, put_all, put_when_full};
use rbbi_script::say_bound;
use rbbi_table::{FrontPlaces, Table};
use rbbi_text::{Chars, Counter, FileText, FlatText, Form, Steps, Unit};
use std::alloc::Global;
use std::sync::ledger::Ledger;

/// Writes the lines of all boundaries of a text by a table, with their places in a unit, in pieces.
/// The unit is counted on from boundary to boundary, in decimal.
fn put_unit_boundaries<T: FlatText, K: Sink, L: Ledger>(
    alloc: Global,
    table: &Table,
    text: &T,
    unit: Unit,
    out: &mut K,
    steps: &mut Steps<L>,
) -> Result<(), WriteErr>
    ensures { Puts (boundary_lines
        (measured_boundaries table.now unit (T.characters text.now)))
        (breaks_cost table.now (T.characters text.now) 0) result
        (K.taken out.old) (K.taken out.new) (K.faults out.old) (K.faults out.new)
        steps.old steps.new }
{
    rbbi_model::next_boundary_is_past_the_start();
    rbbi_model::anchors_are_stored();
    rbbi_model::anchors_lead_to_the_boundaries();
    table.valid();
    let mut marks = FrontPlaces::new(alloc, table)?;
    let ends = line_ends(alloc, table)?;
    let mut made = Vec::new(alloc);
    say_bound(0, &[0], &mut made)?;
    let mut at = 0;
    let mut offset = Counter::new();
    while at < text.len() {
        let found = table.next(text, at, &mut marks, steps);
        let units = text.units_between(unit, at, found.at);
        offset.advance(units);
        say_listed(table, &ends, &offset, found.status, &mut made)?;
        put_when_full(out, &mut made)?;
        at = found.at;
    }
    put_all(out, &made)?;
    Ok(())
}

/// Adds the line of a boundary of a searched text, where the filter reports it, and then writes
/// what waits once it is much.
fn put_if_reported<T: Chars, K: Sink, L: Ledger>(
    text: &T,
    filter: &Filter,
    at: u32,
    statuses: &[u32],
    made: &mut Vec<u8>,
    out: &mut K,
    steps: &mut Steps<L>,
) -> Result<(), WriteErr>
    requires { at ≤ length (T.characters text.now) }
    ensures ok { OnOk result (IsBuffered (K.taken out.old) (K.taken out.new) (made.old.items
        ++ reported_line filter.now (T.characters text.now) at statuses.now) made.new.items) }
    ensures err { OnErr result (TakesFront (K.taken out.old) (K.taken out.new) (made.old.items
        ++ reported_line filter.now (T.characters text.now) at statuses.now)) }
    ensures faults { GoesOn (K.faults out.old) (K.faults out.new) }
    ensures failed { IsErrOf result Failed → Rose (K.faults out.old) (K.faults out.new) }
    ensures steps { RisesUpTo (reporting_cost filter.now) steps.old steps.new }
{
    if filter.reports(text, at, steps) {
        say_bound(at, statuses, made)?;
        put_when_full(out, made)?;
    }
    Ok(())
}

/// Writes the lines of those boundaries of a searched text by a table that a filter reports, in
/// pieces.
fn put_searched_boundaries<T: Chars, K: Sink, L: Ledger>(
    alloc: Global,
    table: &Table,
    text: &T,
    filter: &Filter,
    out: &mut K,
    steps: &mut Steps<L>,
) -> Result<(), WriteErr>
    ensures { Puts (reported_lines filter.now
        (T.characters text.now) (table_boundaries table.now (T.characters text.now)))
        (scan_cost filter.now table.now (T.characters text.now)) result
        (K.taken out.old) (K.taken out.new) (K.faults out.old) (K.faults out.new)
        steps.old steps.new }
{
    rbbi_model::next_boundary_is_past_the_start();
    rbbi_model::anchors_are_stored();
    rbbi_model::anchors_lead_to_the_boundaries();
    table.valid();
    let mut marks = FrontPlaces::new(alloc, table)?;
    let mut made = Vec::new(alloc);
    say_bound(0, &[0], &mut made)?;
    let mut at = 0;
    while at < text.len() {
        let found = table.next(text, at, &mut marks, steps);
        at = found.at;
        let statuses = table.status_list(found.status);
        put_if_reported(text, filter, at, statuses, &mut made, out, steps)?;
    }
    put_all(out, &made)?;
    Ok(())
}

/// Writes the lines of all boundaries of a text by a table, as `map` maps its characters: by the
/// pairs of a filter, in pieces.
fn put_mapped_boundaries<T: Chars, G: CharMap, K: Sink, L: Ledger>(
    alloc: Global,
    table: &Table,
    text: &T,
    pairs: &Tailoring,
    map: &G,
    filter: &Filter,
    out: &mut K,
    steps: &mut Steps<L>,
) -> Result<(), WriteErr>
    requires pairs { filter.now ≡ Turning pairs.now }
    requires turns { Turns (G.can_map map.now) (G.maps map.now) pairs.now }
    ensures { Puts (boundary_lines
        (boundaries_through filter.now table.now (T.characters text.now)))
        (breaks_through filter.now table.now (T.characters text.now) 0) result
        (K.taken out.old) (K.taken out.new) (K.faults out.old) (K.faults out.new)
        steps.old steps.new }
{
    let turned = Mapped::new(text, pairs, map);
    put_searched_boundaries(alloc, table, &turned, filter, out, steps)
}

/// Writes the lines of all boundaries of a text by a table that are reported, in a unit or through
/// a filter, in pieces.
fn put_boundaries_of<T: FlatText, K: Sink, L: Ledger>(
    alloc: Global,
    table: &Table,
    text: &T,
    unit: Unit,
    filter: &Option<Filter>,
    out: &mut K,
    steps: &mut Steps<L>,
) -> Result<(), WriteErr>
    ensures { Puts (boundary_lines
        ((kind_in filter.now unit table.now).boundaries (T.characters text.now)))
        (list_cost filter.now table.now (T.characters text.now)) result
        (K.taken out.old) (K.taken out.new) (K.faults out.old) (K.faults out.new)
        steps.old steps.new }
{
    let Some(filter) = filter else {
        return put_unit_boundaries(alloc, table, text, unit, out, steps);
    };
    match filter {
        Filter::Suppressing(_) => put_searched_boundaries(alloc, table, text, filter, out, steps),
        Filter::Turning(pairs) => {
            let map = |c: char| pairs.turn(c);
            put_mapped_boundaries(alloc, table, text, pairs, &map, filter, out, steps)
        }
    }
}

/// Writes the lines of a file's text, in the form that the text is kept in.
pub(crate) fn put_boundaries<K: Sink, L: Ledger>(
    alloc: Global,
    table: &Table,
    text: &FileText,
    unit: Unit,
    filter: &Option<Filter>,
    out: &mut K,
    steps: &mut Steps<L>,
) -> Result<(), WriteErr>
    ensures { Puts (boundary_lines ((kind_in filter.now unit table.now).boundaries text.now))
        (list_cost filter.now table.now text.now) result
        (K.taken out.old) (K.taken out.new) (K.faults out.old) (K.faults out.new)
        steps.old steps.new }
{
    match text.form() {
        Form::Ascii(text) => put_boundaries_of(alloc, table, text, unit, filter, out, steps),
        Form::Plain(text) => put_boundaries_of(alloc, table, text, unit, filter, out, steps),
    }
}
