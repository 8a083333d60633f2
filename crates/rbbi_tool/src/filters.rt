//! From the bytes of a filter file to its filter, and to the table that boundaries come by after
//! it.
ghost use Rattle.std.specs.Prelude.{◌≡◌, ◌+◌, ◌≤◌, ℕ, List, length, Some, IfSome};
ghost use Rattle.rbbi_model.specs.Words.{IsText};
ghost use Rattle.rbbi_text.specs.Bytes.{most_bytes};
ghost use Rattle.rbbi_text.specs.Steps.{RisesUpTo};
ghost use Rattle.rbbi_filter.specs.Filters.{searched};
ghost use Rattle.rbbi_command.specs.Requests.{options_in};
ghost use Rattle.rbbi_command.specs.Inputs.{inputs_in, AreShort};
ghost use Rattle.rbbi_tool.specs.inner.Stages.{Meets, Serves};
ghost use Rattle.rbbi_tool.specs.inner.Filters.{IsFilteredBy};
ghost use Rattle.rbbi_tool.specs.inner.Steps.{filtered_bytes};
ghost use Rattle.rbbi_tool.specs.Filters as spec;

use crate::properties::properties_of;
use crate::scripts::lines_refusal;
use crate::tables::{table_behind, table_from};
use rbbi_command::{FilterKind, Input, Inputs, Options, Refusal};
use rbbi_filter::{Abbreviations, Filter, Tailoring};
use rbbi_table::Table;
use rbbi_text::Steps;
use std::alloc::Global;
use std::sync::ledger::Ledger;

/// The table that boundaries come by, and the filter through which they are reported, if there is
/// one.
#[derive(Drop)]
pub(crate) struct FilteredTable {
    pub(crate) filter: Option<Filter>,
    pub(crate) table: Table,
}

impl FilteredTable {
    /// That what is searched in place of a text is a text. It is there for proofs, and does nothing
    /// when it runs.
    pub(crate) fn searches_texts(&self)
        ensures { IfSome self.now.filter
            (λ filter. (x : List ℕ) → IsText x → IsText (searched filter x)) }
    {
        if let Some(filter) = &self.filter {
            filter.searches_texts();
        }
    }
}

/// The filter of a file of abbreviations, or of pairs.
fn filter_of<L: Ledger>(
    alloc: Global,
    kind: FilterKind,
    file: &Input,
    steps: &mut Steps<L>,
) -> Result<Filter, Refusal>
    requires { length file.now.bytes ≤ most_bytes }
    ensures exact { Meets (λ filter. filter) (spec.filter_stage kind file.now) result }
    ensures steps { steps.new ≡ steps.old + length file.now.bytes }
{
    let bytes = file.bytes.bytes(steps);
    match kind {
        FilterKind::Abbreviations => match Abbreviations::read(alloc, bytes) {
            Ok(list) => Ok(Filter::Suppressing(list)),
            Err(error) => Err(lines_refusal(alloc, file.name.as_str(), error)),
        },
        FilterKind::Pairs => match Tailoring::read(alloc, bytes) {
            Ok(pairs) => Ok(Filter::Turning(pairs)),
            Err(error) => Err(lines_refusal(alloc, file.name.as_str(), error)),
        },
    }
}

/// The filter that the options name, if they name one, and the table that boundaries come by. The
/// fault is the first of the property files, of the filter file, of the rules or the table file,
/// and of the rules' table.
pub(crate) fn filtered_from<L: Ledger>(
    alloc: Global,
    options: &Options,
    inputs: &Inputs,
    steps: &mut Steps<L>,
) -> Result<FilteredTable, Refusal>
    requires { AreShort (inputs_in inputs.now) }
    ensures exact { Serves IsFilteredBy
        (spec.filtered_stage (options_in options.now) (inputs_in inputs.now)) result }
    ensures steps { RisesUpTo (filtered_bytes (inputs_in inputs.now)) steps.old steps.new }
{
    match options.filter {
        None => {
            let table = table_from(alloc, options, inputs, steps)?;
            Ok(FilteredTable {
                filter: None,
                table,
            })
        }
        Some(kind) => table_behind_filter(alloc, kind, options, inputs, steps),
    }
}

/// A filter of this kind, and the table that boundaries come by.
fn table_behind_filter<L: Ledger>(
    alloc: Global,
    kind: FilterKind,
    options: &Options,
    inputs: &Inputs,
    steps: &mut Steps<L>,
) -> Result<FilteredTable, Refusal>
    requires { AreShort (inputs_in inputs.now) }
    ensures exact { Serves IsFilteredBy
        (spec.filtered_by (Some kind) (options_in options.now) (inputs_in inputs.now)) result }
    ensures steps { RisesUpTo (filtered_bytes (inputs_in inputs.now)) steps.old steps.new }
{
    let props = properties_of(alloc, options, inputs, steps)?;
    let filter = filter_of(alloc, kind, &inputs.filter, steps)?;
    let table = table_behind(alloc, options, inputs, &props, steps)?;
    let filter = Some(filter);
    Ok(FilteredTable { filter, table })
}
