//! The table that the boundaries of a text come by: compiled from a rule file, or read from a table
//! file.
ghost use Rattle.std.specs.Prelude.{◌≡◌, ◌≤◌, ◌+◌, length};
ghost use Rattle.rbbi_text.specs.Bytes.{most_bytes};
ghost use Rattle.rbbi_model.specs.Compiled.{IsCompiled};
ghost use Rattle.rbbi_text.specs.Steps.{RisesUpTo};
ghost use Rattle.rbbi_tool.specs.inner.Stages.{Meets, Serves};
ghost use Rattle.rbbi_command.specs.Requests.{options_in};
ghost use Rattle.rbbi_command.specs.Inputs.{inputs_in, AreShort};
ghost use Rattle.rbbi_tool.specs.inner.Steps.{basis_bytes};
ghost use Rattle.rbbi_tool.specs.Properties.{properties_stage, property_files};
ghost use Rattle.rbbi_tool.specs.Basis as spec;

use crate::properties::properties_of;
use crate::rules::{text_of, told};
use rbbi_command::{Inputs, Options, Place, Refusal, Subject, fault};
use rbbi_compile::compile;
use rbbi_file::FileErr;
use rbbi_props::PropTable;
use rbbi_table::Table;
use rbbi_text::Steps;
use std::alloc::Global;
use std::sync::ledger::Ledger;

/// The table of the bytes of a rule file, with property files that were read. Where `ignored`
/// holds, `$dictionary` is a variable like others. Its fault is the first of its bytes, its tokens,
/// its grammar, its meaning, the number of its categories, and the size of its table.
pub(crate) fn table_of_rules(
    alloc: Global,
    bytes: &[u8],
    props: &PropTable,
    ignored: bool,
) -> Result<Table, Refusal>
    requires { length bytes.now ≤ most_bytes }
    ensures { Serves IsCompiled (spec.compiled_bytes_stage props.now ignored bytes.now) result }
{
    let text = text_of(alloc, bytes)?;
    match compile(alloc, text, props, ignored) {
        Ok(table) => Ok(table),
        Err(error) => Err(told(alloc, text, &error)),
    }
}

/// The table that the bytes of a table file spell, of either version.
pub(crate) fn read(alloc: Global, bytes: &[u8]) -> Result<Table, Refusal>
    requires { length bytes.now ≤ most_bytes }
    ensures { Meets (λ table. table) (spec.table_stage bytes.now) result }
{
    match rbbi_file::read_table(alloc, bytes) {
        Ok(table) => Ok(table),
        Err(FileErr::Memory) => Err(Refusal::Memory),
        Err(error) => {
            let place = match error.place() {
                Some(at) => Place::Byte(at),
                None => Place::Whole,
            };
            Err(fault(alloc, Subject::Table, error.label(), place))
        }
    }
}

/// The table that boundaries come by, after property files that were read and have no fault.
pub(crate) fn table_behind<L: Ledger>(
    alloc: Global,
    options: &Options,
    inputs: &Inputs,
    props: &PropTable,
    steps: &mut Steps<L>,
) -> Result<Table, Refusal>
    requires short { AreShort (inputs_in inputs.now) }
    requires passed { (properties_stage options.now.properties.items
        inputs.now.properties.items).passes tt }
    requires files { props.now ≡ property_files options.now.properties.items
        inputs.now.properties.items }
    ensures table { Serves spec.IsTableOf
        (spec.basis_stage (options_in options.now) (inputs_in inputs.now)) result }
    ensures steps { RisesUpTo (length inputs.now.rules + length inputs.now.table)
        steps.old steps.new }
{
    if options.by_table {
        return read(alloc, inputs.table.bytes(steps));
    }
    table_of_rules(alloc, inputs.rules.bytes(steps), props, options.ignored)
}

/// The table that boundaries come by: read from a table file, or compiled from a rule file, whose
/// fault is the first of the property files, of the rules, and of their table.
pub(crate) fn table_from<L: Ledger>(
    alloc: Global,
    options: &Options,
    inputs: &Inputs,
    steps: &mut Steps<L>,
) -> Result<Table, Refusal>
    requires { AreShort (inputs_in inputs.now) }
    ensures table { Serves spec.IsTableOf
        (spec.basis_stage (options_in options.now) (inputs_in inputs.now)) result }
    ensures steps { RisesUpTo (basis_bytes (inputs_in inputs.now)) steps.old steps.new }
{
    let props = properties_of(alloc, options, inputs, steps)?;
    table_behind(alloc, options, inputs, &props, steps)
}
