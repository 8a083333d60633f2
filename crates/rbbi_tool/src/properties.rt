//! From the bytes of property files to their rows.
ghost use Rattle.std.specs.Prelude.{◌≡◌, ◌+◌, ◌≤◌, ◌∷◌, [], ◌++◌, length, sum_by, IfOk, OnOk};
ghost use Rattle.rbbi_text.specs.Bytes.{most_bytes};
ghost use Rattle.rbbi_props.specs.Files.{named_file};
ghost use Rattle.rbbi_text.specs.Steps.{RisesUpTo};
ghost use Rattle.rbbi_tool.specs.inner.Stages.{Meets};
ghost use Rattle.rbbi_command.specs.Inputs.{inputs_in, AreShort};
ghost use Rattle.rbbi_tool.specs.Properties as spec;

use rbbi_command::{Inputs, Options, Place, Property, Refusal, file_fault};
use rbbi_props::{PropErr, PropTable};
use rbbi_text::{Raw, Steps};
use std::alloc::Global;
use std::sync::ledger::Ledger;

/// Adds the rows of a property file.
fn add<L: Ledger>(
    table: &mut PropTable,
    alloc: Global,
    property: &Property,
    bytes: &Raw,
    steps: &mut Steps<L>,
) -> Result<(), Refusal>
    requires { length bytes.now ≤ most_bytes }
    ensures exact { Meets (λ _. tt) (spec.property_stage property.now.file bytes.now) result }
    ensures added { OnOk result
        (table.new ≡ table.old ++ named_file property.now.name bytes.now ∷ []) }
    ensures steps { steps.new ≡ steps.old + length bytes.now }
{
    let file = property.file.as_str();
    match table.add(property.name.as_str(), bytes.bytes(steps)) {
        Ok(()) => Ok(()),
        Err(PropErr::NotUtf8(at)) => Err(file_fault(alloc, file, "NotUtf8", Place::Byte(at))),
        Err(PropErr::BadRow(line)) => Err(file_fault(alloc, file, "BadRow", Place::Row(line))),
        Err(PropErr::Memory) => Err(Refusal::Memory),
    }
}

/// The rows of the property files, each under the name of its property. The first file that isn't
/// UTF-8 or has a bad row is reported.
pub(crate) fn properties_of<L: Ledger>(
    alloc: Global,
    options: &Options,
    inputs: &Inputs,
    steps: &mut Steps<L>,
) -> Result<PropTable, Refusal>
    requires { AreShort (inputs_in inputs.now) }
    ensures exact { Meets (λ _. tt) (spec.properties_stage options.now.properties.items
        inputs.now.properties.items) result }
    ensures files { IfOk result (λ table. table
        ≡ spec.property_files options.now.properties.items inputs.now.properties.items) }
    ensures steps { RisesUpTo (sum_by length inputs.now.properties.items) steps.old steps.new }
{
    let mut table = PropTable::new(alloc);
    for i in 0..options.properties.len().min(inputs.properties.len()) {
        let property = &options.properties[i];
        add(&mut table, alloc, property, &inputs.properties[i], steps)?;
    }
    Ok(table)
}
