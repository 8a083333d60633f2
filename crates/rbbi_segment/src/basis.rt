//! The table that a request names: a built-in one, or that of a table file or a rule file.
ghost use Rattle.std.specs.Prelude.{◌≡◌, IfOk, OnOk};
ghost use Rattle.rbbi_segment.specs.Tables.{AddsProperty, ArePropertiesOf, IsRulesTable};
ghost use Rattle.rbbi_segment.specs.Tables.{IsCompiledOver, IsFileTable, IsSpelled, IsTableOf};

use crate::colors::Colors;
use crate::failure::{Failure, Status};
use crate::faults::{Place, fault_of};
use crate::options::{Basis, Property, Request};
use crate::reading::{PROPERTIES_LIMIT, RULES_LIMIT, TABLE_LIMIT, read};
use crate::rules::table_of_rules;
use rbbi_file::{FileErr, read_table};
use rbbi_io::Files;
use rbbi_props::{PropErr, PropTable};
use rbbi_segment_tables::built_in;
use rbbi_table::Table;
use rbbi_text::{MOST_BYTES, Steps};
use std::alloc::Global;
use std::io::Read;
use std::sync::ledger::Ledger;

/// What a fault of a property file comes to.
fn refused(alloc: Global, name: &str, error: PropErr, colors: Colors) -> Failure {
    let (label, place) = match error {
        PropErr::NotUtf8(at) => ("NotUtf8", Place::Byte(at.into())),
        PropErr::BadRow(line) => ("BadRow", Place::Line(line)),
        PropErr::Memory => return Failure::Memory,
    };
    fault_of(alloc, Status::IsRefused, name, label, place, colors)
}

/// Adds the rows of a property file.
fn add_property<F: Files, R: Read, L: Ledger>(
    alloc: Global,
    property: &Property<'_>,
    colors: Colors,
    files: &mut F,
    input: &mut R,
    properties: &mut PropTable,
    steps: &mut Steps<L>,
) -> Result<(), Failure>
    ensures added { OnOk result (AddsProperty (F.contents files.old) (R.remaining input.old)
        property.now properties.old properties.new (R.remaining input.new)) }
    ensures same { F.contents files.new ≡ F.contents files.old }
{
    let name = property.file;
    let raw = read(alloc, name, PROPERTIES_LIMIT, colors, files, input)?;
    let bytes = raw.bytes(steps);
    match properties.add(property.name, bytes) {
        Ok(()) => Ok(()),
        Err(error) => Err(refused(alloc, name, error, colors)),
    }
}

/// The rows of the property files, which are read in turn. What the files hold stays.
pub(crate) fn properties_of<F: Files, R: Read, L: Ledger>(
    alloc: Global,
    given: &[Property<'_>],
    colors: Colors,
    files: &mut F,
    input: &mut R,
    steps: &mut Steps<L>,
) -> Result<PropTable, Failure>
    ensures rows { IfOk result (λ rows. ArePropertiesOf (F.contents files.old)
        (R.remaining input.old) given.now rows (R.remaining input.new)) }
    ensures same { F.contents files.new ≡ F.contents files.old }
{
    let mut properties = PropTable::new(alloc);
    for property in given {
        add_property(
            alloc,
            property,
            colors,
            files,
            input,
            &mut properties,
            steps,
        )?;
    }
    Ok(properties)
}

/// The table of the rule file of this name, over these property files. What the files hold stays.
fn compiled<F: Files, R: Read, L: Ledger>(
    alloc: Global,
    name: &str,
    properties: &mut PropTable,
    ignore_dictionary: bool,
    colors: Colors,
    files: &mut F,
    input: &mut R,
    steps: &mut Steps<L>,
) -> Result<Table, Failure>
    ensures table { IfOk result (λ table. IsRulesTable (F.contents files.old)
        (R.remaining input.old) name.now properties.old ignore_dictionary table
        (R.remaining input.new)) }
    ensures same { F.contents files.new ≡ F.contents files.old }
{
    let raw = read(alloc, name, RULES_LIMIT, colors, files, input)?;
    let bytes = raw.bytes(steps);
    table_of_rules(alloc, name, bytes, properties, ignore_dictionary, colors)
}

/// The table of the rule file of this name, over the property files that are asked for. What the
/// files hold stays.
fn compiled_over<F: Files, R: Read, L: Ledger>(
    alloc: Global,
    name: &str,
    request: &Request<'_>,
    colors: Colors,
    files: &mut F,
    input: &mut R,
    steps: &mut Steps<L>,
) -> Result<Table, Failure>
    ensures table { IfOk result (λ table. IsCompiledOver (F.contents files.old)
        (R.remaining input.old) request.now name.now table (R.remaining input.new)) }
    ensures same { F.contents files.new ≡ F.contents files.old }
{
    let given = request.properties.as_slice();
    let ignored = request.ignore_dictionary;
    let mut properties = properties_of(alloc, given, colors, files, input, steps)?;
    compiled(
        alloc,
        name,
        &mut properties,
        ignored,
        colors,
        files,
        input,
        steps,
    )
}

/// The table that the bytes of a table file of this name spell.
fn spelled(alloc: Global, name: &str, bytes: &[u8], colors: Colors) -> Result<Table, Failure>
    ensures { IfOk result (IsSpelled bytes.now) }
{
    if bytes.len() > MOST_BYTES {
        let place = Place::Whole;
        return Err(fault_of(alloc, Status::IsRefused, name, "TooLong", place, colors));
    }
    match read_table(alloc, bytes) {
        Ok(table) => Ok(table),
        Err(FileErr::Memory) => Err(Failure::Memory),
        Err(error) => {
            let place = match error.place() {
                Some(at) => Place::Byte(at.into()),
                None => Place::Whole,
            };
            Err(fault_of(alloc, Status::IsRefused, name, error.label(), place, colors))
        }
    }
}

/// The table of the table file of this name. What the files hold stays.
fn read_spelled<F: Files, R: Read, L: Ledger>(
    alloc: Global,
    name: &str,
    colors: Colors,
    files: &mut F,
    input: &mut R,
    steps: &mut Steps<L>,
) -> Result<Table, Failure>
    ensures table { IfOk result (λ table. IsFileTable (F.contents files.old)
        (R.remaining input.old) name.now table (R.remaining input.new)) }
    ensures same { F.contents files.new ≡ F.contents files.old }
{
    let raw = read(alloc, name, TABLE_LIMIT, colors, files, input)?;
    let bytes = raw.bytes(steps);
    spelled(alloc, name, bytes, colors)
}

/// The table that a request names. What the files hold stays.
pub(crate) fn table_of<F: Files, R: Read, L: Ledger>(
    alloc: Global,
    request: &Request<'_>,
    colors: Colors,
    files: &mut F,
    input: &mut R,
    steps: &mut Steps<L>,
) -> Result<Table, Failure>
    ensures table { IfOk result (λ table. IsTableOf (F.contents files.old)
        (R.remaining input.old) request.now request.now.basis table (R.remaining input.new)) }
    ensures same { F.contents files.new ≡ F.contents files.old }
{
    match request.basis {
        Basis::BuiltIn(kind) => Ok(built_in(alloc, kind)?),
        Basis::Rules(name) => compiled_over(alloc, name, request, colors, files, input, steps),
        Basis::Table(name) => read_spelled(alloc, name, colors, files, input, steps),
    }
}
