//! From a rule file to its table.
ghost use Rattle.std.specs.Prelude.{◌≡◌, ◌≤◌, ◌⊎◌, length, IfOk, IfErr};
ghost use Rattle.rbbi_text.specs.Bytes.{most_bytes};
ghost use Rattle.rbbi_compile.specs.Rules.{text_of};
ghost use Rattle.rbbi_builtin.specs.Compiling.{CompilesOver};
ghost use Rattle.rbbi_segment.specs.RuleFiles.{HasFileFault};

use crate::colors::Colors;
use crate::failure::{Failure, Status};
use crate::faults::{Place, Source, fault_at, fault_of};
use rbbi_builtin::compile_over;
use rbbi_compile::{CompileErr, rule_text};
use rbbi_props::PropTable;
use rbbi_table::Table;
use std::alloc::Global;

/// What an error of a rule file comes to, with the property files that are given.
fn told(alloc: Global, source: &Source<'_>, error: &CompileErr, given: &PropTable) -> Failure
    requires { length source.now.text.now ≤ most_bytes }
{
    let Source { name, colors, .. } = *source;
    match error.place() {
        Some(place) => fault_at(alloc, source, error.label(), place, given),
        None => fault_of(
            alloc,
            Status::HasFault,
            name,
            error.label(),
            Place::Whole,
            colors,
        ),
    }
}

/// The table of a rule file, over property files and what is built in. Unless memory runs out the
/// failure is the first fault of its bytes and of its text.
pub(crate) fn table_of_rules(
    alloc: Global,
    name: &str,
    bytes: &[u8],
    properties: &mut PropTable,
    ignore_dictionary: bool,
    colors: Colors,
) -> Result<Table, Failure>
    requires { length bytes.now ≤ most_bytes }
    ensures table { IfOk result
        (CompilesOver properties.old ignore_dictionary (text_of bytes.now)) }
    ensures refused { IfErr result (λ failure. (failure ≡ Failure.Memory)
        ⊎ HasFileFault properties.old ignore_dictionary bytes.now) }
{
    let text = match rule_text(bytes) {
        Ok(text) => text,
        Err(at) => {
            let place = Place::Byte(at.into());
            return Err(fault_of(alloc, Status::HasFault, name, "NotUtf8", place, colors));
        }
    };
    match compile_over(alloc, text, properties, ignore_dictionary) {
        Ok(table) => Ok(table),
        Err(CompileErr::Memory) => Err(Failure::Memory),
        Err(error) => {
            let source = Source { name, text, colors };
            Err(told(alloc, &source, &error, properties))
        }
    }
}
