//! The commands `compile` and `upgrade`, which write a table file.
ghost use Rattle.std.specs.Prelude.{◌≡◌, IfOk};
ghost use Rattle.rbbi_model.specs.Lines.{compile_line};
ghost use Rattle.rbbi_tool.specs.Basis.{compiled_stage};
ghost use Rattle.rbbi_tool.specs.inner.Stages.{Meets, Serves};
ghost use Rattle.rbbi_tool.specs.inner.Prepared.{answer_of};
ghost use Rattle.rbbi_command.specs.Requests.{options_in};
ghost use Rattle.rbbi_command.specs.Inputs.{inputs_in, AreShort};
ghost use Rattle.rbbi_tool.specs.Command.Compile.{IsCanonicalOf, compile_stage, table_outcome};
ghost use Rattle.rbbi_tool.specs.Command.Upgrade.{upgrade_stage};

use crate::prepared::Prepared;
use crate::properties::properties_of;
use crate::tables::{read, table_of_rules};
use rbbi_command::{Inputs, Name, Options, Output, Refusal, Written};
use rbbi_table::Table;
use rbbi_text::Steps;
use std::alloc::{AllocError, Global};
use std::sync::ledger::Ledger;

/// The line of a table's numbers.
fn numbers_line(alloc: Global, table: &Table) -> Result<Vec<u8>, AllocError>
    ensures { IfOk result (λ line. line.items ≡ compile_line table.now) }
{
    let (categories, rows, lists) = (table.categories(), table.rows(), table.lists());
    let (slashes, safe) = (table.slashes(), table.safe_count());
    let line = format!(in alloc;
        "categories {categories} rows {rows} lists {lists} slashes {slashes} safe {safe}\n"
    )?;
    Ok(line.into_bytes())
}

/// The canonical table of a rule file. The first fault is that of the property files, or of the
/// rule file.
fn canonical_from<L: Ledger>(
    alloc: Global,
    options: &Options,
    inputs: &Inputs,
    steps: &mut Steps<L>,
) -> Result<Table, Refusal>
    requires { AreShort (inputs_in inputs.now) }
    ensures { Serves (λ canonical rules. IsCanonicalOf rules canonical)
        (compiled_stage (options_in options.now) (inputs_in inputs.now)) result }
{
    let props = properties_of(alloc, options, inputs, steps)?;
    let table = table_of_rules(alloc, inputs.rules.bytes(steps), &props, options.ignored)?;
    rbbi_dfa::compiled_tables_have_canonical();
    Ok(rbbi_canon::canonical(alloc, &table)?)
}

/// The table's file under this name, in version 2, and the line of the table's numbers.
fn table_output(alloc: Global, table: &Table, name: &str) -> Result<Output, AllocError>
    ensures { IfOk result (λ output. output ≡ table_outcome name.now table.now) }
{
    let name = Name::new(alloc, name)?;
    let bytes = rbbi_file::write_table(alloc, table)?;
    let line = numbers_line(alloc, table)?;
    Ok(Output {
        status: 0,
        bytes: line,
        file: Some(Written { name, bytes }),
    })
}

/// The file of the canonical table of a rule file, under this name, and the line of that table's
/// numbers.
pub(crate) fn compile<L: Ledger>(
    alloc: Global,
    options: &Options,
    inputs: &Inputs,
    name: &str,
    steps: &mut Steps<L>,
) -> Result<Prepared, Refusal>
    requires { AreShort (inputs_in inputs.now) }
    ensures { Meets (λ output. output)
        (compile_stage (options_in options.now) (inputs_in inputs.now) name.now)
        (answer_of result) }
{
    let canonical = canonical_from(alloc, options, inputs, steps)?;
    let output = table_output(alloc, &canonical, name)?;
    Ok(Prepared::Ready(output))
}

/// The table of a table file of either version: its file of version 2, under this name, and the
/// line of its numbers. Rows keep their numbers.
pub(crate) fn upgrade<L: Ledger>(
    alloc: Global,
    inputs: &Inputs,
    name: &str,
    steps: &mut Steps<L>,
) -> Result<Prepared, Refusal>
    requires { AreShort (inputs_in inputs.now) }
    ensures { Meets (λ output. output) (upgrade_stage (inputs_in inputs.now) name.now)
        (answer_of result) }
{
    let table = read(alloc, inputs.table.bytes(steps))?;
    let output = table_output(alloc, &table, name)?;
    Ok(Prepared::Ready(output))
}
