//! The command `demo`.
ghost use Rattle.std.specs.Prelude.{◌≡◌, ◌≤◌, ℕ, [], false, IfOk};
ghost use Rattle.rbbi_model.specs.Compiled.{IsCompiled};
ghost use Rattle.rbbi_model.specs.Lines.{demo_line};
ghost use Rattle.rbbi_demo.specs.declared.summary.Summary.{Summary};
ghost use Rattle.rbbi_command.specs.Counts.{IsCount};
ghost use Rattle.rbbi_tool.specs.Basis.{compiled_bytes_stage};
ghost use Rattle.rbbi_tool.specs.inner.Stages.{Meets, Serves};
ghost use Rattle.rbbi_tool.specs.inner.Summing.{TellsSummaryBy};
ghost use Rattle.rbbi_tool.specs.inner.Prepared.{answer_of};
ghost use Rattle.rbbi_tool.specs.Command.Demo as spec;

use crate::prepared::Prepared;
use crate::tables::table_of_rules;
use rbbi_command::{Output, Refusal, count_of};
use rbbi_demo::Summary;
use rbbi_props::PropTable;
use rbbi_table::Table;
use rbbi_text::Steps;
use std::alloc::{AllocError, Global};
use std::sync::ledger::Ledger;

/// The built-in rules: words of letters and marks, numbers with points, spaces, and a point before
/// a space.
const RULES: &str = "$W = [a-c]; $X = [\\u0308]; $D = [12];
$W ($W | $X)* {200}; $D+ ([.] $D+)* {100};
' '+; [.] / ' ' {5}; .;
";

/// The line of a summary.
fn summary_line(alloc: Global, summary: &Summary) -> Result<Vec<u8>, AllocError>
    ensures { IfOk result (λ line. line.items ≡ demo_line summary.now.chars
        summary.now.edits summary.now.boundaries summary.now.sum) }
{
    let Summary {
        chars,
        edits,
        boundaries,
        sum,
    } = *summary;
    let line = format!(in alloc;
        "chars {chars} edits {edits} boundaries {boundaries} sum {sum}\n"
    )?;
    Ok(line.into_bytes())
}

/// The table of the built-in rules.
fn built_in(alloc: Global) -> Result<Table, Refusal>
    ensures { Serves IsCompiled (compiled_bytes_stage [] false spec.demo_rules) result }
{
    let none = PropTable::new(alloc);
    table_of_rules(alloc, RULES.as_bytes(), &none, false)
}

/// What is reported of the demonstration of a number by a table.
fn told_of<L: Ledger>(
    alloc: Global,
    table: &Table,
    count: u32,
    steps: &mut Steps<L>,
) -> Result<Output, AllocError>
    requires { count ≤ 1000000 }
    ensures { IfOk result (TellsSummaryBy count table.now) }
{
    let summary = rbbi_demo::demo(alloc, table, count, steps)?;
    let line = summary_line(alloc, &summary)?;
    Ok(Output::printed(line))
}

/// The summary of the demonstration of the number that the word writes, by the built-in rules.
pub(crate) fn demo<L: Ledger>(
    alloc: Global,
    word: &str,
    steps: &mut Steps<L>,
) -> Result<Prepared, Refusal>
    requires { (count : ℕ) × IsCount word.now count }
    ensures { Meets (λ output. output) (spec.demo_stage word.now) (answer_of result) }
{
    let Some(count) = count_of(word) else {
        unreachable!();
    };
    let table = built_in(alloc)?;
    rbbi_model::same_marks_give_the_boundaries();
    rbbi_demo::table_summaries_are_those_of_the_rules();
    let output = told_of(alloc, &table, count, steps)?;
    Ok(Prepared::Ready(output))
}
