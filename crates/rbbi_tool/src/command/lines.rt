//! The commands `breaks`, `run` and `tally`, whose lines are made while they are written.
ghost use Rattle.rbbi_tool.specs.inner.Stages.{Meets};
ghost use Rattle.rbbi_tool.specs.inner.Prepared.{answer_of, rest_after, ReadsByEnd};
ghost use Rattle.rbbi_command.specs.declared.words.command.Command.TheVariants as command;
ghost use Rattle.rbbi_command.specs.Requests.{options_in};
ghost use Rattle.rbbi_command.specs.Inputs.{inputs_in, AreShort};
ghost use Rattle.rbbi_tool.specs.Command.Breaks.{breaks_stage};
ghost use Rattle.rbbi_tool.specs.Command.Run.{play_stage};
ghost use Rattle.rbbi_tool.specs.Command.Tally.{tally_stage};
ghost use Rattle.rbbi_tool.specs.Steps.{CommandReads};
ghost use Rattle.rbbi_tool.specs.inner.Steps.{given_bytes};

use crate::filters::{FilteredTable, filtered_from};
use crate::prepared::{BoundaryLines, CountLines, Lines, Prepared, ReplyLines};
use crate::scripts::commands_of;
use crate::tables::table_from;
use crate::texts::{pieces_of, text_of};
use rbbi_command::{Inputs, Options, Refusal};
use rbbi_text::Steps;
use std::alloc::Global;
use std::sync::ledger::Ledger;

/// The boundaries of a text file by a rule file or a table file, a line for each, in the unit or
/// through the filter that the options name.
pub(crate) fn breaks<L: Ledger>(
    alloc: Global,
    options: &Options,
    inputs: &Inputs,
    steps: &mut Steps<L>,
) -> Result<Prepared, Refusal>
    requires { AreShort (inputs_in inputs.now) }
    ensures exact { Meets (λ output. output)
        (breaks_stage (options_in options.now) (inputs_in inputs.now)) (answer_of result) }
    ensures steps { ReadsByEnd (rest_after result)
        (CommandReads command.Breaks (options_in options.now) (inputs_in inputs.now)
        (given_bytes (inputs_in inputs.now))) steps.old steps.new }
{
    let filtered = filtered_from(alloc, options, inputs, steps)?;
    let text = text_of(alloc, &inputs.text)?;
    filtered.searches_texts();
    rbbi_model::same_marks_give_the_boundaries();
    let FilteredTable { filter, table } = filtered;
    let unit = options.unit;
    Ok(Prepared::Waiting(Lines::Boundaries(BoundaryLines {
        table,
        text,
        unit,
        filter,
    })))
}

/// The replies to a script over a text file, by a rule file or a table file, in the unit or through
/// the filter that the options name.
pub(crate) fn run<L: Ledger>(
    alloc: Global,
    options: &Options,
    inputs: &Inputs,
    steps: &mut Steps<L>,
) -> Result<Prepared, Refusal>
    requires { AreShort (inputs_in inputs.now) }
    ensures exact { Meets (λ output. output)
        (play_stage (options_in options.now) (inputs_in inputs.now)) (answer_of result) }
    ensures steps { ReadsByEnd (rest_after result)
        (CommandReads command.Run (options_in options.now) (inputs_in inputs.now)
        (given_bytes (inputs_in inputs.now))) steps.old steps.new }
{
    let filtered = filtered_from(alloc, options, inputs, steps)?;
    let text = pieces_of(alloc, &inputs.text)?;
    let commands = commands_of(alloc, &inputs.script, steps)?;
    filtered.searches_texts();
    rbbi_model::same_marks_give_the_boundaries();
    rbbi_model::table_replies_are_those_of_the_rules();
    let FilteredTable { filter, table } = filtered;
    let unit = options.unit;
    Ok(Prepared::Waiting(Lines::Replies(ReplyLines {
        table,
        text,
        unit,
        filter,
        commands,
    })))
}

/// The counts of the segments of a text file by a rule file or a table file, and the replies to the
/// edits of a script, each with the counts after it.
pub(crate) fn tally<L: Ledger>(
    alloc: Global,
    options: &Options,
    inputs: &Inputs,
    steps: &mut Steps<L>,
) -> Result<Prepared, Refusal>
    requires { AreShort (inputs_in inputs.now) }
    ensures exact { Meets (λ output. output)
        (tally_stage (options_in options.now) (inputs_in inputs.now)) (answer_of result) }
    ensures steps { ReadsByEnd (rest_after result)
        (CommandReads command.Tally (options_in options.now) (inputs_in inputs.now)
        (given_bytes (inputs_in inputs.now))) steps.old steps.new }
{
    let table = table_from(alloc, options, inputs, steps)?;
    let text = pieces_of(alloc, &inputs.text)?;
    let commands = commands_of(alloc, &inputs.script, steps)?;
    rbbi_model::same_marks_give_the_boundaries();
    Ok(Prepared::Waiting(Lines::Counts(CountLines {
        table,
        text,
        commands,
    })))
}
