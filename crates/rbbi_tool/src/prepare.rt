//! What a request comes to, from its files.
ghost use Rattle.std.specs.Prelude.{◌≡◌, ◌<◌, map, length};
ghost use Rattle.std.specs.String.{string_bytes};
ghost use Rattle.rbbi_tool.specs.inner.Stages.{Meets};
ghost use Rattle.rbbi_tool.specs.inner.Prepared.{answer_of, rest_after, ReadsByEnd};
ghost use Rattle.rbbi_command.specs.Words.{operands_of, AllFit};
ghost use Rattle.rbbi_command.specs.Requests.{asked_by};
ghost use Rattle.rbbi_command.specs.Inputs.{inputs_in, AreShort};
ghost use Rattle.rbbi_tool.specs.Program.{nth, command_stage};
ghost use Rattle.rbbi_tool.specs.Steps.{CommandReads};
ghost use Rattle.rbbi_tool.specs.inner.Steps.{given_bytes};

use crate::command::{breaks, check, compile, conform, demo, run, same, tally, upgrade};
use crate::prepared::Prepared;
use rbbi_command::{Command, Inputs, Refusal, Request};
use rbbi_text::Steps;
use std::alloc::Global;
use std::sync::ledger::Ledger;

/// The word with this number, from 0.
fn word(words: &[String], number: usize) -> &str
    requires { number < length words.now }
    ensures { result.now ≡ nth (map string_bytes words.now) number }
{
    words[number].as_str()
}

/// What a request comes to, from its files.
pub(crate) fn prepare<L: Ledger>(
    alloc: Global,
    request: &Request,
    inputs: &Inputs,
    steps: &mut Steps<L>,
) -> Result<Prepared, Refusal>
    requires count { length request.now.operands.now
        ≡ length (operands_of request.now.command request.now.options.by_table) }
    requires fit { AllFit (operands_of request.now.command request.now.options.by_table)
        (map string_bytes request.now.operands.now) }
    requires short { AreShort (inputs_in inputs.now) }
    ensures exact { Meets (λ output. output)
        (command_stage request.now.command (asked_by request.now) (inputs_in inputs.now))
        (answer_of result) }
    ensures steps { ReadsByEnd (rest_after result)
        (CommandReads request.now.command (asked_by request.now).options (inputs_in inputs.now)
        (given_bytes (inputs_in inputs.now))) steps.old steps.new }
{
    let options = &request.options;
    let operands = request.operands;
    match request.command {
        Command::Check => check(alloc, options, inputs, steps),
        Command::Compile => compile(alloc, options, inputs, word(operands, 1), steps),
        Command::Upgrade => upgrade(alloc, inputs, word(operands, 1), steps),
        Command::Same => same(alloc, options, inputs, steps),
        Command::Breaks => breaks(alloc, options, inputs, steps),
        Command::Run => run(alloc, options, inputs, steps),
        Command::Conform => conform(alloc, options, inputs, steps),
        Command::Tally => tally(alloc, options, inputs, steps),
        Command::Demo => demo(alloc, word(operands, 0), steps),
    }
}
