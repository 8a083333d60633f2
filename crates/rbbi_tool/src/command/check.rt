//! The command `check`.
ghost use Rattle.std.specs.Prelude.{◌≡◌, IfOk};
ghost use Rattle.rbbi_resolve.specs.RuleLists.{rules_of};
ghost use Rattle.rbbi_tool.specs.inner.Stages.{Meets};
ghost use Rattle.rbbi_tool.specs.inner.Prepared.{answer_of};
ghost use Rattle.rbbi_command.specs.Requests.{options_in};
ghost use Rattle.rbbi_command.specs.Inputs.{inputs_in, AreShort};
ghost use Rattle.rbbi_tool.specs.Command.Check as spec;

use crate::prepared::Prepared;
use crate::properties::properties_of;
use crate::rules::rules_of_bytes;
use rbbi_command::{Inputs, Options, Output, Refusal};
use rbbi_resolve::Rules;
use rbbi_text::Steps;
use std::alloc::{AllocError, Global};
use std::sync::ledger::Ledger;

/// The line of the counts of rules.
fn counts_line(alloc: Global, rules: &Rules) -> Result<Vec<u8>, AllocError>
    ensures { IfOk result (λ line. line.items ≡ spec.counts_line (rules_of rules.now)) }
{
    let (count, slashes, leaves) = (rules.len(), rules.slashes(), rules.leaves());
    let line = format!(in alloc; "rules {count} slashes {slashes} leaves {leaves}\n")?;
    Ok(line.into_bytes())
}

/// The counts of the rules of a rule file.
pub(crate) fn check<L: Ledger>(
    alloc: Global,
    options: &Options,
    inputs: &Inputs,
    steps: &mut Steps<L>,
) -> Result<Prepared, Refusal>
    requires { AreShort (inputs_in inputs.now) }
    ensures { Meets (λ output. output)
        (spec.check_stage (options_in options.now) (inputs_in inputs.now)) (answer_of result) }
{
    let props = properties_of(alloc, options, inputs, steps)?;
    let rules = rules_of_bytes(alloc, inputs.rules.bytes(steps), &props, options.ignored)?;
    let bytes = counts_line(alloc, &rules)?;
    Ok(Prepared::Ready(Output::printed(bytes)))
}
