//! From the bytes of a script to its commands, and from those of a test file to its tests.
ghost use Rattle.std.specs.Prelude.{◌≡◌, ◌≢◌, ◌+◌, ◌≤◌, ◌⊎◌, length, map, IfOk};
ghost use Rattle.std.specs.List.{AllByRecursion};
ghost use Rattle.rbbi_model.specs.Scripts.{InsertsText};
ghost use Rattle.rbbi_text.specs.Bytes.{most_bytes};
ghost use Rattle.rbbi_script.specs.Meaning.{meaning};
ghost use Rattle.rbbi_tool.specs.inner.Stages.{Meets};
ghost use Rattle.rbbi_tool.specs.Scripts as spec;

use rbbi_command::{Input, Place, Refusal, file_fault};
use rbbi_conform::{Tests, read_tests};
use rbbi_script::{Commands, read_script};
use rbbi_text::{LinesErr, Steps};
use std::alloc::Global;
use std::sync::ledger::Ledger;

/// The refusal for a fault of a file of lines of this name, or that memory ran out.
pub(crate) fn lines_refusal(alloc: Global, name: &str, error: LinesErr) -> Refusal
    ensures { (result ≡ Refusal.Memory)
        ⊎ ((error ≢ LinesErr.Memory) × (result ≡ spec.lines_fault name.now error)) }
{
    match error {
        LinesErr::NotUtf8(at) => file_fault(alloc, name, "NotUtf8", Place::Byte(at)),
        LinesErr::BadLine(line) => file_fault(alloc, name, "BadLine", Place::Row(line)),
        LinesErr::Memory => Refusal::Memory,
    }
}

/// The commands of a script.
pub(crate) fn commands_of<L: Ledger>(
    alloc: Global,
    script: &Input,
    steps: &mut Steps<L>,
) -> Result<Commands, Refusal>
    requires { length script.now.bytes ≤ most_bytes }
    ensures exact { Meets (λ commands. map meaning commands)
        (spec.script_stage script.now) result }
    ensures inserts { IfOk result (λ commands.
        AllByRecursion InsertsText (map meaning commands)) }
    ensures steps { steps.new ≡ steps.old + length script.now.bytes }
{
    match read_script(alloc, script.bytes.bytes(steps)) {
        Ok(commands) => Ok(commands),
        Err(error) => Err(lines_refusal(alloc, script.name.as_str(), error)),
    }
}

/// The tests of a test file.
pub(crate) fn tests_of<L: Ledger>(
    alloc: Global,
    tests: &Input,
    steps: &mut Steps<L>,
) -> Result<Tests, Refusal>
    requires { length tests.now.bytes ≤ most_bytes }
    ensures { Meets (λ list. list) (spec.tests_stage tests.now) result }
{
    match read_tests(alloc, tests.bytes.bytes(steps)) {
        Ok(list) => Ok(list),
        Err(error) => Err(lines_refusal(alloc, tests.name.as_str(), error)),
    }
}
