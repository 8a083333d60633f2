//! The command `conform`.
ghost use Rattle.std.specs.Prelude.{◌≡◌, ◌<◌, ◌≤◌, ◌+◌, ◌-◌, ◌^◌, ◌++◌, ◌==◌, if◌then◌else◌};
ghost use Rattle.std.specs.Prelude.{None, IfOk, OnOk, length};
ghost use Rattle.rbbi_model.specs.Lines.{differs_line, verdicts_line};
ghost use Rattle.rbbi_tool.specs.inner.Stages.{Meets};
ghost use Rattle.rbbi_tool.specs.inner.Prepared.{answer_of};
ghost use Rattle.rbbi_command.specs.Requests.{options_in};
ghost use Rattle.rbbi_command.specs.Inputs.{inputs_in, AreShort};
ghost use Rattle.rbbi_text.specs.Bytes.{most_bytes};
ghost use Rattle.rbbi_tool.specs.inner.Judging.{TellsVerdicts, TellsTests, tests_stage_by};
ghost use Rattle.rbbi_tool.specs.Command.Conform as spec;

use crate::prepared::Prepared;
use crate::scripts::tests_of;
use crate::tables::table_from;
use rbbi_command::{Input, Inputs, Options, Output, Refusal};
use rbbi_conform::{Test, Tests, Verdict, judge};
use rbbi_table::{FrontPlaces, Table};
use rbbi_text::{Chars, Steps};
use std::alloc::{AllocError, Global};
use std::sync::ledger::Ledger;

/// What is reported of tests: a line for each that differs, and how many pass and differ.
#[derive(Drop)]
struct Report {
    lines: Vec<u8>,
    passed: usize,
    failed: usize,
}

/// The line of a test that differs first at a place.
fn line_of(alloc: Global, test: &Test, place: u32) -> Result<Vec<u8>, AllocError>
    ensures { IfOk result (λ line. line.items ≡ differs_line test.now.line place) }
{
    let row = test.line();
    let line = format!(in alloc; "line {row} place {place}\n")?;
    Ok(line.into_bytes())
}

/// Adds a test with its verdict.
fn add(report: &mut Report, alloc: Global, test: &Test, verdict: Verdict) -> Result<(), AllocError>
    requires { report.old.passed + report.old.failed < 2 ^ 64 - 1 }
    ensures lines { OnOk result
        (report.new.lines.items ≡ report.old.lines.items ++ spec.test_lines test.now verdict) }
    ensures passed { OnOk result (report.new.passed
        ≡ report.old.passed + (if spec.is_passed verdict then 1 else 0)) }
    ensures failed { OnOk result (report.new.failed
        ≡ report.old.failed + (if spec.is_passed verdict then 0 else 1)) }
{
    match verdict {
        Verdict::Same => {
            report.passed += 1;
            Ok(())
        }
        Verdict::Differs(place) => {
            let line = line_of(alloc, test, place)?;
            report.lines.extend_from_slice(&line)?;
            report.failed += 1;
            Ok(())
        }
    }
}

/// What the verdicts on the tests by a table come to.
fn report_of<L: Ledger>(
    alloc: Global,
    table: &Table,
    tests: &Tests,
    steps: &mut Steps<L>,
) -> Result<Report, AllocError>
    ensures { IfOk result (λ report. TellsVerdicts table.now tests.now report.lines.items
        report.passed report.failed) }
{
    let mut marks = FrontPlaces::new(alloc, table)?;
    let mut report = Report {
        lines: Vec::new(alloc),
        passed: 0,
        failed: 0,
    };
    for i in 0..tests.len() {
        let test = tests.get(i);
        // Its length says that these are characters.
        let _length = test.text().len();
        let verdict = judge(table, test, &mut marks, steps);
        add(&mut report, alloc, test, verdict)?;
    }
    Ok(report)
}

/// The line of the counts.
fn counts_line(alloc: Global, passed: usize, failed: usize) -> Result<Vec<u8>, AllocError>
    ensures { IfOk result (λ line. line.items ≡ verdicts_line passed failed) }
{
    let line = format!(in alloc; "passed {passed} failed {failed}\n")?;
    Ok(line.into_bytes())
}

/// The exit status: 1 where a test differs.
fn status_of(failed: usize) -> u8
    ensures { result ≡ (if failed == 0 then 0 else 1) }
{
    if failed == 0 { 0 } else { 1 }
}

/// The output that tells a report.
fn output_of(alloc: Global, report: Report) -> Result<Output, AllocError>
    ensures status { IfOk result (λ output.
        output.status ≡ (if report.failed == 0 then 0 else 1)) }
    ensures bytes { IfOk result (λ output. output.bytes
        ≡ report.lines.items ++ verdicts_line report.passed report.failed) }
    ensures file { IfOk result (λ output. output.file ≡ None) }
{
    let end = counts_line(alloc, report.passed, report.failed)?;
    let mut bytes = report.lines;
    bytes.extend_from_slice(&end)?;
    Ok(Output {
        status: status_of(report.failed),
        bytes,
        file: None,
    })
}

/// What is reported of tests by a table.
fn told_of<L: Ledger>(
    alloc: Global,
    table: &Table,
    tests: &Tests,
    steps: &mut Steps<L>,
) -> Result<Output, AllocError>
    ensures { IfOk result (TellsTests table.now tests.now) }
{
    let report = report_of(alloc, table, tests, steps)?;
    output_of(alloc, report)
}

/// The verdicts on a test file, by a table.
fn conform_by<L: Ledger>(
    alloc: Global,
    table: &Table,
    file: &Input,
    steps: &mut Steps<L>,
) -> Result<Output, Refusal>
    requires { length file.now.bytes ≤ most_bytes }
    ensures { Meets (λ output. output) (tests_stage_by table.now file.now) result }
{
    let tests = tests_of(alloc, file, steps)?;
    Ok(told_of(alloc, table, &tests, steps)?)
}

/// The verdicts on a test file, by a rule file or a table file.
pub(crate) fn conform<L: Ledger>(
    alloc: Global,
    options: &Options,
    inputs: &Inputs,
    steps: &mut Steps<L>,
) -> Result<Prepared, Refusal>
    requires { AreShort (inputs_in inputs.now) }
    ensures { Meets (λ output. output)
        (spec.conform_stage (options_in options.now) (inputs_in inputs.now)) (answer_of result) }
{
    let table = table_from(alloc, options, inputs, steps)?;
    rbbi_model::same_marks_give_the_boundaries();
    let output = conform_by(alloc, &table, &inputs.tests, steps)?;
    Ok(Prepared::Ready(output))
}
