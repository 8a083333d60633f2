//! The command `same`.
ghost use Rattle.std.specs.Prelude.{◌≡◌, ◌%◌, ◌++◌, ◌∷◌, List, IfOk, OnOk};
ghost use Rattle.rbbi_model.specs.Rules.{Rule};
ghost use Rattle.rbbi_model.specs.Compiled.{IsCompiled};
ghost use Rattle.rbbi_command.specs.Requests.{options_in};
ghost use Rattle.rbbi_command.specs.Inputs.{inputs_in, AreShort};
ghost use Rattle.rbbi_tool.specs.inner.Stages.{Meets};
ghost use Rattle.rbbi_tool.specs.inner.Prepared.{answer_of};
ghost use Rattle.rbbi_tool.specs.inner.Comparing.{AreCompared};
ghost use Rattle.rbbi_tool.specs.Command.Same as spec;

use crate::prepared::Prepared;
use crate::properties::properties_of;
use crate::tables::table_of_rules;
use rbbi_command::{Inputs, Options, Output, Refusal, Subject};
use rbbi_props::PropTable;
use rbbi_table::Table;
use rbbi_text::{Steps, Word};
use std::alloc::{AllocError, Global};
use std::sync::ledger::Ledger;

/// The last hexadecimal digit of a number, in upper case.
fn last_digit(number: u32) -> u8
    ensures { result ≡ spec.hexadecimal_digit (number % 16) }
{
    let value = (number % 16) as u8;
    if value < 10 { 48 + value } else { 55 + value }
}

/// Adds a space and the code point of a character to a line.
fn add_character(line: &mut Vec<u8>, character: char) -> Result<(), AllocError>
    ensures { OnOk result (line.new.items ≡ line.old.items ++ 32 ∷ spec.code_point_digits character) }
{
    let code = character as u32;
    let first = last_digit(code);
    let second = last_digit(code / 16);
    let third = last_digit(code / 256);
    let fourth = last_digit(code / 4096);
    let fifth = last_digit(code / 65_536);
    let sixth = last_digit(code / 1_048_576);
    if code < 65_536 {
        line.extend_from_slice(&[b' ', fourth, third, second, first])
    } else if code < 1_048_576 {
        line.extend_from_slice(&[b' ', fifth, fourth, third, second, first])
    } else {
        line.extend_from_slice(&[b' ', sixth, fifth, fourth, third, second, first])
    }
}

/// The line of a text after which marks differ.
fn difference_line(alloc: Global, word: &Word) -> Result<Vec<u8>, AllocError>
    ensures { IfOk result (λ line. line.items ≡ (spec.told_difference word.now).bytes) }
{
    let mut line = Vec::from_slice(alloc, b"differ")?;
    for character in word.as_str().chars() {
        add_character(&mut line, character)?;
    }
    line.push(b'\n')?;
    Ok(line)
}

/// What is reported of two tables: that they have the same marks after every text, or a text after
/// which they have different ones.
fn comparison_of(alloc: Global, these: &Table, those: &Table) -> Result<Output, AllocError>
    ensures { IfOk result (AreCompared these.now those.now) }
{
    match rbbi_canon::differ(alloc, these, those)? {
        None => Ok(Output::printed(Vec::from_slice(alloc, b"same\n")?)),
        Some(word) => Ok(Output {
            status: 1,
            bytes: difference_line(alloc, &word)?,
            file: None,
        }),
    }
}

/// The same refusal, where a fault of the rule file is reported of the second one.
fn told_of_second(refusal: Refusal) -> Refusal
    ensures { result ≡ spec.told_of_second refusal }
{
    match refusal {
        Refusal::Fault {
            subject: Subject::Rules,
            label,
            place,
        } => Refusal::Fault {
            subject: Subject::OtherRules,
            label,
            place,
        },
        other => other,
    }
}

/// Whether the second rule file has the same marks as the first, whose table this is.
fn compared_with<L: Ledger>(
    alloc: Global,
    these: &Table,
    inputs: &Inputs,
    props: &PropTable,
    ignored: bool,
    steps: &mut Steps<L>,
) -> Result<Output, Refusal>
    requires { AreShort (inputs_in inputs.now) }
    ensures { (rules : List Rule) → IsCompiled these.now rules → Meets (λ output. output)
        (spec.second_stage props.now ignored (inputs_in inputs.now) rules) result }
{
    let those = match table_of_rules(alloc, inputs.other_rules.bytes(steps), props, ignored) {
        Ok(table) => table,
        Err(refusal) => return Err(told_of_second(refusal)),
    };
    Ok(comparison_of(alloc, these, &those)?)
}

/// Whether two rule files have the same marks after every text, and else a text after which they
/// differ.
pub(crate) fn same<L: Ledger>(
    alloc: Global,
    options: &Options,
    inputs: &Inputs,
    steps: &mut Steps<L>,
) -> Result<Prepared, Refusal>
    requires { AreShort (inputs_in inputs.now) }
    ensures { Meets (λ output. output)
        (spec.same_stage (options_in options.now) (inputs_in inputs.now)) (answer_of result) }
{
    let props = properties_of(alloc, options, inputs, steps)?;
    let these = table_of_rules(alloc, inputs.rules.bytes(steps), &props, options.ignored)?;
    let output = compared_with(alloc, &these, inputs, &props, options.ignored, steps)?;
    Ok(Prepared::Ready(output))
}
