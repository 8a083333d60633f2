//! From the bytes of a rule file to its rules, and how its faults are reported.
ghost use Rattle.std.specs.Prelude.{◌≡◌, ◌≢◌, ◌≤◌, ◌⊎◌, length, IfOk};
ghost use Rattle.std.specs.Str.{chars};
ghost use Rattle.rbbi_text.specs.Bytes.{most_bytes};
ghost use Rattle.rbbi_resolve.specs.RuleLists.{rules_of};
ghost use Rattle.rbbi_tool.specs.inner.Stages.{Meets};
ghost use Rattle.rbbi_tool.specs.Rules as spec;

use rbbi_command::{Place, Refusal, Subject, fault, place_in};
use rbbi_compile::{CompileErr, read_rules, rule_text};
use rbbi_props::PropTable;
use rbbi_resolve::Rules;
use std::alloc::Global;

/// The text that the bytes of a rule file spell, without the one mark at its start.
pub(crate) fn text_of(alloc: Global, bytes: &[u8]) -> Result<&str, Refusal>
    requires { length bytes.now ≤ most_bytes }
    ensures exact { Meets (λ text. chars text.now) (spec.rule_text_stage bytes.now) result }
    ensures no_longer { IfOk result (λ text. length text.now ≤ length bytes.now) }
{
    match rule_text(bytes) {
        Ok(text) => Ok(text),
        Err(at) => Err(fault(alloc, Subject::Rules, "NotUtf8", Place::Byte(at))),
    }
}

/// The refusal for an error in the text of a rule file, or that memory ran out.
pub(crate) fn told(alloc: Global, text: &str, error: &CompileErr) -> Refusal
    requires { length text.now ≤ most_bytes }
    ensures { (result ≡ Refusal.Memory) ⊎ ((error.now ≢ CompileErr.Memory)
        × (result ≡ spec.fault_in (chars text.now) error.now)) }
{
    match error {
        CompileErr::Memory => Refusal::Memory,
        _ => {
            let place = place_in(text, error.place());
            fault(alloc, Subject::Rules, error.label(), place)
        }
    }
}

/// The rules of the bytes of a rule file, with property files that were read. Its fault is the
/// first of its bytes, its tokens, its grammar and its meaning.
pub(crate) fn rules_of_bytes(
    alloc: Global,
    bytes: &[u8],
    props: &PropTable,
    ignored: bool,
) -> Result<Rules, Refusal>
    requires { length bytes.now ≤ most_bytes }
    ensures { Meets rules_of (spec.rule_bytes_stage props.now ignored bytes.now) result }
{
    let text = text_of(alloc, bytes)?;
    match read_rules(alloc, text, props, ignored) {
        Ok(rules) => Ok(rules),
        Err(error) => Err(told(alloc, text, &error)),
    }
}
