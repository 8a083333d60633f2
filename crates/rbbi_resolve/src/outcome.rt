//! From the statements of a rule file to its active rules.
ghost use Rattle.std.specs.Prelude.{◌≡◌, IfOk, IfErr, length};
ghost use Rattle.rbbi_model.specs.Rules.{AreLawful};
ghost use Rattle.rbbi_tree.specs.Values.{statement_trees};
ghost use Rattle.rbbi_tree.specs.WellMade.{AreWellMade};
ghost use Rattle.rbbi_resolve.specs.RuleLists.{rules_of};
ghost use Rattle.rbbi_resolve.specs.Outcomes.{Means};
ghost use Rattle.rbbi_resolve.specs.Refusals.{IsRefusedFor};
ghost use Rattle.rbbi_resolve.specs.inner.Readings.{IsReading, HasLeaves};

use crate::active::build_rules;
use crate::classes::Classes;
use crate::counts::Counts;
use crate::error::{ResolveErr, refusal};
use crate::file::Reading;
use crate::leaves::Leaves;
use crate::rules::Rules;
use crate::switches::Switches;
use indexmap::IndexMap;
use rbbi_props::PropTable;
use rbbi_tree::Statements;
use std::alloc::{AllocError, Global};

/// The active rules of a rule file, with variables replaced and the sets of their leaves.
///
/// `end` is the length of the text in characters. An assignment to `$dictionary` is refused, unless
/// `ignore_dictionary` says to read it as any other (ICU User Guide, "Break Rules").
///
/// Refuses the fault of a statement with the least place, at one place that of the first kind; if
/// there is none, the first of `NoRules`, `TooManyRules`, `TooManyLeaves`, `TooManySlashes` and
/// `TooTall`; and `Memory`.
pub fn resolve(
    alloc: Global,
    statements: &Statements,
    end: u32,
    props: &PropTable,
    ignore_dictionary: bool,
) -> Result<Rules, ResolveErr>
    requires { AreWellMade (statement_trees statements.now) }
    ensures means { IfOk result (λ rules.
        Means props.now ignore_dictionary (statement_trees statements.now) (rules_of rules)) }
    ensures lawful { IfOk result (λ rules. AreLawful (rules_of rules)) }
    ensures refused { IfErr result (λ refusal.
        IsRefusedFor props.now ignore_dictionary (statement_trees statements.now) end refusal) }
{
    let reading = read_all(alloc, statements, props, ignore_dictionary)?;
    rules_or_fault(alloc, &reading, end)
}

/// The rules of a file that was read, or its first fault.
fn rules_or_fault(alloc: Global, reading: &Reading, end: u32) -> Result<Rules, ResolveErr>
    requires reading { IsReading reading.now (length reading.now.statements.now) }
    requires leaves { HasLeaves reading.now (length reading.now.statements.now) }
    requires well_made { AreWellMade (statement_trees reading.now.statements.now) }
    ensures means { IfOk result (λ rules. Means reading.now.table.now
        reading.now.dictionary_ignored (statement_trees reading.now.statements.now)
        (rules_of rules)) }
    ensures lawful { IfOk result (λ rules. AreLawful (rules_of rules)) }
    ensures refused { IfErr result (λ refusal. IsRefusedFor reading.now.table.now
        reading.now.dictionary_ignored (statement_trees reading.now.statements.now) end
        refusal) }
{
    if let Some(fault) = reading.least {
        return Err(refusal(fault));
    }
    if let Some(fault) = reading.counts.fault(end) {
        return Err(refusal(fault));
    }
    Ok(build_rules(alloc, reading)?)
}

/// Reads all statements.
fn read_all<'a>(
    alloc: Global,
    statements: &'a Statements,
    props: &'a PropTable,
    ignore_dictionary: bool,
) -> Result<Reading<'a>, AllocError>
    ensures reading { IfOk result (λ reading. IsReading reading (length statements.now)) }
    ensures leaves { IfOk result (λ reading. HasLeaves reading (length statements.now)) }
    ensures statements { IfOk result (λ reading. reading.statements.now ≡ statements.now) }
    ensures table { IfOk result (λ reading. reading.table.now ≡ props.now) }
    ensures ignored { IfOk result (λ reading. reading.dictionary_ignored ≡ ignore_dictionary) }
{
    let classes = Classes::of(alloc, props, statements)?;
    let mut reading = Reading {
        statements,
        table: props,
        classes,
        leaves: Leaves::new(alloc),
        firsts: Vec::new(alloc),
        dictionary_ignored: ignore_dictionary,
        variables: IndexMap::new(alloc),
        least: None,
        switches: Switches::new(),
        counts: Counts::new(),
    };
    for number in 0..statements.len() {
        reading.read(alloc, number)?;
    }
    Ok(reading)
}
