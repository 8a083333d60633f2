//! From the bytes of a rule file to its rules and their table.
ghost use Rattle.std.specs.Prelude.{◌≤◌, length, IfSome};
ghost use Rattle.rbbi_model.specs.Rules.{AreLawful};
ghost use Rattle.rbbi_text.specs.Bytes.{most_bytes};
ghost use Rattle.rbbi_resolve.specs.RuleLists.{rules_of};

use rbbi_compile::{compile, read_rules, rule_text};
use rbbi_props::PropTable;
use rbbi_resolve::Rules;
use rbbi_table::Table;
use std::alloc::Global;

/// The rules of a rule file with no property files, or nothing where it has a fault.
pub(crate) fn rules_of(alloc: Global, bytes: &[u8]) -> Option<Rules>
    requires { length bytes.now ≤ most_bytes }
    ensures { IfSome result (λ rules. AreLawful (rules_of rules)) }
{
    let text = rule_text(bytes).ok()?;
    read_rules(alloc, text, &PropTable::new(alloc), false).ok()
}

/// The table of a rule file with no property files, or nothing where it has a fault.
pub(crate) fn table_of(alloc: Global, bytes: &[u8]) -> Option<Table>
    requires { length bytes.now ≤ most_bytes }
{
    let text = rule_text(bytes).ok()?;
    compile(alloc, text, &PropTable::new(alloc), false).ok()
}
