//! From the text of a rule file to its table.
ghost use Rattle.std.specs.Prelude.{◌≡◌, ◌≤◌, ◌⊎◌, length, Ok, IfOk, IfErr};
ghost use Rattle.std.specs.Str.{chars};
ghost use Rattle.rbbi_model.specs.Rules.{AreLawful};
ghost use Rattle.rbbi_text.specs.Bytes.{most_bytes};
ghost use Rattle.rbbi_resolve.specs.RuleLists.{rules_of};
ghost use Rattle.rbbi_cats.specs.CategoryLists.{HasClasses};
ghost use Rattle.rbbi_dfa.specs.Builds.{BuildsTable};
ghost use Rattle.rbbi_compile.specs.Tables.{PassLimit, CompilesTo, HasFault};

use crate::error::CompileErr;
use crate::rules::read_rules;
use rbbi_cats::{CatsErr, partition};
use rbbi_dfa::{BuildErr, build};
use rbbi_positions::positions;
use rbbi_props::PropTable;
use rbbi_resolve::Rules;
use rbbi_table::Table;
use std::alloc::Global;

/// The least table of rules.
fn table_of(alloc: Global, rules: &Rules) -> Result<Table, CompileErr>
    requires { AreLawful (rules_of rules.now) }
    ensures few { IfOk result (λ _. ¬ HasClasses (rules_of rules.now) 1000) }
    ensures table { IfOk result (λ table. BuildsTable (rules_of rules.now) (Ok table)) }
    ensures refused { IfErr result (λ e. (e ≡ CompileErr.Memory)
        ⊎ PassLimit (rules_of rules.now) e) }
{
    let cats = match partition(alloc, rules) {
        Ok(cats) => cats,
        Err(CatsErr::TooManyCategories) => return Err(CompileErr::TooManyCategories),
        Err(CatsErr::Memory) => return Err(CompileErr::Memory),
    };
    let Ok(positions) = positions(alloc, rules, &cats) else {
        return Err(CompileErr::Memory);
    };
    match build(alloc, &positions, &cats) {
        Ok(table) => Ok(table),
        Err(BuildErr::Memory) => Err(CompileErr::Memory),
        Err(error) => Err(CompileErr::Size(error)),
    }
}

/// The least table of the rules that a text means, with these property files. Where `ignored`
/// holds, `$dictionary` is a variable like others.
///
/// The text has at most 100,663,296 bytes. Refuses the first fault of its tokens, its grammar and
/// its meaning, then of the number of categories and the size of the table; or `Memory`.
pub fn compile(
    alloc: Global,
    text: &str,
    props: &PropTable,
    ignored: bool,
) -> Result<Table, CompileErr>
    requires { length text.now ≤ most_bytes }
    ensures table { IfOk result (CompilesTo props.now ignored (chars text.now)) }
    ensures refused { IfErr result (λ e. (e ≡ CompileErr.Memory)
        ⊎ HasFault props.now ignored (chars text.now) e) }
{
    let rules = read_rules(alloc, text, props, ignored)?;
    table_of(alloc, &rules)
}
