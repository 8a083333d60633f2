//! The marks of rules.
ghost use Rattle.std.specs.Prelude.{◌≡◌, IfOk, length};
ghost use Rattle.std.specs.Option.{option_map};
ghost use Rattle.rbbi_model.specs.Rules.{AreLawful};
ghost use Rattle.rbbi_resolve.specs.RuleLists.{rules_of};
ghost use Rattle.rbbi_positions.specs.PositionMarks.{AreRuleMarks};

use crate::rule_mark::Mark;
use rbbi_resolve::{Rule, Rules};
use std::alloc::{AllocError, Global};

/// The marks of a rule before which so many rules with a rest stand.
fn mark_of(rule: &Rule, slashes: u32) -> Mark
    ensures chained_into { result.chained_into ≡ rule.now.chained_into }
    ensures tag { result.tag ≡ rule.now.tag }
    ensures slash { result.slash ≡ option_map (λ _. slashes) rule.now.rest }
{
    let slash = match &rule.rest {
        None => None,
        Some(_) => Some(slashes),
    };
    Mark {
        chained_into: rule.chained_into,
        tag: rule.tag,
        slash,
    }
}

/// The marks of the rules.
pub(crate) fn marks_of(alloc: Global, rules: &Rules) -> Result<Vec<Mark>, AllocError>
    requires { AreLawful (rules_of rules.now) }
    ensures many { IfOk result (λ marks. length marks.items ≡ length (rules_of rules.now)) }
    ensures each { IfOk result (λ marks. AreRuleMarks (rules_of rules.now) marks.items) }
{
    let mut marks = Vec::new(alloc);
    let mut slashes = 0;
    for number in 0..rules.len() {
        let rule = rules.get(number);
        marks.push(mark_of(rule, slashes))?;
        if rule.rest.is_some() {
            slashes += 1;
        }
    }
    Ok(marks)
}
