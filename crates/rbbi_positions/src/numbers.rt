//! The numbers of the leaves' sets.
ghost use Rattle.std.specs.Prelude.{◌≡◌, ◌++◌, IfOk, OnOk};
ghost use Rattle.rbbi_resolve.specs.RuleTrees.{numbers_of};
ghost use Rattle.rbbi_resolve.specs.RuleLists.{numbers_of_rule, leaf_numbers};

use rbbi_resolve::{Rule, Rules, Tree};
use std::alloc::{AllocError, Global};

/// Adds the numbers of a tree's leaves, from the left. One call a level, at most 257.
pub(crate) fn add_numbers(tree: &Tree, numbers: &mut Vec<u32>) -> Result<(), AllocError>
    ensures { OnOk result (numbers.new.items ≡ numbers.old.items ++ numbers_of tree.now) }
{
    match tree {
        Tree::Leaf(number) => numbers.push(*number)?,
        Tree::Seq(parts) => {
            for part in &parts.items {
                add_numbers(part, numbers)?;
            }
        }
        Tree::Alt(parts) => {
            for part in &parts.items {
                add_numbers(part, numbers)?;
            }
        }
        Tree::Rep(_, part) => add_numbers(part, numbers)?,
    }
    Ok(())
}

/// Adds the numbers of a rule's leaves, its front before its rest.
fn add_rule_numbers(rule: &Rule, numbers: &mut Vec<u32>) -> Result<(), AllocError>
    ensures { OnOk result (numbers.new.items ≡ numbers.old.items ++ numbers_of_rule rule.now) }
{
    add_numbers(&rule.front, numbers)?;
    if let Some(rest) = &rule.rest {
        add_numbers(rest, numbers)?;
    }
    Ok(())
}

/// The numbers of the leaves of all rules.
pub(crate) fn all_numbers(alloc: Global, rules: &Rules) -> Result<Vec<u32>, AllocError>
    ensures { IfOk result (λ numbers. numbers.items ≡ leaf_numbers rules.now) }
{
    let mut numbers = Vec::new(alloc);
    for number in 0..rules.len() {
        add_rule_numbers(rules.get(number), &mut numbers)?;
    }
    Ok(numbers)
}
