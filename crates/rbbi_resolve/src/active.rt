//! The active rules of a file without faults, with their trees.
ghost use Rattle.std.specs.Prelude.{◌≡◌, ◌+◌, ◌<◌, ◌≤◌, ◌&&◌, not, ℕ, [], None, IfOk, OnOk};
ghost use Rattle.std.specs.Prelude.{length, option_map};
ghost use Rattle.std.specs.Option.{option_map_or};
ghost use Rattle.rbbi_model.specs.Rules.{AreLawful};
ghost use Rattle.rbbi_tree.specs.Values.{statement_trees, rest_tree};
ghost use Rattle.rbbi_tree.specs.WellMade.{AreWellMade};
ghost use Rattle.rbbi_resolve.specs.Expressions.{meaning_of_expr, height_of_expr};
ghost use Rattle.rbbi_resolve.specs.Files.{faults_of, active_rules};
ghost use Rattle.rbbi_resolve.specs.Counts.{size_fault, too_tall_at};
ghost use Rattle.rbbi_resolve.specs.inner.Contexts.{context_of, files_of, sets_of};
ghost use Rattle.rbbi_resolve.specs.inner.OwnLeaves.{leaves_of_rest};
ghost use Rattle.rbbi_resolve.specs.inner.Builders.{IsBuilder, IsReady, Extends, StandFrom};
ghost use Rattle.rbbi_resolve.specs.inner.RulesSoFar.{IsRestBuilt, AreRulesTo, AreAllRules};
ghost use Rattle.rbbi_resolve.specs.RuleLists.{rules_of};
ghost use Rattle.rbbi_resolve.specs.inner.Readings.{IsReading, HasLeaves};
ghost use Rattle.rbbi_resolve.specs.Outcomes.{Means};

use crate::build::{Builder, FileLeaves};
use crate::context::Context;
use crate::file::Reading;
use crate::rules::{Rule, Rules, SetList, Tree};
use crate::switches::Switches;
use rbbi_tree::{Expr, Statement};
use std::alloc::{AllocError, Global};

/// The tree of a rest, if there is one, whose leaves have the numbers from `next` on.
fn tree_of_rest(
    alloc: Global,
    context: &Context,
    leaves: &FileLeaves,
    builder: &mut Builder,
    next: &mut usize,
    rest: &Option<Expr>,
) -> Result<Option<Tree>, AllocError>
    requires ready { IsReady context.now leaves.now }
    requires builder { IsBuilder context.now leaves.now builder.old }
    requires stand { StandFrom context.now leaves.now next.old
        (leaves_of_rest (context_of context.now) (rest_tree rest.now)) }
    requires low { option_map_or (height_of_expr (context_of context.now))
        (rest_tree rest.now) 0 ≤ 256 }
    ensures on { OnOk result (Extends context.now leaves.now builder.old builder.new) }
    ensures built { IfOk result (IsRestBuilt (files_of context.now)
        (length (sets_of context.now builder.old.rows.items))
        (sets_of context.now builder.new.rows.items)
        (option_map (meaning_of_expr (context_of context.now)) (rest_tree rest.now))) }
{
    match rest {
        Some(rest) => Ok(Some(builder.tree_of_expr(alloc, context, leaves, next, rest)?)),
        None => Ok(None),
    }
}

/// Adds the rule of the statement with the number `limit`, if it is an active rule.
fn add_statement(
    alloc: Global,
    context: &Context,
    leaves: &FileLeaves,
    builder: &mut Builder,
    switches: &mut Switches,
    rules: &mut Vec<Rule>,
) -> Result<(), AllocError>
    requires ready { IsReady context.now leaves.now }
    requires rules { AreRulesTo context.now leaves.now builder.old switches.old rules.old.items
        context.now.limit }
    requires inside { context.now.limit < length context.now.statements.now }
    requires low { too_tall_at (active_rules (files_of context.now)
        (statement_trees context.now.statements.now)) ≡ None }
    ensures { OnOk result (AreRulesTo context.now leaves.now builder.new switches.new
        rules.new.items (context.now.limit + 1)) }
{
    match context.statements.get(context.limit) {
        Statement::Nothing => Ok(()),
        Statement::Assign { .. } => Ok(()),
        Statement::Control { name, .. } => {
            *switches = switches.after(name.as_str());
            Ok(())
        }
        Statement::Rule {
            place,
            no_chain_in,
            front,
            rest,
            tag,
            ..
        } => {
            if !switches.active {
                return Ok(());
            }
            let mut next = leaves.firsts[context.limit];
            let front = builder.tree_of_expr(alloc, context, leaves, &mut next, front)?;
            let rest = tree_of_rest(alloc, context, leaves, builder, &mut next, rest)?;
            let chained_into = is_chained(switches, *no_chain_in);
            rules.push(Rule {
                front,
                rest,
                chained_into,
                tag: *tag,
                place: *place,
            })?;
            Ok(())
        }
    }
}

/// The active rules of all statements.
fn rules_with_trees(
    alloc: Global,
    context: &Context,
    leaves: &FileLeaves,
    builder: &mut Builder,
) -> Result<Vec<Rule>, AllocError>
    requires ready { IsReady context.now leaves.now }
    requires builder { IsBuilder context.now leaves.now builder.old }
    requires empty { builder.old.rows.items ≡ [] }
    requires all { context.now.limit ≡ length context.now.statements.now }
    requires low { too_tall_at (active_rules (files_of context.now)
        (statement_trees context.now.statements.now)) ≡ None }
    ensures { IfOk result (λ rules. AreAllRules (files_of context.now)
        (statement_trees context.now.statements.now)
        (sets_of context.now builder.new.rows.items) rules.items) }
{
    let mut switches = Switches::new();
    let mut rules = Vec::new(alloc);
    for number in 0..context.limit {
        let inner = Context {
            limit: number,
            ..*context
        };
        add_statement(alloc, &inner, leaves, builder, &mut switches, &mut rules)?;
    }
    Ok(rules)
}

/// The rules of a file that was read and has no fault.
pub(crate) fn build_rules(alloc: Global, reading: &Reading) -> Result<Rules, AllocError>
    requires reading { IsReading reading.now (length reading.now.statements.now) }
    requires leaves { HasLeaves reading.now (length reading.now.statements.now) }
    requires well_made { AreWellMade (statement_trees reading.now.statements.now) }
    requires faultless { faults_of reading.now.table.now reading.now.dictionary_ignored
        (statement_trees reading.now.statements.now) ≡ [] }
    requires few { (end : ℕ) × (size_fault end (active_rules reading.now.table.now
        (statement_trees reading.now.statements.now)) ≡ None) }
    ensures means { IfOk result (λ rules. Means reading.now.table.now
        reading.now.dictionary_ignored
        (statement_trees reading.now.statements.now) (rules_of rules)) }
    ensures lawful { IfOk result (λ rules. AreLawful (rules_of rules)) }
{
    let context = Context {
        table: reading.table,
        statements: reading.statements,
        variables: &reading.variables,
        classes: &reading.classes,
        limit: reading.statements.len(),
        quoted_only: false,
    };
    let leaves = FileLeaves {
        rows: &reading.leaves.rows,
        firsts: &reading.firsts,
    };
    let mut builder = Builder::new(alloc, &leaves)?;
    let rules = rules_with_trees(alloc, &context, &leaves, &mut builder)?;
    let division = reading.classes.division.clone()?;
    let sets = SetList::of_rows(division, builder.rows);
    let counts = &reading.counts;
    Ok(Rules::new(rules, sets, counts.leaves.sum, counts.slashes.sum))
}

/// Whether a rule may be chained into.
fn is_chained(switches: &Switches, no_chain_in: bool) -> bool
    ensures { result ≡ (switches.now.chained && not no_chain_in) }
{
    switches.chained && !no_chain_in
}
