//! The variables that assignments define.
ghost use Rattle.std.specs.Prelude.{◌≡◌, ℕ, List, Option, ◌∷◌, None, Some, IfOk, IfSome, IfNone};
ghost use Rattle.std.specs.Prelude.{OnOk, length};
ghost use Rattle.rbbi_classes.specs.Classes.{ClassBits};
ghost use Rattle.rbbi_tree.specs.Trees.{placed, alternative, item as item_of, no_items};
ghost use Rattle.rbbi_tree.specs.Trees.{no_alternatives};
ghost use Rattle.rbbi_tree.specs.declared.syntax.Quant.TheVariants.{Once};
ghost use Rattle.rbbi_tree.specs.Values.{expr_tree, atom_tree, statement_trees};
ghost use Rattle.rbbi_resolve.specs.Meanings.{Meaning};
ghost use Rattle.rbbi_resolve.specs.Expressions.{variable_for, variable_with, set_of_atom};
ghost use Rattle.rbbi_resolve.specs.Expressions.{set_of_expr};
ghost use Rattle.rbbi_resolve.specs.Parts.{parts_of_expr};
ghost use Rattle.rbbi_resolve.specs.inner.Faults.{noted_parts};
ghost use Rattle.rbbi_resolve.specs.Contexts as contexts;
ghost use Rattle.rbbi_resolve.specs.inner.Contexts.{IsContext, KnowsQuotes, IsKindOf, bounds_of};
ghost use Rattle.rbbi_resolve.specs.inner.Contexts.{context_of, files_of, stand_of, AddsRows};
ghost use Rattle.rbbi_resolve.specs.inner.Contexts.{IsAssigned};
ghost use Rattle.rbbi_resolve.specs.inner.Covered.{AreCovered};
ghost use Rattle.rbbi_resolve.specs.inner.OwnLeaves.{leaves_of_expr, leaves_of_atom};
ghost use Rattle.rbbi_resolve.specs.inner.Summaries.{Summarizes};

use crate::check::check_expr;
use crate::context::Context;
use crate::fault::Fault;
use crate::leaves::Leaves;
use crate::variables::{Kind, Summary};
use rbbi_tree::{Atom, Expr, Item, Quant};
use std::alloc::{AllocError, Global};

/// Notes the faults of the expression that the statement with the number `limit` assigns, adds its
/// leaves, and returns the kind of variable that it defines.
pub(crate) fn check_definition(
    alloc: Global,
    context: &Context,
    least: &mut Option<Fault>,
    leaves: &mut Leaves,
    expr: &Expr,
) -> Result<Kind, AllocError>
    requires context { IsContext context.now }
    requires quotes { KnowsQuotes context.now }
    requires covered { AreCovered (files_of context.now) (stand_of context.now)
        (parts_of_expr (expr_tree expr.now)) }
    requires assigned { IsAssigned (statement_trees context.now.statements.now) context.now.limit
        (expr_tree expr.now) }
    ensures noted { OnOk result (least.new ≡ noted_parts (context_of context.now) least.old
        (parts_of_expr (expr_tree expr.now))) }
    ensures rows { OnOk result (AddsRows context.now
        (leaves_of_expr (context_of context.now) (expr_tree expr.now))
        leaves.old.rows.items leaves.new.rows.items) }
    ensures kind { IfOk result (λ kind. IsKindOf (files_of context.now) (bounds_of context.now)
        (statement_trees context.now.statements.now) kind
        (variable_for (context_of context.now) (expr_tree expr.now))) }
{
    let first = leaves.rows.len();
    let summary = check_expr(alloc, context, least, leaves, expr)?;
    match lone_item(expr) {
        Some(item) => Ok(kind_of_atom(context, leaves, first, summary, &item.atom)?),
        None => Ok(Kind::Expression(summary)),
    }
}

/// The kind of variable that an atom alone defines. Its leaves begin with this number.
fn kind_of_atom(
    context: &Context,
    leaves: &Leaves,
    first: usize,
    summary: Summary,
    atom: &Atom,
) -> Result<Kind, AllocError>
    requires context { IsContext context.now }
    requires rows { (before : List (Option ClassBits)) × (first ≡ length before)
        × AddsRows context.now (leaves_of_atom (context_of context.now) (atom_tree atom.now))
        before leaves.now.rows.items }
    requires assigned { (place : ℕ) × IsAssigned (statement_trees context.now.statements.now)
        context.now.limit (alternative (item_of (placed place (atom_tree atom.now) Once) no_items)
        no_alternatives) }
    ensures { IfOk result (λ kind. (meaning : Meaning) (height : ℕ)
        → Summarizes summary meaning height
        → IsKindOf (files_of context.now) (bounds_of context.now)
        (statement_trees context.now.statements.now) kind
        (variable_with (set_of_atom (context_of context.now) (atom_tree atom.now)) meaning
        height)) }
{
    match atom {
        Atom::Prop { .. } | Atom::Set(_) => {
            let value = leaves.rows[first].clone()?;
            Ok(Kind::Set(value, context.limit))
        }
        Atom::Name(name) => match context.variable(name) {
            Some(variable) => match &variable.kind {
                Kind::Set(value, writer) => Ok(Kind::Set(value.clone()?, *writer)),
                Kind::Expression(_) => Ok(Kind::Expression(summary)),
            },
            None => Ok(Kind::Expression(summary)),
        },
        Atom::Char { .. } | Atom::Quoted(_) | Atom::Any | Atom::Group(_) => {
            Ok(Kind::Expression(summary))
        }
    }
}

/// The one item of an expression that is a single atom with no quantifier.
fn lone_item(expr: &Expr) -> Option<&Item>
    ensures lone { IfSome result (λ item. expr_tree expr.now ≡ alternative
        (item_of (placed item.now.place (atom_tree item.now.atom) Once) no_items) no_alternatives) }
    ensures none { IfNone result ((context : contexts.Context) →
        set_of_expr context (expr_tree expr.now) ≡ None) }
{
    if expr.items.len() != 1 {
        return None;
    }
    let seq = &expr.items[0];
    if seq.items.len() != 1 {
        return None;
    }
    let item = &seq.items[0];
    match item.quant {
        Quant::Once => Some(item),
        Quant::Star | Quant::Plus | Quant::Quest => None,
    }
}
