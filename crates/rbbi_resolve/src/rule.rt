//! The faults of a rule, and its counts.
ghost use Rattle.std.specs.Prelude.{◌≡◌, ◌++◌, IfOk, OnOk};
ghost use Rattle.rbbi_tree.specs.Values.{expr_tree, rest_tree};
ghost use Rattle.rbbi_resolve.specs.Parts.{parts_of_expr};
ghost use Rattle.rbbi_resolve.specs.Faults.{noted, faults_of_parts};
ghost use Rattle.rbbi_resolve.specs.Files.{faults_of_rest, faults_at_slash};
ghost use Rattle.rbbi_resolve.specs.inner.Contexts.{IsContext, KnowsQuotes, files_of, stand_of};
ghost use Rattle.rbbi_resolve.specs.inner.Contexts.{context_of, AddsRows};
ghost use Rattle.rbbi_resolve.specs.inner.Covered.{AreCovered, parts_of_rest};
ghost use Rattle.rbbi_resolve.specs.inner.OwnLeaves.{leaves_of_expr, leaves_of_rest};
ghost use Rattle.rbbi_resolve.specs.inner.RuleSums.{AreSumsOf, faults_where_empty};

use crate::check::check_expr;
use crate::context::Context;
use crate::fault::{Fault, FaultKind, note_where};
use crate::leaves::Leaves;
use crate::variables::Summary;
use rbbi_tree::Expr;
use std::alloc::{AllocError, Global};

/// Notes the faults of a rule, and counts it.
pub(crate) fn check_rule(
    alloc: Global,
    context: &Context,
    least: &mut Option<Fault>,
    leaves: &mut Leaves,
    front: &Expr,
    slash: Option<u32>,
    rest: &Option<Expr>,
) -> Result<Summary, AllocError>
    requires context { IsContext context.now }
    requires quotes { KnowsQuotes context.now }
    requires front { AreCovered (files_of context.now) (stand_of context.now)
        (parts_of_expr (expr_tree front.now)) }
    requires rest { AreCovered (files_of context.now) (stand_of context.now)
        (parts_of_rest (rest_tree rest.now)) }
    ensures noted { OnOk result (least.new ≡ noted
        least.old (faults_of_parts (context_of context.now) (parts_of_expr (expr_tree front.now))
        ++ (faults_of_rest (context_of context.now) (rest_tree rest.now) ++ faults_at_slash
        (context_of context.now) (expr_tree front.now) slash (rest_tree rest.now)))) }
    ensures counts { IfOk result (AreSumsOf (context_of context.now)
        (expr_tree front.now) (rest_tree rest.now)) }
    ensures rows { OnOk result (AddsRows context.now (leaves_of_expr (context_of context.now)
        (expr_tree front.now) ++ leaves_of_rest (context_of context.now) (rest_tree rest.now))
        leaves.old.rows.items leaves.new.rows.items) }
{
    let front_sum = check_expr(alloc, context, least, leaves, front)?;
    match rest {
        Some(rest) => {
            let rest_sum = check_expr(alloc, context, least, leaves, rest)?;
            note_empty(least, slash, front_sum.spells_empty, rest_sum.spells_empty);
            Ok(front_sum.then(rest_sum))
        }
        None => Ok(front_sum),
    }
}

/// Notes at the slash that the front or the rest spells the empty word.
fn note_empty(least: &mut Option<Fault>, slash: Option<u32>, front: bool, rest: bool)
    ensures { least.new ≡ noted least.old (faults_where_empty slash front rest) }
{
    if let Some(place) = slash {
        note_where(least, front, place, FaultKind::EmptyFront);
        note_where(least, rest, place, FaultKind::EmptyRest);
    }
}
