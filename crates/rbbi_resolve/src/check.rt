//! The faults of expressions, and their counts.
ghost use Rattle.std.specs.Prelude.{◌≡◌, ◌++◌, ℕ, List, Option, Some, IfOk, IfSome, OnOk, [], ◌∷◌};
ghost use Rattle.rbbi_model.specs.SetTrees as model;
ghost use Rattle.rbbi_props.specs.Rows.{File};
ghost use Rattle.rbbi_tree.specs.Trees.{name as named_atom, property as property_atom};
ghost use Rattle.rbbi_tree.specs.Trees.{set as set_atom, placed, StatementTree};
ghost use Rattle.rbbi_tree.specs.declared.syntax.Quant.{Quant};
ghost use Rattle.rbbi_tree.specs.declared.syntax.Quant.TheVariants.{Once};
ghost use Rattle.rbbi_tree.specs.Values.{expr_tree, seq_tree, item_tree, atom_tree, set_tree};
ghost use Rattle.rbbi_resolve.specs.SetValues.{value_of_set, value_of_property};
ghost use Rattle.rbbi_resolve.specs.inner.ClassValues.{IsClassValue};
ghost use Rattle.rbbi_resolve.specs.Contexts as contexts;
ghost use Rattle.rbbi_resolve.specs.Contexts.{value_of_name, variable_of};
ghost use Rattle.rbbi_resolve.specs.Expressions.{meaning_of_expr, meaning_of_seq, meaning_of_item};
ghost use Rattle.rbbi_resolve.specs.Expressions.{meaning_of_atom, meaning_of_variable};
ghost use Rattle.rbbi_resolve.specs.Expressions.{height_of_expr, height_of_seq, height_of_item};
ghost use Rattle.rbbi_resolve.specs.Expressions.{height_of_atom, height_of_variable};
ghost use Rattle.rbbi_resolve.specs.Parts.{Outside, parts_of_expr, parts_of_seq, parts_of_item};
ghost use Rattle.rbbi_resolve.specs.Parts.{parts_of_set};
ghost use Rattle.rbbi_resolve.specs.inner.Covered.{AreCovered, Respects, SetRespects};
ghost use Rattle.rbbi_classes.specs.Divisions.{stand_in};
ghost use Rattle.rbbi_resolve.specs.inner.Faults.{noted_parts};
ghost use Rattle.rbbi_resolve.specs.Faults.{is_empty_value};
ghost use Rattle.rbbi_resolve.specs.inner.Contexts.{IsContext, KnowsQuotes, IsKindOf, context_of};
ghost use Rattle.rbbi_resolve.specs.inner.Contexts.{files_of, stand_of, AddsRows};
ghost use Rattle.rbbi_resolve.specs.inner.OwnLeaves.{leaves_of_expr, leaves_of_seq, leaves_of_item};
ghost use Rattle.rbbi_resolve.specs.inner.OwnLeaves.{leaves_of_atom};
ghost use Rattle.rbbi_resolve.specs.inner.Summaries.{Summarizes};

use crate::context::Context;
use crate::fault::{Fault, FaultKind, note, note_where};
use crate::leaves::Leaves;
use crate::set_value::{find_set, value_of_property};
use crate::variables::{Kind, Summary};
use rbbi_classes::{ClassSet, Division};
use rbbi_text::Word;
use rbbi_tree::{Atom, Expr, Item, Seq, SetExpr};
use std::alloc::{AllocError, Global};

/// Notes the faults of an expression, counts it, and adds its leaves.
///
/// At most 64 groups are open, so at most 65 expressions are, each in four calls or fewer. What the
/// walk calls for a leaf isn't inlined, so that these frames stay small.
#[cycle(check)]
pub(crate) fn check_expr(
    alloc: Global,
    context: &Context,
    least: &mut Option<Fault>,
    leaves: &mut Leaves,
    expr: &Expr,
) -> Result<Summary, AllocError>
    requires context { IsContext context.now }
    requires quotes { KnowsQuotes context.now }
    requires covered { AreCovered (files_of context.now) (stand_of context.now)
        (parts_of_expr (expr_tree expr.now)) }
    ensures noted { OnOk result (least.new
        ≡ noted_parts (context_of context.now) least.old (parts_of_expr (expr_tree expr.now))) }
    ensures counts { IfOk result (λ summary. Summarizes summary
        (meaning_of_expr (context_of context.now) (expr_tree expr.now))
        (height_of_expr (context_of context.now) (expr_tree expr.now))) }
    ensures rows { OnOk result (AddsRows context.now
        (leaves_of_expr (context_of context.now) (expr_tree expr.now))
        leaves.old.rows.items leaves.new.rows.items) }
{
    let mut whole = Summary::flat(0, false);
    for seq in &expr.items {
        let part = check_seq(alloc, context, least, leaves, seq)?;
        whole = whole.or(part);
    }
    Ok(whole.raised(expr.items.len() > 1))
}

/// Notes the faults of a sequence, counts it, and adds its leaves.
#[cycle(check)]
fn check_seq(
    alloc: Global,
    context: &Context,
    least: &mut Option<Fault>,
    leaves: &mut Leaves,
    seq: &Seq,
) -> Result<Summary, AllocError>
    requires context { IsContext context.now }
    requires quotes { KnowsQuotes context.now }
    requires covered { AreCovered (files_of context.now) (stand_of context.now)
        (parts_of_seq (seq_tree seq.now)) }
    ensures noted { OnOk result (least.new
        ≡ noted_parts (context_of context.now) least.old (parts_of_seq (seq_tree seq.now))) }
    ensures counts { IfOk result (λ summary. Summarizes summary
        (meaning_of_seq (context_of context.now) (seq_tree seq.now))
        (height_of_seq (context_of context.now) (seq_tree seq.now))) }
    ensures rows { OnOk result (AddsRows context.now
        (leaves_of_seq (context_of context.now) (seq_tree seq.now))
        leaves.old.rows.items leaves.new.rows.items) }
{
    let mut whole = Summary::flat(0, true);
    for item in &seq.items {
        let part = check_item(alloc, context, least, leaves, item)?;
        whole = whole.then(part);
    }
    Ok(whole.raised(seq.items.len() > 1))
}

/// Notes the faults of an item, counts it, and adds its leaves.
#[cycle(check)]
fn check_item(
    alloc: Global,
    context: &Context,
    least: &mut Option<Fault>,
    leaves: &mut Leaves,
    item: &Item,
) -> Result<Summary, AllocError>
    requires context { IsContext context.now }
    requires quotes { KnowsQuotes context.now }
    requires covered { AreCovered (files_of context.now) (stand_of context.now)
        (parts_of_item (item_tree item.now)) }
    ensures noted { OnOk result (least.new
        ≡ noted_parts (context_of context.now) least.old (parts_of_item (item_tree item.now))) }
    ensures counts { IfOk result (λ summary. Summarizes summary
        (meaning_of_item (context_of context.now) (item_tree item.now))
        (height_of_item (context_of context.now) (item_tree item.now))) }
    ensures rows { OnOk result (AddsRows context.now
        (leaves_of_item (context_of context.now) (item_tree item.now))
        leaves.old.rows.items leaves.new.rows.items) }
{
    let atom = check_atom(alloc, context, least, leaves, item.place, &item.atom)?;
    Ok(atom.repeated(item.quant))
}

/// Notes the faults of an atom, counts it, and adds its leaves.
#[cycle(check)]
fn check_atom(
    alloc: Global,
    context: &Context,
    least: &mut Option<Fault>,
    leaves: &mut Leaves,
    place: u32,
    atom: &Atom,
) -> Result<Summary, AllocError>
    requires context { IsContext context.now }
    requires quotes { KnowsQuotes context.now }
    requires covered { AreCovered (files_of context.now) (stand_of context.now)
        (parts_of_item (placed place (atom_tree atom.now) Once)) }
    ensures noted { OnOk result ((quant : Quant) → least.new ≡ noted_parts (context_of context.now)
        least.old (parts_of_item (placed place (atom_tree atom.now) quant))) }
    ensures counts { IfOk result (λ summary. Summarizes summary
        (meaning_of_atom (context_of context.now) (atom_tree atom.now))
        (height_of_atom (context_of context.now) (atom_tree atom.now))) }
    ensures rows { OnOk result (AddsRows context.now
        (leaves_of_atom (context_of context.now) (atom_tree atom.now))
        leaves.old.rows.items leaves.new.rows.items) }
{
    match atom {
        Atom::Char { c, bare } => {
            let is_bare = *bare && context.quoted_only;
            note_where(least, is_bare, place, FaultKind::BareLiteral);
            leaves.add_character(alloc, context, *c)?;
            Ok(Summary::flat(1, false))
        }
        Atom::Quoted(word) => {
            leaves.add_word(alloc, context, word)?;
            Ok(Summary::of_word(word))
        }
        Atom::Any => {
            leaves.add_any(alloc, context)?;
            Ok(Summary::flat(1, false))
        }
        Atom::Name(name) => Ok(check_name(context, least, place, name)),
        Atom::Prop {
            negated,
            name,
            value,
        } => {
            check_property(alloc, context, least, leaves, place, *negated, name, value)?;
            Ok(Summary::flat(1, false))
        }
        Atom::Set(set) => {
            check_set(alloc, context, least, leaves, place, set)?;
            Ok(Summary::flat(1, false))
        }
        Atom::Group(inner) => {
            let whole = check_expr(alloc, context, least, leaves, inner)?;
            Ok(whole.higher())
        }
    }
}

/// Counts a variable; notes a fault if it is undefined.
fn check_name(context: &Context, least: &mut Option<Fault>, place: u32, name: &Word) -> Summary
    requires { IsContext context.now }
    ensures noted { least.new ≡ noted_parts (context_of context.now) least.old
        (Outside place (named_atom name.now) ∷ []) }
    ensures counts { Summarizes result
        (meaning_of_variable (variable_of (context_of context.now) name.now))
        (height_of_variable (variable_of (context_of context.now) name.now)) }
{
    match context.variable(name) {
        Some(variable) => summary_of(&variable.kind),
        None => {
            note(least, place, FaultKind::Undefined);
            Summary::flat(0, false)
        }
    }
}

/// The counts of a variable, used as an atom.
fn summary_of(kind: &Kind) -> Summary
    ensures { (files : List File) (bounds : List ℕ) (statements : List StatementTree)
        (variable : contexts.Variable)
        → IsKindOf files bounds statements kind.now variable → Summarizes
        result (meaning_of_variable (Some variable)) (height_of_variable (Some variable)) }
{
    match kind {
        Kind::Set(_, _) => Summary::flat(1, false),
        Kind::Expression(summary) => summary.higher(),
    }
}

/// Adds the leaf of a property. Notes that it is unknown or has no character.
#[inline(never)]
fn check_property(
    alloc: Global,
    context: &Context,
    least: &mut Option<Fault>,
    leaves: &mut Leaves,
    place: u32,
    negated: bool,
    name: &Word,
    value: &Option<Word>,
) -> Result<(), AllocError>
    requires context { IsContext context.now }
    requires covered { IfSome (value_of_property (files_of context.now) negated name.now value.now)
        (Respects (files_of context.now) (stand_of context.now)) }
    ensures noted { OnOk result (least.new ≡ noted_parts (context_of context.now) least.old
        (Outside place (property_atom negated name.now value.now) ∷ [])) }
    ensures rows { OnOk result (AddsRows context.now
        (value_of_property (files_of context.now) negated name.now value.now ∷ [])
        leaves.old.rows.items leaves.new.rows.items) }
{
    let set = value_of_property(alloc, context, negated, name, value)?;
    note_where(least, set.is_none(), place, FaultKind::UnknownProperty);
    let is_empty = is_empty_set(context.classes.division.as_ref(), &set);
    note_where(least, is_empty, place, FaultKind::EmptySet);
    leaves.add(alloc, &set)?;
    Ok(())
}

/// Adds the leaf of a set. Notes the faults in it, and that it has no character.
#[inline(never)]
fn check_set(
    alloc: Global,
    context: &Context,
    least: &mut Option<Fault>,
    leaves: &mut Leaves,
    place: u32,
    set: &SetExpr,
) -> Result<(), AllocError>
    requires context { IsContext context.now }
    requires covered { SetRespects (files_of context.now) (stand_of context.now)
        (set_tree set.now) }
    ensures noted { OnOk result (least.new ≡ noted_parts (context_of context.now) least.old
        (parts_of_set (set_tree set.now) ++ Outside place (set_atom (set_tree set.now)) ∷ [])) }
    ensures rows { OnOk result (AddsRows context.now (value_of_set (files_of context.now)
        (value_of_name (context_of context.now)) (set_tree set.now) ∷ [])
        leaves.old.rows.items leaves.new.rows.items) }
{
    let mut value = None;
    find_set(alloc, context, least, set, &mut value)?;
    let is_empty = is_empty_set(context.classes.division.as_ref(), &value);
    note_where(least, is_empty, place, FaultKind::EmptySet);
    leaves.add(alloc, &value)?;
    Ok(())
}

/// Whether a set of classes has a value without characters.
fn is_empty_set(division: &Division, value: &Option<ClassSet>) -> bool
    ensures { (files : List File) (tree : Option model.SetTree)
        → IsClassValue files division.now.bounds tree value.now →
        IfSome tree (Respects files (stand_in division.now)) → result ≡ is_empty_value files tree }
{
    match value {
        Some(set) => !set.holds_character(division.layout()),
        None => false,
    }
}
