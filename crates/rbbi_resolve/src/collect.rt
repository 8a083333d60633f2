//! The sets of which all sets of a rule file are made.
ghost use Rattle.std.specs.Prelude.{◌≡◌, IfSome, OnOk};
ghost use Rattle.rbbi_tree.specs.Values.{statement_tree, expr_tree, seq_tree, item_tree, set_tree};
ghost use Rattle.rbbi_tree.specs.Values.{part_tree};
ghost use Rattle.rbbi_sets.specs.Rising.{IsRange};
ghost use Rattle.rbbi_resolve.specs.Parts.{parts_of_expr, parts_of_seq, parts_of_item};
ghost use Rattle.rbbi_resolve.specs.inner.Covered.{Collects, CollectsSet, CollectsPart};
ghost use Rattle.rbbi_resolve.specs.inner.Covered.{IsCollection, parts_of_statement};
ghost use Rattle.rbbi_resolve.specs.inner.LiteralRuns.{IsLiteral};

use crate::collection::Collection;
use rbbi_props::PropTable;
use rbbi_sets::CodeRange;
use rbbi_tree::{Atom, Expr, Item, Join, Seq, SetExpr, SetItem, SetPart, Statement};
use std::alloc::{AllocError, Global};

/// Collects the sets of which those of a statement are made, and looks its properties up.
pub(crate) fn collect_statement(
    alloc: Global,
    table: &PropTable,
    collection: &mut Collection,
    statement: &Statement,
) -> Result<(), AllocError>
    requires { IsCollection table.now collection.old }
    ensures { OnOk result (Collects table.now collection.old collection.new
        (parts_of_statement (statement_tree statement.now))) }
{
    match statement {
        Statement::Nothing => Ok(()),
        Statement::Control { .. } => Ok(()),
        Statement::Assign { expr, .. } => Ok(collect_expr(alloc, table, collection, expr)?),
        Statement::Rule { front, rest, .. } => {
            collect_expr(alloc, table, collection, front)?;
            if let Some(rest) = rest {
                collect_expr(alloc, table, collection, rest)?;
            }
            Ok(())
        }
    }
}

/// Collects those of an expression. At most 64 groups are open, so at most 65 expressions are, each
/// in three calls or fewer.
#[cycle(collect)]
fn collect_expr(
    alloc: Global,
    table: &PropTable,
    collection: &mut Collection,
    expr: &Expr,
) -> Result<(), AllocError>
    requires { IsCollection table.now collection.old }
    ensures { OnOk result (Collects table.now collection.old collection.new
        (parts_of_expr (expr_tree expr.now))) }
{
    for seq in &expr.items {
        collect_seq(alloc, table, collection, seq)?;
    }
    Ok(())
}

/// Collects those of a sequence.
#[cycle(collect)]
fn collect_seq(
    alloc: Global,
    table: &PropTable,
    collection: &mut Collection,
    seq: &Seq,
) -> Result<(), AllocError>
    requires { IsCollection table.now collection.old }
    ensures { OnOk result (Collects table.now collection.old collection.new
        (parts_of_seq (seq_tree seq.now))) }
{
    for item in &seq.items {
        collect_item(alloc, table, collection, item)?;
    }
    Ok(())
}

/// Collects those of an item.
#[cycle(collect)]
fn collect_item(
    alloc: Global,
    table: &PropTable,
    collection: &mut Collection,
    item: &Item,
) -> Result<(), AllocError>
    requires { IsCollection table.now collection.old }
    ensures { OnOk result (Collects table.now collection.old collection.new
        (parts_of_item (item_tree item.now))) }
{
    match &item.atom {
        Atom::Char { c, .. } => Ok(collection.add_character(alloc, *c)?),
        Atom::Quoted(word) => Ok(collection.add_word(alloc, word)?),
        Atom::Any => Ok(()),
        Atom::Name(_) => Ok(()),
        Atom::Prop {
            negated,
            name,
            value,
        } => Ok(collection.add_property(alloc, table, *negated, name, value)?),
        Atom::Set(set) => Ok(collect_set(alloc, table, collection, set)?),
        Atom::Group(inner) => Ok(collect_expr(alloc, table, collection, inner)?),
    }
}

/// Collects those of a set: of characters and ranges that follow one another one set is made, since
/// nothing distinguishes them here. At most 64 sets are open, each in two calls.
#[cycle(collect_sets)]
fn collect_set(
    alloc: Global,
    table: &PropTable,
    collection: &mut Collection,
    set: &SetExpr,
) -> Result<(), AllocError>
    requires { IsCollection table.now collection.old }
    ensures { OnOk result (CollectsSet table.now collection.old collection.new (set_tree set.now)) }
{
    let mut run = Vec::new(alloc);
    for part in &set.parts.items {
        if let Some(range) = literal(part) {
            run.push(range)?;
        } else {
            collection.add_run(alloc, run)?;
            run = Vec::new(alloc);
            collect_part(alloc, table, collection, part)?;
        }
    }
    collection.add_run(alloc, run)?;
    Ok(())
}

/// The range of a part that adds it to what stands to its left.
fn literal(part: &SetPart) -> Option<CodeRange>
    ensures range { IfSome result IsRange }
    ensures literal { IfSome result (λ range. IsLiteral range (part_tree part.now)) }
{
    match part.join {
        Join::Add => match &part.item {
            SetItem::Char(c) => range_of(*c, *c),
            SetItem::Range(first, last) => range_of(*first, *last),
            SetItem::Name(_) | SetItem::Prop { .. } | SetItem::Set(_) => None,
        },
        Join::Both | Join::Minus => None,
    }
}

/// The range from one character to another, where it isn't greater.
fn range_of(first: char, last: char) -> Option<CodeRange>
    ensures { IfSome result (λ range. IsRange range × (range.low ≡ first) × (range.high ≡ last)) }
{
    if first > last {
        return None;
    }
    Some(CodeRange {
        low: first as u32,
        high: last as u32,
    })
}

/// Collects those of a part of a set.
#[cycle(collect_sets)]
fn collect_part(
    alloc: Global,
    table: &PropTable,
    collection: &mut Collection,
    part: &SetPart,
) -> Result<(), AllocError>
    requires { IsCollection table.now collection.old }
    ensures { OnOk result (CollectsPart table.now collection.old collection.new
        (part_tree part.now)) }
{
    match &part.item {
        SetItem::Char(c) => Ok(collection.add_range(alloc, *c, *c)?),
        SetItem::Range(first, last) => Ok(collection.add_range(alloc, *first, *last)?),
        SetItem::Name(_) => Ok(()),
        SetItem::Prop {
            negated,
            name,
            value,
        } => Ok(collection.add_property(alloc, table, *negated, name, value)?),
        SetItem::Set(inner) => Ok(collect_set(alloc, table, collection, inner)?),
    }
}
