//! The value of a set, and the faults in it.
ghost use Rattle.std.specs.Prelude.{◌≡◌, ℕ, nat_lt, List, Option, [], ◌∷◌, Some};
ghost use Rattle.std.specs.Prelude.{IfOk, OnOk, option_map};
ghost use Rattle.rbbi_model.specs.SetTrees as model;
ghost use Rattle.rbbi_props.specs.Rows.{File};
ghost use Rattle.rbbi_tree.specs.Trees.{joined, set_name, set_property};
ghost use Rattle.rbbi_tree.specs.Values.{set_tree, set_item_tree};
ghost use Rattle.rbbi_tree.specs.declared.syntax.Join as trees;
ghost use Rattle.rbbi_resolve.specs.SetValues.{joined_to, signed, value_of_set, value_of_item};
ghost use Rattle.rbbi_resolve.specs.SetValues.{value_of_range, value_of_property};
ghost use Rattle.rbbi_resolve.specs.inner.ClassValues.{IsClassValue};
ghost use Rattle.rbbi_resolve.specs.Contexts.{value_of_name};
ghost use Rattle.rbbi_resolve.specs.Parts.{Within, parts_of_set, parts_of_part};
ghost use Rattle.rbbi_resolve.specs.declared.fault.FaultKind.TheVariants as kinds;
ghost use Rattle.rbbi_resolve.specs.Faults.{noted, faults_where};
ghost use Rattle.rbbi_resolve.specs.inner.Faults.{noted_parts};
ghost use Rattle.rbbi_resolve.specs.inner.Contexts.{IsContext, files_of, bounds_of, context_of};

use crate::context::Context;
use crate::division::divide;
use crate::fault::{Fault, FaultKind, note, note_where};
use crate::properties::find;
use crate::question::key_of;
use crate::variables::Kind;
use rbbi_classes::{ClassSet, Layout};
use rbbi_text::Word;
use rbbi_tree::{Join, SetExpr, SetItem};
use std::alloc::{AllocError, Global};

/// Finds the value of a set, if each part of it has one. Notes the faults of its parts.
///
/// At most 64 brackets are open, so at most 64 sets are, each in two calls. Values are passed by
/// reference, and what finds the value of a part isn't inlined, so that the frames stay small.
#[cycle(sets)]
pub(crate) fn find_set(
    alloc: Global,
    context: &Context,
    least: &mut Option<Fault>,
    set: &SetExpr,
    value: &mut Option<ClassSet>,
) -> Result<(), AllocError>
    requires { IsContext context.now }
    ensures value { OnOk result (IsClassValue (files_of context.now) (bounds_of context.now)
        (value_of_set (files_of context.now) (value_of_name (context_of context.now))
        (set_tree set.now)) value.new) }
    ensures noted { OnOk result (least.new ≡ noted_parts (context_of context.now) least.old
        (parts_of_set (set_tree set.now))) }
{
    *value = Some(ClassSet::empty(alloc));
    for part in &set.parts.items {
        let mut item = None;
        find_item(alloc, context, least, part.place, &part.item, &mut item)?;
        join(alloc, value, part.join, &mut item)?;
    }
    add_sign(alloc, context.layout(), set.negated, value)?;
    Ok(())
}

/// Finds the value of an item of a set, if it has one. Notes its faults.
#[cycle(sets)]
fn find_item(
    alloc: Global,
    context: &Context,
    least: &mut Option<Fault>,
    place: u32,
    item: &SetItem,
    value: &mut Option<ClassSet>,
) -> Result<(), AllocError>
    requires { IsContext context.now }
    ensures value { OnOk result (IsClassValue (files_of context.now) (bounds_of context.now)
        (value_of_item (files_of context.now) (value_of_name (context_of context.now))
        (set_item_tree item.now)) value.new) }
    ensures noted { OnOk result ((join : trees.Join) → least.new ≡ noted_parts
        (context_of context.now) least.old
        (parts_of_part (joined place join (set_item_tree item.now)))) }
{
    match item {
        SetItem::Char(c) => Ok(find_character(alloc, context.layout(), *c, value)?),
        SetItem::Range(first, last) => {
            find_range(alloc, context.layout(), least, place, *first, *last, value)?;
            Ok(())
        }
        SetItem::Name(name) => Ok(find_variable(context, least, place, name, value)?),
        SetItem::Prop {
            negated,
            name,
            value: word,
        } => Ok(find_property(alloc, context, least, place, *negated, name, word, value)?),
        SetItem::Set(inner) => Ok(find_set(alloc, context, least, inner, value)?),
    }
}

/// Finds the value of a character.
#[inline(never)]
fn find_character(
    alloc: Global,
    layout: &Layout,
    c: char,
    value: &mut Option<ClassSet>,
) -> Result<(), AllocError>
    ensures { OnOk result ((files : List File) →
        IsClassValue files layout.now (Some (model.Character c)) value.new) }
{
    let code = c as u32;
    *value = Some(ClassSet::range(alloc, layout, code, code)?);
    Ok(())
}

/// Finds the value of a range; notes a fault if its first character is greater than its last.
#[inline(never)]
fn find_range(
    alloc: Global,
    layout: &Layout,
    least: &mut Option<Fault>,
    place: u32,
    first: char,
    last: char,
    value: &mut Option<ClassSet>,
) -> Result<(), AllocError>
    ensures value { OnOk result ((files : List File) →
        IsClassValue files layout.now (value_of_range first last) value.new) }
    ensures noted { OnOk result (least.new ≡ noted least.old
        (faults_where (nat_lt last first) place kinds.BadRange)) }
{
    let low = first as u32;
    let high = last as u32;
    note_where(least, high < low, place, FaultKind::BadRange);
    if high < low {
        *value = None;
        return Ok(());
    }
    *value = Some(ClassSet::range(alloc, layout, low, high)?);
    Ok(())
}

/// Finds the value of a name in a set; notes a fault if it has none.
#[inline(never)]
fn find_variable(
    context: &Context,
    least: &mut Option<Fault>,
    place: u32,
    name: &Word,
    value: &mut Option<ClassSet>,
) -> Result<(), AllocError>
    requires { IsContext context.now }
    ensures value { OnOk result (IsClassValue (files_of context.now) (bounds_of context.now)
        (value_of_name (context_of context.now) name.now) value.new) }
    ensures noted { OnOk result (least.new ≡ noted_parts (context_of context.now) least.old
        (Within place (set_name name.now) ∷ [])) }
{
    match context.variable(name) {
        Some(variable) => match &variable.kind {
            Kind::Set(set, _) => {
                *value = set.clone()?;
                Ok(())
            }
            Kind::Expression(_) => {
                note(least, place, FaultKind::NotASet);
                *value = None;
                Ok(())
            }
        },
        None => {
            note(least, place, FaultKind::Undefined);
            *value = None;
            Ok(())
        }
    }
}

/// Finds the value of a property in a set; notes a fault if it is unknown.
#[inline(never)]
fn find_property(
    alloc: Global,
    context: &Context,
    least: &mut Option<Fault>,
    place: u32,
    negated: bool,
    name: &Word,
    word: &Option<Word>,
    value: &mut Option<ClassSet>,
) -> Result<(), AllocError>
    requires { IsContext context.now }
    ensures value { OnOk result (IsClassValue (files_of context.now) (bounds_of context.now)
        (value_of_property (files_of context.now) negated name.now word.now) value.new) }
    ensures noted { OnOk result (least.new ≡ noted_parts (context_of context.now) least.old
        (Within place (set_property negated name.now word.now) ∷ [])) }
{
    let found = value_of_property(alloc, context, negated, name, word)?;
    note_where(least, found.is_none(), place, FaultKind::UnknownProperty);
    *value = found;
    Ok(())
}

/// The set of a property by classes; None if it is unknown.
pub(crate) fn value_of_property(
    alloc: Global,
    context: &Context,
    negated: bool,
    name: &Word,
    value: &Option<Word>,
) -> Result<Option<ClassSet>, AllocError>
    requires { IsContext context.now }
    ensures { IfOk result (λ set. IsClassValue (files_of context.now) (bounds_of context.now)
        (value_of_property (files_of context.now) negated name.now value.now) set) }
{
    let key = key_of(alloc, negated, name, value)?;
    match context.classes.known(key.as_str(), negated, name, value) {
        Some(set) => Ok(set.clone()?),
        None => {
            let found = find(alloc, context.table, negated, name, value)?;
            Ok(divide(alloc, context.layout(), &found)?)
        }
    }
}

/// Joins an item with what stands to its left, which has no value then if either has none.
#[inline(never)]
fn join(
    alloc: Global,
    left: &mut Option<ClassSet>,
    join: Join,
    item: &mut Option<ClassSet>,
) -> Result<(), AllocError>
    ensures { OnOk result ((files : List File) (bounds : List ℕ)
        (left_tree item_tree : Option model.SetTree) → IsClassValue files bounds left_tree left.old
        → IsClassValue files bounds item_tree item.old
        → IsClassValue files bounds (joined_to join item_tree left_tree) left.new) }
{
    let (Some(whole), Some(part)) = (left.take(), item.take()) else {
        return Ok(());
    };
    match join {
        Join::Add => *left = Some(whole.union(alloc, part)?),
        Join::Both => *left = Some(whole.meet(alloc, &part)?),
        Join::Minus => *left = Some(whole.remove(alloc, &part)?),
    }
    Ok(())
}

/// Makes a set its complement if `negated`.
#[inline(never)]
fn add_sign(
    alloc: Global,
    layout: &Layout,
    negated: bool,
    set: &mut Option<ClassSet>,
) -> Result<(), AllocError>
    ensures { OnOk result ((files : List File) (tree : Option model.SetTree)
        → IsClassValue files layout.now tree set.old
        → IsClassValue files layout.now (option_map (signed negated) tree) set.new) }
{
    if !negated {
        return Ok(());
    }
    let Some(whole) = set.take() else {
        return Ok(());
    };
    *set = Some(whole.negate(alloc, layout)?);
    Ok(())
}
