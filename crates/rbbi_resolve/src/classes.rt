//! The partition of the code points by the sets of a rule file.
ghost use Rattle.std.specs.Prelude.{◌≡◌, ℕ, List, IfOk, IfSome, OnOk};
ghost use Rattle.std.specs.Rc.{rc_value};
ghost use Rattle.rbbi_props.specs.Rows.{File};
ghost use Rattle.rbbi_resolve.specs.SetValues.{value_of_property};
ghost use Rattle.rbbi_tree.specs.Values.{statement_trees};
ghost use Rattle.rbbi_resolve.specs.inner.ClassValues.{AreRightClasses, IsClassValue};
ghost use Rattle.rbbi_resolve.specs.inner.ClassValues.{IsKnown, IsDivided};
ghost use Rattle.rbbi_resolve.specs.inner.Questions.{IsRightAnswer};
ghost use Rattle.rbbi_resolve.specs.inner.Covered.{CoversAll, AreRespected, IsCollection};
ghost use Rattle.std.specs.HashMap.{values};
ghost use Rattle.std.specs.List.{All};
ghost use Rattle.rbbi_classes.specs.Divisions.{stand_in};

use crate::collect::collect_statement;
use crate::collection::Collection;
use crate::division::{Divided, divide_once};
use crate::properties::Answer;
use crate::question::Question;
use indexmap::IndexMap;
use rbbi_classes::{ClassSet, Division, Layout};
use rbbi_props::PropTable;
use rbbi_text::Word;
use rbbi_tree::Statements;
use std::alloc::{AllocError, Global};
use std::rc::Rc;

/// The set of a property by classes; None if the property is unknown.
#[derive(Drop)]
pub(crate) struct PropertyClasses {
    pub(crate) question: Rc<Question>,
    pub(crate) set: Rc<Option<ClassSet>>,
}

/// The partition of the code points by the properties of a rule file and by the characters and
/// ranges that follow one another in a set. Each set of the file is a union of its classes, as `of`
/// ensures.
#[derive(Drop)]
pub(crate) struct Classes {
    pub(crate) division: Rc<Division>,
    /// The sets of the file's properties, by the keys of properties.
    pub(crate) sets: IndexMap<String, PropertyClasses>,
}

impl Classes {
    /// The partition for the statements of a rule file.
    pub(crate) fn of(
        alloc: Global,
        table: &PropTable,
        statements: &Statements,
    ) -> Result<Classes, AllocError>
        ensures classes { IfOk result (AreRightClasses table.now) }
        ensures covers { IfOk result (λ classes. CoversAll
            table.now (stand_in (rc_value classes.division)) (statement_trees statements.now)) }
    {
        let collection = collected(alloc, table, statements)?;
        let division = Rc::new(alloc, Division::new(alloc, &collection.bases)?)?;
        let sets = by_classes(alloc, division.as_ref().layout(), &collection.answers)?;
        Ok(Classes { division, sets })
    }

    /// The set of a property, by its key; None if another property has that key.
    pub(crate) fn known(
        &self,
        key: &str,
        negated: bool,
        name: &Word,
        value: &Option<Word>,
    ) -> Option<&Option<ClassSet>>
        ensures { IfSome result (λ set. (files : List File) → AreRightClasses files self.now
            → IsClassValue files (rc_value self.now.division).bounds
            (value_of_property files negated name.now value.now) set.now) }
    {
        let known = self.sets.get(key)?;
        if known.question.is_for(negated, name, value) {
            Some(known.set.as_ref())
        } else {
            None
        }
    }
}

/// What the statements of a rule file collect.
fn collected(
    alloc: Global,
    table: &PropTable,
    statements: &Statements,
) -> Result<Collection, AllocError>
    ensures kept { IfOk result (IsCollection table.now) }
    ensures covers { IfOk result (λ collection. (stand : ℕ → ℕ) → AreRespected
        stand collection.bases.items → CoversAll table.now stand (statement_trees statements.now)) }
{
    let mut collection = Collection::new(alloc)?;
    collect_all(alloc, table, &mut collection, statements)?;
    Ok(collection)
}

/// Collects the sets of all statements.
fn collect_all(
    alloc: Global,
    table: &PropTable,
    collection: &mut Collection,
    statements: &Statements,
) -> Result<(), AllocError>
    requires { IsCollection table.now collection.old }
    ensures kept { OnOk result (IsCollection table.now collection.new) }
    ensures covers { OnOk result ((stand : ℕ → ℕ) → AreRespected stand collection.new.bases.items
        → CoversAll table.now stand (statement_trees statements.now)) }
{
    for number in 0..statements.len() {
        collect_statement(alloc, table, collection, statements.get(number))?;
    }
    Ok(())
}

/// The sets of the properties that were looked up, by the classes of a layout, each made once.
fn by_classes(
    alloc: Global,
    layout: &Layout,
    answers: &IndexMap<String, Answer>,
) -> Result<IndexMap<String, PropertyClasses>, AllocError>
    ensures { IfOk result (λ sets. (files : List File) → All
        (IsRightAnswer files) (values answers.now) → All (IsKnown files layout.now) (values sets)) }
{
    let mut divided = IndexMap::new(alloc);
    let mut known = IndexMap::new(alloc);
    for number in 0..answers.len() {
        add_known(alloc, layout, answers, &mut divided, &mut known, number)?;
    }
    Ok(known)
}

/// Adds the set of the answer with this number, by classes.
fn add_known(
    alloc: Global,
    layout: &Layout,
    answers: &IndexMap<String, Answer>,
    divided: &mut IndexMap<u64, Divided>,
    known: &mut IndexMap<String, PropertyClasses>,
    number: usize,
) -> Result<(), AllocError>
    requires divided { All (IsDivided layout.now) (values divided.old) }
    ensures divided { OnOk result (All (IsDivided layout.now) (values divided.new)) }
    ensures known { OnOk result ((files : List File)
        → All (IsRightAnswer files) (values answers.now) → All (IsKnown files layout.now)
        (values known.old) → All (IsKnown files layout.now) (values known.new)) }
{
    if let Some((key, answer)) = answers.get_index(number) {
        let set = divide_once(alloc, layout, divided, &answer.set)?;
        let question = answer.question.clone()?;
        known.insert(key.clone()?, PropertyClasses { question, set })?;
    }
    Ok(())
}
