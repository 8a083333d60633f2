//! The sets of properties.
ghost use Rattle.std.specs.Prelude.{◌≡◌, List, IfOk, IsTrue};
ghost use Rattle.std.specs.Rc.{rc_value};
ghost use Rattle.rbbi_props.specs.Lookups.{IsSetOf};
ghost use Rattle.rbbi_resolve.specs.inner.SetValues.{IsValue};
ghost use Rattle.rbbi_resolve.specs.SetValues.{value_of_property, property_test};
ghost use Rattle.rbbi_resolve.specs.inner.Questions.{IsRightAnswer};
ghost use Rattle.rbbi_props.specs.Rows.{File};

use crate::question::{Question, text_of};
use indexmap::IndexMap;
use rbbi_props::PropTable;
use rbbi_sets::CodeSet;
use rbbi_text::Word;
use std::alloc::{AllocError, Global};
use std::rc::Rc;

/// A property that was asked for, and what was found.
#[derive(Drop)]
pub(crate) struct Answer {
    pub(crate) question: Rc<Question>,
    pub(crate) set: Rc<Option<CodeSet>>,
}

/// The answer for a property with this set.
pub(crate) fn answer_of(
    alloc: Global,
    negated: bool,
    name: &Word,
    value: &Option<Word>,
    set: Rc<Option<CodeSet>>,
) -> Result<Answer, AllocError>
    ensures right { IfOk result (λ answer. (files : List File) → IsValue files
        (value_of_property files negated name.now value.now) (rc_value set)
        → IsRightAnswer files answer) }
    ensures set { IfOk result (λ answer. rc_value answer.set ≡ rc_value set) }
{
    let question = Question {
        negated,
        name: String::from_str(alloc, name.as_str())?,
        value: text_of(alloc, value)?,
    };
    Ok(Answer {
        question: Rc::new(alloc, question)?,
        set,
    })
}

/// What was found, or what is the same and was found before, by another name.
pub(crate) fn keep_once(
    alloc: Global,
    sets: &mut IndexMap<u64, Rc<Option<CodeSet>>>,
    found: Option<CodeSet>,
) -> Result<Rc<Option<CodeSet>>, AllocError>
    ensures { IfOk result (λ kept. rc_value kept ≡ found) }
{
    let hash = hash_of(&found);
    if let Some(set) = sets.get(&hash) {
        if are_same(set.as_ref(), &found) {
            return Ok(set.clone()?);
        }
    }
    let set = Rc::new(alloc, found)?;
    sets.insert(hash, set.clone()?)?;
    Ok(set)
}

/// Whether both are absent, or have the same code points.
pub(crate) fn are_same(first: &Option<CodeSet>, second: &Option<CodeSet>) -> bool
    ensures { IsTrue result → first.now ≡ second.now }
{
    match first {
        Some(first) => match second {
            Some(second) => first.ranges() == second.ranges(),
            None => false,
        },
        None => second.is_none(),
    }
}

/// A hash of the code points at which the ranges begin.
pub(crate) fn hash_of(set: &Option<CodeSet>) -> u64 {
    let mut hash: u64 = 0;
    if let Some(set) = set {
        for range in set.ranges() {
            hash = (hash ^ u64::from(range.low)).wrapping_mul(0x9E37_79B9_7F4A_7C15);
        }
    }
    hash
}

/// The set of a property by a look-up, and None where it is unknown.
pub(crate) fn find(
    alloc: Global,
    table: &PropTable,
    negated: bool,
    name: &Word,
    value: &Option<Word>,
) -> Result<Option<CodeSet>, AllocError>
    ensures { IfOk result (λ set.
        IsValue table.now (value_of_property table.now negated name.now value.now) set) }
{
    match own_set(alloc, table, name, value)? {
        Some(set) => {
            if negated {
                Ok(Some(set.complement(alloc)?))
            } else {
                Ok(Some(set))
            }
        }
        None => Ok(None),
    }
}

/// The code points of a property that isn't negated.
fn own_set(
    alloc: Global,
    table: &PropTable,
    name: &Word,
    value: &Option<Word>,
) -> Result<Option<CodeSet>, AllocError>
    ensures { IfOk result (λ set. IsSetOf set (property_test table.now name.now value.now)) }
{
    match value {
        Some(value) => table.lookup(alloc, name.as_str(), Some(value.as_str())),
        None => table.lookup(alloc, name.as_str(), None),
    }
}
