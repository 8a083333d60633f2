//! What a walk over the statements of a rule file collects.
ghost use Rattle.std.specs.Prelude.{◌≡◌, ◌≤◌, ◌∷◌, [], List, IsTrue, IfOk, IfSome, OnOk};
ghost use Rattle.std.specs.HashMap.{values};
ghost use Rattle.std.specs.List.{All, AllByRecursion, Contains};
ghost use Rattle.rbbi_model.specs.Ranges.{Range};
ghost use Rattle.rbbi_props.specs.Rows.{File};
ghost use Rattle.rbbi_sets.specs.Rising.{IsRange};
ghost use Rattle.rbbi_resolve.specs.inner.Covered.{HasBase, HasSame, HasSingle, IsBasedAnswer};
ghost use Rattle.rbbi_resolve.specs.inner.Covered.{AreSingled, IsCollection};

use crate::properties::{Answer, answer_of, find, keep_once};
use crate::question::key_of;
use indexmap::IndexMap;
use rbbi_bits::{has, insert};
use rbbi_props::PropTable;
use rbbi_sets::{CodeRange, CodeSet};
use rbbi_text::Word;
use std::alloc::{AllocError, Global};
use std::rc::Rc;

/// The words of a row of bits for all code points.
const CHARACTER_WORDS: usize = 0x11_0000 / 64;

/// What a walk over statements collected.
#[derive(Drop)]
pub(crate) struct Collection {
    /// The sets of which all sets of the file are made: those of properties, those of characters
    /// and ranges that follow one another in a set, and those of single characters.
    pub(crate) bases: Vec<CodeSet>,
    /// The characters whose sets are among `bases`, as a row of bits.
    pub(crate) characters: Vec<u64>,
    /// What was found for each property, by a text that all spellings of it share.
    pub(crate) answers: IndexMap<String, Answer>,
    /// What was found, by a hash, since properties of many names may be the same. Of sets with one
    /// hash the last one is here.
    sets: IndexMap<u64, Rc<Option<CodeSet>>>,
}

impl Collection {
    /// Nothing.
    pub(crate) fn new(alloc: Global) -> Result<Collection, AllocError>
        ensures { IfOk result (λ nothing. (files : List File) → IsCollection files nothing) }
    {
        Ok(Collection {
            bases: Vec::new(alloc),
            characters: vec![in alloc; 0; CHARACTER_WORDS]?,
            answers: IndexMap::new(alloc),
            sets: IndexMap::new(alloc),
        })
    }

    /// Adds the set of a character, unless it is there.
    pub(crate) fn add_character(&mut self, alloc: Global, c: char) -> Result<(), AllocError>
        requires { AreSingled self.old.bases.items self.old.characters.items }
        ensures keeps { OnOk result ((base : List Range) → Contains self.old.bases.items base
            → Contains self.new.bases.items base) }
        ensures added { OnOk result (HasSingle self.new.bases.items c) }
        ensures singled { OnOk result (AreSingled self.new.bases.items self.new.characters.items) }
        ensures kept { OnOk result ((files : List File) → IsCollection files self.old
            → IsCollection files self.new) }
    {
        let place = c as usize;
        if has(&self.characters, place) {
            return Ok(());
        }
        self.bases.push(CodeSet::range(alloc, c as u32, c as u32)?)?;
        insert(&mut self.characters, place);
        Ok(())
    }

    /// Adds the sets of the characters of a word.
    pub(crate) fn add_word(&mut self, alloc: Global, word: &Word) -> Result<(), AllocError>
        requires { AreSingled self.old.bases.items self.old.characters.items }
        ensures keeps { OnOk result ((base : List Range) → Contains self.old.bases.items base
            → Contains self.new.bases.items base) }
        ensures added { OnOk result (AllByRecursion (HasSingle self.new.bases.items) word.now) }
        ensures kept { OnOk result ((files : List File) → IsCollection files self.old
            → IsCollection files self.new) }
    {
        for c in word.as_str().chars() {
            self.add_character(alloc, c)?;
        }
        Ok(())
    }

    /// Adds the set of these ranges.
    pub(crate) fn add_run(&mut self, alloc: Global, run: Vec<CodeRange>) -> Result<(), AllocError>
        requires { All IsRange run.items }
        ensures keeps { OnOk result ((base : List Range) → Contains self.old.bases.items base
            → Contains self.new.bases.items base) }
        ensures added { OnOk result (HasSame self.new.bases.items run.items) }
        ensures kept { OnOk result ((files : List File) → IsCollection files self.old
            → IsCollection files self.new) }
    {
        let base = CodeSet::from_ranges(alloc, run)?;
        self.bases.push(base)?;
        Ok(())
    }

    /// Adds the set of the characters from one to another, where it isn't greater.
    pub(crate) fn add_range(
        &mut self,
        alloc: Global,
        first: char,
        last: char,
    ) -> Result<(), AllocError>
        ensures keeps { OnOk result ((base : List Range) → Contains self.old.bases.items base
            → Contains self.new.bases.items base) }
        ensures added { OnOk result (first ≤ last → HasSame self.new.bases.items
            (record { low = first; high = last } ∷ [])) }
        ensures kept { OnOk result ((files : List File) → IsCollection files self.old
            → IsCollection files self.new) }
    {
        if first > last {
            return Ok(());
        }
        let base = CodeSet::range(alloc, first as u32, last as u32)?;
        self.bases.push(base)?;
        Ok(())
    }

    /// Adds the set of a property, unless it is known.
    pub(crate) fn add_property(
        &mut self,
        alloc: Global,
        table: &PropTable,
        negated: bool,
        name: &Word,
        value: &Option<Word>,
    ) -> Result<(), AllocError>
        requires { IsCollection table.now self.old }
        ensures keeps { OnOk result ((base : List Range) → Contains self.old.bases.items base
            → Contains self.new.bases.items base) }
        ensures based { OnOk result (HasBase table.now self.new.bases.items
            negated name.now value.now) }
        ensures kept { OnOk result (IsCollection table.now self.new) }
    {
        let key = key_of(alloc, negated, name, value)?;
        if knows(&self.answers, key.as_str(), negated, name, value) {
            return Ok(());
        }
        let found = find(alloc, table, negated, name, value)?;
        let set = keep_once(alloc, &mut self.sets, found)?;
        self.add_set(set.as_ref())?;
        let answer = answer_of(alloc, negated, name, value, set)?;
        self.answers.insert(key, answer)?;
        Ok(())
    }

    /// Adds a set, where there is one.
    fn add_set(&mut self, set: &Option<CodeSet>) -> Result<(), AllocError>
        ensures keeps { OnOk result ((base : List Range) → Contains self.old.bases.items base
            → Contains self.new.bases.items base) }
        ensures own { OnOk result (IfSome set.now (Contains self.new.bases.items)) }
        ensures answers { self.new.answers ≡ self.old.answers }
        ensures characters { self.new.characters ≡ self.old.characters }
    {
        if let Some(set) = set {
            self.bases.push(set.clone()?)?;
        }
        Ok(())
    }
}

/// Whether the property was looked up before, under its key.
fn knows(
    answers: &IndexMap<String, Answer>,
    key: &str,
    negated: bool,
    name: &Word,
    value: &Option<Word>,
) -> bool
    ensures { IsTrue result → (files : List File) (bases : List (List Range)) → All (IsBasedAnswer
        files bases) (values answers.now) → HasBase files bases negated name.now value.now }
{
    match answers.get(key) {
        Some(answer) => answer.question.is_for(negated, name, value),
        None => false,
    }
}
