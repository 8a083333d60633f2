//! The leaves of the file's expressions, in the order in which they are read.
ghost use Rattle.std.specs.Prelude.{◌≡◌, OnOk, Some, [], ◌∷◌, ◌++◌, map};
ghost use Rattle.std.specs.List.{AllByRecursion};
ghost use Rattle.rbbi_model.specs.SetTrees as model;
ghost use Rattle.rbbi_resolve.specs.inner.Contexts.{IsContext, files_of, stand_of, AddsRows};
ghost use Rattle.rbbi_resolve.specs.inner.Covered.{Respects};

use crate::context::Context;
use rbbi_classes::{ClassSet, ClassShelf};
use rbbi_text::Word;
use std::alloc::{AllocError, Global};

/// The leaves of the expressions that were read, but those of variables, which stand where these
/// are assigned.
#[derive(Drop)]
pub(crate) struct Leaves {
    /// Of each leaf its value by classes; None where it has none, since a part in it is faulty.
    pub(crate) rows: Vec<Option<ClassSet>>,
    /// The chunks that rows share.
    shelf: ClassShelf,
}

impl Leaves {
    /// No leaves.
    pub(crate) fn new(alloc: Global) -> Leaves
        ensures { result.rows.items ≡ [] }
    {
        Leaves {
            rows: Vec::new(alloc),
            shelf: ClassShelf::new(alloc),
        }
    }

    /// Adds a leaf with this value. Its chunks are shared with other rows.
    #[inline(never)]
    pub(crate) fn add(&mut self, alloc: Global, value: &Option<ClassSet>) -> Result<(), AllocError>
        ensures { OnOk result (self.new.rows.items ≡ self.old.rows.items ++ value.now ∷ []) }
    {
        let kept = match value {
            Some(set) => Some(self.shelf.keep(alloc, set)?),
            None => None,
        };
        self.rows.push(kept)?;
        Ok(())
    }

    /// Adds a character.
    #[inline(never)]
    pub(crate) fn add_character(
        &mut self,
        alloc: Global,
        context: &Context,
        c: char,
    ) -> Result<(), AllocError>
        requires { IsContext context.now }
        ensures { OnOk result (Respects (files_of context.now) (stand_of context.now)
            (model.Character c) → AddsRows context.now (Some (model.Character c) ∷ [])
            self.old.rows.items self.new.rows.items) }
    {
        let code = c as u32;
        let value = Some(ClassSet::range(alloc, context.layout(), code, code)?);
        self.add(alloc, &value)?;
        Ok(())
    }

    /// Adds the characters of a word.
    #[inline(never)]
    pub(crate) fn add_word(
        &mut self,
        alloc: Global,
        context: &Context,
        word: &Word,
    ) -> Result<(), AllocError>
        requires { IsContext context.now }
        ensures { OnOk result (AllByRecursion
            (λ c. Respects (files_of context.now) (stand_of context.now) (model.Character c))
            word.now → AddsRows context.now (map (λ c. Some (model.Character c)) word.now)
            self.old.rows.items self.new.rows.items) }
    {
        for c in word.as_str().chars() {
            self.add_character(alloc, context, c)?;
        }
        Ok(())
    }

    /// Adds the set of all characters.
    #[inline(never)]
    pub(crate) fn add_any(&mut self, alloc: Global, context: &Context) -> Result<(), AllocError>
        requires { IsContext context.now }
        ensures { OnOk result (AddsRows context.now
            (Some (model.Others model.Nothing) ∷ []) self.old.rows.items self.new.rows.items) }
    {
        let none = ClassSet::empty(alloc);
        let all = Some(none.negate(alloc, context.layout())?);
        self.add(alloc, &all)?;
        Ok(())
    }
}
