//! An expression that is being read.
ghost use Rattle.std.specs.Prelude.{◌≡◌, OnOk, IfOk};
ghost use Rattle.rbbi_tree.specs.Values.{item_tree, expr_tree};
ghost use Rattle.rbbi_tree.specs.inner.Statements.{empty_level, with_item, with_sequence, whole};
ghost use Rattle.rbbi_tree.specs.inner.Statements.{quantified, sole_name};
ghost use Rattle.rbbi_tree.specs.inner.SetStates.{FollowsMachine};
ghost use Rattle.rbbi_tree.specs.inner.States.{level_tree};

use crate::error::TreeErr;
use crate::lean::push_lean;
use crate::syntax::{Atom, Expr, Item, Quant, Seq};
use rbbi_text::Word;
use std::alloc::{AllocError, Global};
use std::mem;

/// An expression so far: the sequences that a bar ended, and the items after the last bar.
#[derive(Drop)]
pub struct Level {
    pub(crate) sequences: Vec<Seq>,
    pub(crate) items: Vec<Item>,
}

impl Level {
    /// An expression before its first token.
    pub fn new(alloc: Global) -> Level
        ensures { level_tree result ≡ empty_level }
    {
        Level {
            sequences: Vec::new(alloc),
            items: Vec::new(alloc),
        }
    }

    /// One more item.
    pub fn push(&mut self, item: Item) -> Result<(), AllocError>
        ensures { OnOk result
            (level_tree self.new ≡ with_item (item_tree item) (level_tree self.old)) }
    {
        push_lean(&mut self.items, item)
    }

    /// Says how often the last item stands, which must not have been said before.
    pub fn quantify(&mut self, place: u32, quant: Quant) -> Result<(), TreeErr>
        ensures read { FollowsMachine place (quantified quant (level_tree self.old).items)
            (λ _. (level_tree self.new).items) result }
        ensures same { OnOk result
            ((level_tree self.new).sequences ≡ (level_tree self.old).sequences) }
    {
        let Some(item) = self.items.pop() else {
            return Err(TreeErr::Syntax(place));
        };
        let Quant::Once = item.quant else {
            return Err(TreeErr::Syntax(place));
        };
        self.items.push(Item { quant, ..item })?;
        Ok(())
    }

    /// Makes the items a sequence, which takes no more memory than they need.
    pub fn end_sequence(&mut self, alloc: Global) -> Result<(), AllocError>
        ensures { OnOk result (level_tree self.new ≡ with_sequence (level_tree self.old)) }
    {
        let mut items = mem::replace(&mut self.items, Vec::new(alloc));
        items.shrink_to_fit();
        self.sequences.push(Seq { items })?;
        Ok(())
    }

    /// The expression of the sequences and the items, which takes no more memory than they need.
    pub fn into_expr(self) -> Result<Expr, AllocError>
        ensures { IfOk result (λ expr. expr_tree expr ≡ whole (level_tree self)) }
    {
        let Level {
            mut sequences,
            mut items,
        } = self;
        items.shrink_to_fit();
        push_lean(&mut sequences, Seq { items })?;
        sequences.shrink_to_fit();
        Ok(Expr { items: sequences })
    }

    /// The name that is all of this expression, for an equals sign at this place.
    pub fn into_name(mut self, place: u32) -> Result<Word, TreeErr>
        ensures { let l = level_tree self in
            FollowsMachine place (sole_name l.sequences l.items) (λ word. word) result }
    {
        let Some(item) = self.items.pop() else {
            return Err(TreeErr::Syntax(place));
        };
        if !self.sequences.is_empty() || !self.items.is_empty() {
            return Err(TreeErr::Syntax(place));
        }
        match (item.atom, item.quant) {
            (Atom::Name(word), Quant::Once) => Ok(word),
            _ => Err(TreeErr::Syntax(place)),
        }
    }
}
