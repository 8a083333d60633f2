//! A valid table and its parts.
ghost use Rattle.std.specs.Prelude.{◌≡◌, ℕ, ◌+◌, ◌-◌, ◌*◌, ◌<◌, length, slice_get, slice_index_or};
ghost use Rattle.std.specs.Prelude.{Some, IfOk, IsTrue, ◌↔◌};
ghost use Rattle.rbbi_model.specs.Tables.{category_of, statuses_of, head_of, step};
ghost use Rattle.rbbi_model.specs.SafePairs.{IsSafePair, is_safe};
ghost use Rattle.rbbi_model.specs.ValidTables.{IsValidTable};
ghost use Rattle.rbbi_model.specs.Lines.{safe_count};
ghost use Rattle.rbbi_table.specs.Parts.{table_of, HasFittingParts, AreValidParts};
ghost use Rattle.rbbi_table.specs.Answers.{MakesTable};

use crate::bits::has_stored;
use crate::checks::check_parts;
use crate::kept::{Kept, kept_beside};
use crate::parts::copied;
use crate::short::Short;
use crate::{Blocks, Parts, RangeRow, RowHead, TableErr};
use std::alloc::{AllocError, Global};
use std::marker::Model;

/// A valid table. Contracts see it as a `Table` of `rbbi_model`, by its parts.
///
/// Beside the parts it keeps the categories of all code points in blocks, and the rows in one flat
/// list for the loop of a search: a short one if the table has no look-ahead rules and isn't large.
#[derive(Drop)]
pub struct Table {
    pub(crate) parts: Parts,
    pub(crate) blocks: Blocks,
    pub(crate) moves: Vec<u32>,
    pub(crate) short: Short,
}

impl Model for Table {
    ghost use Rattle.rbbi_model.specs.Tables.{Table};

    ghost Value = { Table };

    ghost use Rattle.rbbi_table.specs.Parts.{table_of};
    ghost use Rattle.rbbi_table.specs.Kept.{IsWholeKept};

    ghost view = { λ table. table_of table.parts };

    ghost invariant = { λ table. IsWholeKept (table_of table.parts) table.blocks.numbers.items
        table.blocks.categories.items table.moves.items
        table.short.moves.items table.short.near.items table.short.start };
}

impl Table {
    /// The table of these parts, which may come from outside. They are copied.
    ///
    /// Refuses `BadRanges`, `BadLists`, `BadRows`, `BadFronts` or `BadSafe` if that part is the
    /// first that isn't valid. The checks of fronts and safe pairs go over rows and categories,
    /// never over ways through the table.
    pub fn from_parts(alloc: Global, parts: &Parts) -> Result<Table, TableErr>
        requires { HasFittingParts (table_of parts.now) }
        ensures { MakesTable (table_of parts.now) result }
    {
        check_parts(alloc, parts)?;
        let copy = copied(alloc, parts)?;
        Ok(Table::from_valid(alloc, copy)?)
    }

    /// The table of these parts, which are valid: nothing is checked or copied. Fails only if
    /// memory runs out.
    pub fn from_valid(alloc: Global, parts: Parts) -> Result<Table, AllocError>
        requires { AreValidParts (table_of parts) }
        ensures { IfOk result (λ table. (table ≡ table_of parts) × IsValidTable table) }
    {
        let Kept {
            blocks,
            moves,
            short,
        } = kept_beside(alloc, &parts)?;
        Ok(Table {
            parts,
            blocks,
            moves,
            short,
        })
    }

    /// That the table is valid: it is there for proofs, and does nothing when it runs.
    pub fn valid(&self)
        ensures { IsValidTable self.now }
    {
        let _parts = &self.parts;
    }

    /// The parts, as they were checked.
    pub fn parts(&self) -> &Parts
        ensures { table_of result.now ≡ self.now }
    {
        &self.parts
    }

    /// How many categories there are.
    pub fn categories(&self) -> u16
        ensures { result ≡ self.now.categories }
    {
        self.parts.categories
    }

    /// How many look-ahead rules there are.
    pub fn slashes(&self) -> u16
        ensures { result ≡ self.now.slashes }
    {
        self.parts.slashes
    }

    /// How many ranges there are.
    pub fn ranges(&self) -> u32
        ensures { result ≡ length self.now.ranges }
    {
        self.parts.ranges.len() as u32
    }

    /// How many status lists there are.
    pub fn lists(&self) -> u16
        ensures { result ≡ length self.now.lists }
    {
        self.parts.lists.len() as u16
    }

    /// How many rows there are.
    pub fn rows(&self) -> u16
        ensures { result ≡ length self.now.rows }
    {
        self.parts.rows.len() as u16
    }

    /// How many pairs of categories are safe.
    pub fn safe_count(&self) -> u32
        ensures { result ≡ safe_count self.now }
    {
        let width = u32::from(self.parts.categories);
        let bytes = self.parts.safe.as_slice();
        let mut count = 0;
        for bit in 0..width * width {
            if has_stored(bytes, bit as usize) {
                count += 1;
            }
        }
        count
    }

    /// The range with this number, from 0.
    pub fn range(&self, i: u32) -> RangeRow
        requires { i < length self.now.ranges }
        ensures { slice_get self.now.ranges i ≡ Some result }
    {
        *self.parts.ranges.get(i as usize)
    }

    /// The status list with this number, from 0: numbers that rise.
    pub fn status_list(&self, i: u16) -> &[u32]
        requires { i < length self.now.lists }
        ensures { result.now ≡ statuses_of self.now i }
    {
        self.parts.lists.get(i as usize).as_slice()
    }

    /// The head of the row with this number, from 0.
    pub fn row(&self, r: u16) -> RowHead
        requires { r < length self.now.rows }
        ensures { result ≡ head_of self.now r }
    {
        *self.parts.rows.get(r as usize)
    }

    /// The next row from a row, for a category.
    pub fn step(&self, r: u16, cat: u16) -> u16
        requires row { r < length self.now.rows }
        requires category { cat < self.now.categories }
        ensures { result ≡ step self.now r cat }
    {
        *self
            .parts
            .cells
            .get(r as usize * self.parts.categories as usize + cat as usize)
    }

    /// The category of a character.
    pub fn category(&self, c: char) -> u16
        ensures value { result ≡ category_of self.now.ranges c }
        ensures within { result < self.now.categories }
    {
        self.blocks.category(c)
    }

    /// Whether the pair of categories is safe.
    pub fn is_safe(&self, c1: u16, c2: u16) -> bool
        requires first { c1 < self.now.categories }
        requires second { c2 < self.now.categories }
        ensures stored { result ≡ is_safe self.now c1 c2 }
        ensures exact { IsTrue result ↔ IsSafePair self.now c1 c2 }
    {
        let bit = c1 as usize * self.parts.categories as usize + c2 as usize;
        has_stored(self.parts.safe.as_slice(), bit)
    }
}
