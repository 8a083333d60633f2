//! The lists that a table is made of.
ghost use Rattle.std.specs.Prelude.{◌≡◌, ◌<◌, [], ◌∷◌, ◌++◌, length, slice_get, Some, OnOk, OnErr};

use crate::{RangeRow, RowHead};
use std::alloc::{AllocError, Global};
use std::marker::Model;

/// A list of parts of a table. Contracts see it as a list.
#[derive(Drop)]
pub struct PartList<T> {
    items: Vec<T>,
}

impl<T> Model for PartList<T> {
    ghost use Rattle.std.specs.Prelude.{List};

    ghost Value = { List T };

    ghost view = { λ list. list.items.items };
}

/// The ranges of the categories, by rising starts.
pub type RangeList = PartList<RangeRow>;

/// A status list: numbers that rise.
pub type NumberList = PartList<u32>;

/// The status lists.
pub type NumberLists = PartList<NumberList>;

/// The heads of the rows.
pub type RowList = PartList<RowHead>;

/// The next rows, row after row, one for each category.
pub type CellList = PartList<u16>;

/// The bytes of the safe pairs.
pub type ByteList = PartList<u8>;

impl<T> PartList<T> {
    /// A list of nothing.
    pub fn new(alloc: Global) -> PartList<T>
        ensures { result ≡ [] }
    {
        PartList {
            items: Vec::new(alloc),
        }
    }

    /// The list of these items.
    pub fn from_vec(items: Vec<T>) -> PartList<T>
        ensures { result ≡ items.items }
    {
        PartList { items }
    }

    /// Adds an item at the end, unless memory runs out.
    pub fn push(&mut self, item: T) -> Result<(), AllocError>
    where
        T: Drop,
        ensures ok { OnOk result (self.new ≡ self.old ++ item ∷ []) }
        ensures err { OnErr result (self.new ≡ self.old) }
    {
        self.items.push(item)?;
        Ok(())
    }

    /// The number of items.
    pub fn len(&self) -> usize
        ensures { result ≡ length self.now }
    {
        self.items.len()
    }

    /// The item with this number, from 0.
    pub fn get(&self, i: usize) -> &T
        requires { i < length self.now }
        ensures { slice_get self.now i ≡ Some result.now }
    {
        &self.items[i]
    }

    /// All items, in order.
    pub fn as_slice(&self) -> &[T]
        ensures { result.now ≡ self.now }
    {
        &self.items
    }
}
