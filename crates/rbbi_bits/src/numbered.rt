//! Numbered rows of words, found again by a hash.
ghost use Rattle.std.specs.Prelude.{◌≡◌, ◌<◌, ◌≤◌, [], None, Ok, length, IfOk, IfSome, IsNone};
ghost use Rattle.rbbi_bits.specs.NumberedRows.{listed_row, IsUnlisted, KeepsOrAdds};
ghost use Rattle.rbbi_bits.specs.inner.Index.{bucket_of};

use crate::hash::hash_of;
use std::alloc::{AllocError, Global};
use std::marker::Model;

/// The most rows.
const MOST: usize = 16384;

/// The number of buckets.
const BUCKETS: usize = 32768;

/// The bucket of a row: the upper bits of its hash.
fn bucket_number(row: &[u64]) -> usize
    ensures value { result ≡ bucket_of row.now }
    ensures within { result < 32768 }
{
    (hash_of(row) >> 49) as usize
}

/// Rows of words, numbered from 0 in the order in which they came, each of which is there once.
/// Contracts see the list of the rows. Rows in one bucket of a hash table are linked, the newest
/// first, and whole rows are compared.
#[derive(Drop)]
pub struct NumberedRows {
    rows: Vec<Vec<u64>>,
    /// For each bucket the number of its newest row plus 1, and 0 where it has none.
    newest: Vec<u16>,
    /// For each row the number plus 1 of the newest older one in its bucket, or 0.
    older: Vec<u16>,
}

impl Model for NumberedRows {
    ghost use Rattle.std.specs.Prelude.{List, ℕ, map};
    ghost use Rattle.rbbi_bits.specs.inner.Index.{IsIndexed};

    ghost Value = { List (List ℕ) };

    ghost view = { λ numbered. map (λ row. row.items) numbered.rows.items };

    ghost invariant = { λ numbered. IsIndexed (map (λ row. row.items) numbered.rows.items)
        numbered.newest.items numbered.older.items };
}

impl NumberedRows {
    /// No rows.
    pub fn new(alloc: Global) -> Result<NumberedRows, AllocError>
        ensures { IfOk result (λ rows. rows ≡ []) }
    {
        let newest = vec![in alloc; 0; BUCKETS]?;
        let older = vec![in alloc; 0; MOST]?;
        Ok(NumberedRows {
            rows: Vec::new(alloc),
            newest,
            older,
        })
    }

    /// How many rows there are.
    pub fn len(&self) -> usize
        ensures value { result ≡ length self.now }
        ensures few { result ≤ 16384 }
    {
        self.rows.len()
    }

    /// The row with this number.
    pub fn get(&self, i: usize) -> &[u64]
        requires { i < length self.now }
        ensures { result.now ≡ listed_row self.now i }
    {
        &self.rows[i]
    }

    /// The number of the row, if it is there.
    fn find(&self, row: &[u64], bucket: usize) -> Option<usize>
        requires value { bucket ≡ bucket_of row.now }
        requires within { bucket < 32768 }
        ensures found { IfSome result (λ i.
            (i < length self.now) × (listed_row self.now i ≡ row.now)) }
        ensures absent { IsNone result → IsUnlisted self.now row.now }
    {
        let mut at = self.newest[bucket] as usize;
        while at > 0 {
            if self.rows[at - 1].as_slice() == row {
                return Some(at - 1);
            }
            at = self.older[at - 1] as usize;
        }
        None
    }

    /// The number of the row, which is added if it isn't there yet. Answers None if it isn't and
    /// 16,384 others are.
    pub fn number_of(&mut self, alloc: Global, row: &[u64]) -> Result<Option<usize>, AllocError>
        ensures number { IfOk result (λ found. IfSome found (λ i.
            (i < 16384) × (i < length self.new) × (listed_row self.new i ≡ row.now))) }
        ensures full { result ≡ Ok None → (length self.new ≡ 16384) × IsUnlisted self.new row.now }
        ensures rows { KeepsOrAdds self.old row.now self.new }
    {
        let bucket = bucket_number(row);
        if let Some(number) = self.find(row, bucket) {
            return Ok(Some(number));
        }
        let number = self.rows.len();
        if number == MOST {
            return Ok(None);
        }
        self.rows.push(row.to_vec(alloc)?)?;
        self.older[number] = self.newest[bucket];
        self.newest[bucket] = (number + 1) as u16;
        Ok(Some(number))
    }
}
