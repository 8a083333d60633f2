//! The safe pairs of categories: after both, it no longer matters in which row a search was.
ghost use Rattle.std.specs.Prelude.{◌≡◌, ℕ, ◌↔◌, ◌+◌, ◌*◌, ◌/◌, ◌^◌, ◌<◌, ◌≤◌, [], length};
ghost use Rattle.std.specs.Prelude.{IfOk, OnOk, IsTrue, false, slice_index, slice_index_or};
ghost use Rattle.std.specs.Prelude.{◌&&◌, ◌||◌, ◌==◌};
ghost use Rattle.rbbi_model.specs.SafePairs.{stored_bit};
ghost use Rattle.rbbi_model.specs.ValidTables.{AreValidRows, AreValidSafePairs};
ghost use Rattle.rbbi_table.specs.Parts.{table_of, rows_of, AreNextRows, HasFittingParts};
ghost use Rattle.rbbi_table.specs.inner.Targets.{AreTargets, LeadToOne, AreFirstPairs};
ghost use Rattle.rbbi_table.specs.Pairs.{ArePairsOf};

use crate::bits::store;
use crate::gather::add_target;
use crate::{ByteList, Parts, RowHead};
use std::alloc::{AllocError, Global};

/// Gathers the distinct rows that open rows lead to by one category.
fn gather_targets(
    alloc: Global,
    rows: &[RowHead],
    cells: &[u16],
    width: usize,
    category: usize,
    targets: &mut Vec<u16>,
) -> Result<(), AllocError>
    requires steps { AreNextRows width rows.now cells.now }
    requires few { length rows.now < 2 ^ 16 }
    requires category { category < width }
    ensures { OnOk result
        (AreTargets (rows_of width rows.now cells.now []) category targets.new.items) }
{
    let mut seen = vec![in alloc; false; rows.len()]?;
    targets.clear();
    for row in 1..rows.len() {
        let head = rows[row];
        if head.accept >= 2 {
            continue;
        }
        add_target(&mut seen, targets, cells[row * width + category])?;
    }
    Ok(())
}

/// Keeps of the marked categories those by which two rows lead to one row. The next rows of the two
/// begin at these places, and are read side by side.
fn narrow(marked: &mut [bool], cells: &[u16], one: usize, other: usize)
    requires one { one + length marked.old ≤ length cells.now }
    requires other { other + length marked.old ≤ length cells.now }
    ensures { (k : ℕ) → k < length marked.old → slice_index_or marked.new k false
        ≡ (slice_index_or marked.old k false
        && (slice_index cells.now (one + k) == slice_index cells.now (other + k))) }
{
    for k in 0..marked.len() {
        marked[k] = marked[k] & (cells[one + k] == cells[other + k]);
    }
}

/// For each category whether all of these rows lead by it to one row.
fn lead_to_one(
    alloc: Global,
    cells: &[u16],
    width: usize,
    targets: &[u16],
) -> Result<Vec<bool>, AllocError>
    requires { (i : ℕ) → i < length targets.now →
        slice_index targets.now i * width + width ≤ length cells.now }
    ensures all { IfOk result (λ marked. length marked.items ≡ width) }
    ensures lead { IfOk result (λ marked. (category : ℕ) → category < width →
        IsTrue (slice_index_or marked.items category false)
        ↔ LeadToOne (rows_of width [] cells.now []) category targets.now) }
{
    let mut marked = vec![in alloc; true; width]?;
    if targets.is_empty() {
        return Ok(marked);
    }
    let first = targets[0] as usize * width;
    for target in targets {
        narrow(&mut marked, cells, *target as usize * width, first);
    }
    Ok(marked)
}

/// Sets the bits from a number on that are marked, one for each mark.
fn store_marked(bytes: &mut Vec<u8>, marked: &[bool], start: usize)
    requires room { (start + length marked.now + 7) / 8 ≤ length bytes.old.items }
    requires few { start + length marked.now < 2 ^ 60 }
    ensures before { (i : ℕ) → i < start
        → stored_bit bytes.new.items i ≡ stored_bit bytes.old.items i }
    ensures here { (k : ℕ) → k < length marked.now → stored_bit bytes.new.items (start + k)
        ≡ (slice_index_or marked.now k false || stored_bit bytes.old.items (start + k)) }
    ensures behind { (i : ℕ) → start + length marked.now ≤ i
        → stored_bit bytes.new.items i ≡ stored_bit bytes.old.items i }
    ensures len { length bytes.new.items ≡ length bytes.old.items }
{
    for k in 0..marked.len() {
        if marked[k] {
            store(bytes, start + k);
        }
    }
}

/// Sets the bits of the safe pairs of one first category, for which none is set yet.
fn add_pairs(
    alloc: Global,
    width: usize,
    rows: &[RowHead],
    cells: &[u16],
    first: usize,
    targets: &mut Vec<u16>,
    bytes: &mut Vec<u8>,
) -> Result<(), AllocError>
    requires steps { AreNextRows width rows.now cells.now }
    requires few { length rows.now < 2 ^ 16 }
    requires width { width < 2 ^ 16 }
    requires first { first < width }
    requires room { length bytes.old.items ≡ (width * width + 7) / 8 }
    requires pairs { AreFirstPairs (rows_of width rows.now cells.now []) bytes.old.items
        (first * width) }
    ensures pairs { OnOk result (AreFirstPairs (rows_of width rows.now cells.now [])
        bytes.new.items ((first + 1) * width)) }
    ensures room { OnOk result (length bytes.new.items ≡ length bytes.old.items) }
{
    gather_targets(alloc, rows, cells, width, first, targets)?;
    let marked = lead_to_one(alloc, cells, width, targets)?;
    store_marked(bytes, &marked, first * width);
    Ok(())
}

/// The bytes of the safe pairs of these rows: the pair of `first` and `second` has the bit with the
/// number `first * categories + second`, eight a byte, the one of least value first, and the bits
/// that fill the last byte are 0.
///
/// For each first category it gathers the distinct rows that open rows lead to, and compares their
/// next rows. So its time grows with these and not with ways through the table.
pub fn safe_pairs(
    alloc: Global,
    categories: u16,
    rows: &[RowHead],
    cells: &[u16],
) -> Result<ByteList, AllocError>
    requires steps { AreNextRows categories rows.now cells.now }
    requires few { length rows.now < 2 ^ 16 }
    ensures { IfOk result (λ bytes. ArePairsOf (rows_of categories rows.now cells.now bytes)) }
{
    let width = categories as usize;
    let mut bytes = vec![in alloc; 0u8; (width * width + 7) / 8]?;
    let mut targets = Vec::with_capacity(alloc, rows.len())?;
    for first in 0..width {
        add_pairs(alloc, width, rows, cells, first, &mut targets, &mut bytes)?;
    }
    Ok(ByteList::from_vec(bytes))
}

/// Whether the stored bytes are these.
pub(crate) fn are_same(bytes: &[u8], stored: &[u8]) -> bool
    ensures same { IsTrue result ↔ (bytes.now ≡ stored.now) }
    ensures bytes { (i : ℕ) → slice_index bytes.now i < 256 }
    ensures stored { (i : ℕ) → slice_index stored.now i < 256 }
{
    bytes == stored
}

/// Whether the stored safe pairs are those of the rows.
pub(crate) fn are_paired(alloc: Global, parts: &Parts) -> Result<bool, AllocError>
    requires fitting { HasFittingParts (table_of parts.now) }
    requires some { 1 ≤ parts.now.categories }
    requires rows { AreValidRows (table_of parts.now) }
    ensures { IfOk result (λ paired. IsTrue paired ↔ AreValidSafePairs (table_of parts.now)) }
{
    let rows = parts.rows.as_slice();
    let cells = parts.cells.as_slice();
    let safe = safe_pairs(alloc, parts.categories, rows, cells)?;
    Ok(are_same(safe.as_slice(), parts.safe.as_slice()))
}
