//! The rows of a table with no look-ahead rules in 16-bit numbers, as a search reads them.
ghost use Rattle.std.specs.Prelude.{◌≡◌, ℕ, ◌+◌, ◌*◌, ◌/◌, ◌^◌, ◌<◌, ◌≤◌, ◌⊎◌, [], length};
ghost use Rattle.std.specs.Prelude.{slice_index, IfOk};
ghost use Rattle.rbbi_table.specs.Parts.{rows_of, AreNextRows};
ghost use Rattle.rbbi_table.specs.Blocks.{in_block};
ghost use Rattle.rbbi_table.specs.Kinds.{AreKinds};
ghost use Rattle.rbbi_table.specs.Short.{AreShortMoves, AreNear};

use crate::blocks::BLOCK;
use crate::kinds::write_kinds;
use crate::{Blocks, RowHead};
use std::alloc::{AllocError, Global};

/// The most numbers that the rows of a table may take.
const MOST_NUMBERS: usize = 65536;

/// The most categories.
const MOST_CATEGORIES: usize = 256;

/// How many code points' categories are kept by themselves: those of the first two planes.
const NEAR: usize = 0x2_0000;

/// What is kept beside a table with no look-ahead rules, if it isn't too large.
#[derive(Drop)]
pub(crate) struct Short {
    /// Row by row the list and the moves, or nothing, as `short_of` says.
    pub(crate) moves: Vec<u16>,
    /// The categories of the first code points.
    pub(crate) near: Vec<u8>,
    /// Where row 1 begins.
    pub(crate) start: usize,
}

/// How many numbers a row takes: its list and a move for each category, up to a multiple of 4.
fn short_stride(width: usize) -> usize
    requires { width < 65536 }
    ensures { result ≡ (width + 4) / 4 * 4 }
{
    (width + 4) / 4 * 4
}

/// Writes a row from its place on: its list, and for each category a move of its kind.
fn write_row(moves: &mut [u16], place: usize, stride: usize, list: u16, steps: &[u16], kinds: &[u8])
    requires all { length kinds.now ≡ length steps.now }
    requires within { place + length steps.now < length moves.old }
    requires small { length moves.old ≤ 65536 }
    requires fit { (k : ℕ) → k < length steps.now
        → slice_index steps.now k * stride + slice_index kinds.now k < 65536 }
    ensures list { slice_index moves.new place ≡ list }
    ensures each { (k : ℕ) → k < length steps.now → slice_index moves.new (place + k + 1)
        ≡ slice_index steps.now k * stride + slice_index kinds.now k }
    ensures others { (i : ℕ) → (i < place) ⊎ (place + length steps.now < i)
        → slice_index moves.new i ≡ slice_index moves.old i }
{
    moves[place] = list;
    for k in 0..steps.len() {
        moves[place + k + 1] = (steps[k] as usize * stride + kinds[k] as usize) as u16;
    }
}

/// Writes all rows, one after the other. `kinds` is room for the kinds of a row's moves.
fn write_rows(
    moves: &mut [u16],
    kinds: &mut [u8],
    stride: usize,
    width: usize,
    rows: &[RowHead],
    cells: &[u16],
)
    requires next { AreNextRows width rows.now cells.now }
    requires stride { stride ≡ (width + 4) / 4 * 4 }
    requires all { length moves.old ≡ length rows.now * stride }
    requires kinds { length kinds.old ≡ width }
    requires small { length moves.old ≤ 65536 }
    ensures { AreShortMoves (rows_of width rows.now cells.now []) moves.new }
{
    for row in 0..rows.len() {
        write_kinds(rows, cells, width, row, kinds);
        let steps = &cells[row * width..row * width + width];
        let head = &rows[row];
        write_row(moves, row * stride, stride, head.list, steps, kinds);
    }
}

/// The moves of all rows.
fn moves_of(
    alloc: Global,
    width: usize,
    rows: &[RowHead],
    cells: &[u16],
) -> Result<Vec<u16>, AllocError>
    requires next { AreNextRows width rows.now cells.now }
    requires few { width < 65536 }
    requires small { length rows.now * ((width + 4) / 4 * 4) ≤ 65536 }
    ensures { IfOk result (λ moves.
        AreShortMoves (rows_of width rows.now cells.now []) moves.items) }
{
    let stride = short_stride(width);
    let mut kinds = vec![in alloc; 0; width]?;
    let mut moves = vec![in alloc; 0; rows.len() * stride]?;
    write_rows(&mut moves, &mut kinds, stride, width, rows, cells);
    Ok(moves)
}

/// The categories of the blocks that are kept, in bytes.
fn bytes_of(alloc: Global, categories: &[u16]) -> Result<Vec<u8>, AllocError>
    ensures len { IfOk result (λ bytes. length bytes.items ≡ length categories.now) }
    ensures same { IfOk result (λ bytes. (k : ℕ) → k < length categories.now
        → slice_index categories.now k < 256
        → slice_index bytes.items k ≡ slice_index categories.now k) }
{
    let mut bytes = Vec::with_capacity(alloc, categories.len())?;
    for category in categories {
        bytes.push((*category % 256) as u8)?;
    }
    Ok(bytes)
}

/// The categories of the first code points, block by block.
fn near_of(alloc: Global, blocks: &Blocks) -> Result<Vec<u8>, AllocError>
    requires all { length blocks.now.numbers.items ≡ 4352 }
    requires whole { (block : ℕ) → block < 4352
        → slice_index blocks.now.numbers.items block * 256 + 256
        ≤ length blocks.now.categories.items }
    requires small { (c : ℕ) → c < 131072
        → in_block blocks.now.numbers.items blocks.now.categories.items c < 256 }
    ensures { IfOk result (λ near.
        AreNear blocks.now.numbers.items blocks.now.categories.items near.items) }
{
    let bytes = bytes_of(alloc, &blocks.categories)?;
    let mut near = Vec::with_capacity(alloc, NEAR)?;
    for number in 0..NEAR / BLOCK {
        let first = blocks.numbers[number] as usize * BLOCK;
        near.extend_from_slice(&bytes[first..first + BLOCK])?;
    }
    Ok(near)
}

/// The short moves of these rows, or none with look-ahead rules, or too many numbers or categories.
pub(crate) fn short_of(
    alloc: Global,
    slashes: u16,
    categories: u16,
    rows: &[RowHead],
    cells: &[u16],
    blocks: &Blocks,
) -> Result<Short, AllocError>
    requires next { AreNextRows categories rows.now cells.now }
    requires few { length rows.now ≤ 4095 }
    requires all { length blocks.now.numbers.items ≡ 4352 }
    requires whole { (block : ℕ) → block < 4352
        → slice_index blocks.now.numbers.items block * 256 + 256
        ≤ length blocks.now.categories.items }
    requires within { (c : ℕ) → c < 131072
        → in_block blocks.now.numbers.items blocks.now.categories.items c < categories }
    ensures moves { IfOk result (λ short. 0 < length short.moves.items → (slashes ≡ 0)
        × AreShortMoves (rows_of categories rows.now cells.now []) short.moves.items) }
    ensures near { IfOk result (λ short.
        AreNear blocks.now.numbers.items blocks.now.categories.items short.near.items) }
    ensures start { IfOk result (λ short. short.start ≡ (categories + 4) / 4 * 4) }
{
    let width = categories as usize;
    let start = short_stride(width);
    if slashes != 0 || width > MOST_CATEGORIES || rows.len() * start > MOST_NUMBERS {
        return Ok(Short {
            moves: Vec::new(alloc),
            near: Vec::new(alloc),
            start,
        });
    }
    let moves = moves_of(alloc, width, rows, cells)?;
    let near = near_of(alloc, blocks)?;
    Ok(Short { moves, near, start })
}
