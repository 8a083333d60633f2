//! The look-up of a code point's category in two steps.
ghost use Rattle.std.specs.Prelude.{◌≡◌, ℕ, ◌+◌, ◌*◌, ◌^◌, ◌<◌, ◌≤◌, List, length, take};
ghost use Rattle.std.specs.Prelude.{slice_index, slice_range, IfOk, IfSome, OnOk, IsTrue};
ghost use Rattle.rbbi_model.specs.Tables.{CategoryRange, category_of};
ghost use Rattle.rbbi_model.specs.ValidTables.{StartsAtZero, AreApart};
ghost use Rattle.rbbi_table.specs.inner.Ranges.{start_of, IsUpTo, HoldsCodePoint};
ghost use Rattle.rbbi_table.specs.Blocks.{AreBlocks, in_block};

use crate::RangeRow;
use crate::limits::LAST_CODE_POINT;
use std::alloc::{AllocError, Global};

/// How many code points a block has.
pub(crate) const BLOCK: usize = 256;

/// How many blocks the code points have.
const BLOCKS: usize = (LAST_CODE_POINT as usize + 1) / BLOCK;

/// The categories of all code points, in blocks of 256. Equal blocks are kept once.
#[derive(Drop)]
pub struct Blocks {
    /// For each block of code points, its number among the blocks that are kept.
    pub numbers: Vec<u16>,
    /// The categories of the blocks that are kept, 256 after 256.
    pub categories: Vec<u16>,
}

/// The range that holds the code point, if `range` holds the one before it.
fn holder_of(ranges: &[RangeRow], range: usize, c: usize) -> usize
    requires apart { AreApart ranges.now }
    requires from { IsUpTo ranges.now range c }
    ensures { HoldsCodePoint ranges.now result c }
{
    if range + 1 < ranges.len() {
        let next = ranges[range + 1];
        if next.start as usize <= c {
            return range + 1;
        }
    }
    range
}

/// Writes the categories of the block that begins at `first`. `range` is the number of the range
/// that holds the code point before it, or 0; the result is that of the block's last one.
fn fill(ranges: &[RangeRow], range: usize, first: usize, block: &mut [u16]) -> usize
    requires zero { StartsAtZero ranges.now }
    requires apart { AreApart ranges.now }
    requires from { IsUpTo ranges.now range first }
    requires small { first + length block.old < 2 ^ 32 }
    ensures block { (k : ℕ) → k < length block.old → slice_index block.new k
        ≡ category_of ranges.now (first + k) }
    ensures up_to { IsUpTo ranges.now result (first + length block.old) }
{
    let mut range = range;
    for offset in 0..block.len() {
        range = holder_of(ranges, range, first + offset);
        let holder = ranges[range];
        block[offset] = holder.cat;
    }
    range
}

/// A number that equal blocks share, and different ones seldom do.
fn sum_of(block: &[u16]) -> u64 {
    let mut sum: u64 = 0;
    for category in block {
        sum = sum
            .wrapping_mul(0x9E37_79B9_7F4A_7C15)
            .wrapping_add(u64::from(*category) + 1);
    }
    sum
}

/// The number of a kept block with the same categories.
fn find(kept: &[u16], sums: &[u64], sum: u64, block: &[u16]) -> Option<usize>
    requires { length sums.now * 256 ≡ length kept.now }
    ensures { IfSome result (λ number. (number < length sums.now)
        × (slice_range kept.now (number * 256) (number * 256 + 256) ≡ block.now)) }
{
    for number in 0..sums.len() {
        if sums[number] == sum {
            let start = number * BLOCK;
            if &kept[start..start + BLOCK] == block {
                return Some(number);
            }
        }
    }
    None
}

/// The number of the block among those that are kept. It is added if none has its categories.
fn keep(kept: &mut Vec<u16>, sums: &mut Vec<u64>, block: &[u16]) -> Result<u16, AllocError>
    requires sums { length sums.old.items * 256 ≡ length kept.old.items }
    requires few { length sums.old.items < 2 ^ 16 }
    requires block { length block.now ≡ 256 }
    ensures sums { OnOk result (length sums.new.items * 256 ≡ length kept.new.items) }
    ensures one { OnOk result (length sums.new.items ≤ length sums.old.items + 1) }
    ensures before { OnOk result (take (length kept.old.items) kept.new.items ≡ kept.old.items) }
    ensures kept { IfOk result (λ number. (number * 256 + 256 ≤ length kept.new.items)
        × (slice_range kept.new.items (number * 256) (number * 256 + 256) ≡ block.now)) }
{
    let sum = sum_of(block);
    if let Some(number) = find(kept, sums, sum, block) {
        return Ok(number as u16);
    }
    let number = sums.len() as u16;
    kept.extend_from_slice(block)?;
    sums.push(sum)?;
    Ok(number)
}

/// Whether the range holds both the block before `first` and the one that begins there.
fn holds_blocks(ranges: &[RangeRow], range: usize, first: usize) -> bool
    requires up_to { IsUpTo ranges.now range first }
    requires small { first < 2 ^ 32 }
    ensures begins { IsTrue result → start_of ranges.now range + 256 ≤ first }
    ensures up_to { IsTrue result → IsUpTo ranges.now range (first + 256) }
{
    let holder = ranges[range];
    if holder.start as usize + BLOCK > first {
        return false;
    }
    if range + 1 == ranges.len() {
        return true;
    }
    let next = ranges[range + 1];
    next.start as usize >= first + BLOCK
}

impl Blocks {
    /// The blocks of these ranges. A block that lies in one range with the block before it has that
    /// block's number, in one step; only the others are filled, and compared with those kept.
    pub fn new(alloc: Global, ranges: &[RangeRow]) -> Result<Blocks, AllocError>
        requires some { 1 ≤ length ranges.now }
        requires zero { StartsAtZero ranges.now }
        requires apart { AreApart ranges.now }
        ensures { IfOk result (λ blocks.
            AreBlocks ranges.now blocks.numbers.items blocks.categories.items) }
    {
        let mut numbers: Vec<u16> = Vec::with_capacity(alloc, BLOCKS)?;
        let mut kept = Vec::new(alloc);
        let mut sums = Vec::new(alloc);
        let mut block = [0; BLOCK];
        let mut range = 0;
        for number in 0..BLOCKS {
            let first = number * BLOCK;
            if number > 0 && holds_blocks(ranges, range, first) {
                let same = numbers[number - 1];
                numbers.push(same)?;
                continue;
            }
            range = fill(ranges, range, first, &mut block);
            let kept_number = keep(&mut kept, &mut sums, &block)?;
            numbers.push(kept_number)?;
        }
        Ok(Blocks {
            numbers,
            categories: kept,
        })
    }

    /// The category that the ranges of these blocks give a character.
    pub fn category(&self, c: char) -> u16
        requires { (ranges : List CategoryRange)
            × AreBlocks ranges self.now.numbers.items self.now.categories.items }
        ensures { (ranges : List CategoryRange) →
            AreBlocks ranges self.now.numbers.items self.now.categories.items →
            result ≡ category_of ranges c }
    {
        look_up(&self.numbers, &self.categories, c)
    }
}

/// The category of a code point: its block's number, then its place in the block.
pub(crate) fn look_up(numbers: &[u16], kept: &[u16], c: char) -> u16
    requires all { length numbers.now ≡ 4352 }
    requires whole { (block : ℕ) → block < 4352 →
        slice_index numbers.now block * 256 + 256 ≤ length kept.now }
    ensures { result ≡ in_block numbers.now kept.now c }
{
    let c = c as usize;
    kept[numbers[c / BLOCK] as usize * BLOCK + c % BLOCK]
}
