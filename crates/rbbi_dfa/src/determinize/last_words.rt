//! What may follow a set of positions, with a cache for each word of a set: sets that come one
//! after another have most words in common.
ghost use Rattle.std.specs.Prelude.{◌≡◌, ◌<◌, ◌↔◌, ℕ, length, slice_index, IfOk, OnOk};
ghost use Rattle.rbbi_bits.specs.BitRows.{Holds};
ghost use Rattle.rbbi_dfa.specs.inner.Determinizing.{AreFollowers};
ghost use Rattle.rbbi_dfa.specs.inner.LastWords.{AddsFollowers, AreKept, FollowsWord};

use crate::determinize::position_rows::Rows;
use crate::determinize::spanned::SpannedRow;
use rbbi_bits::is_set;
use std::alloc::{AllocError, Global};

/// A cache: for each word of a set the value that it had last, and the positions that may follow
/// those of this value.
#[derive(Drop)]
pub(crate) struct LastWords {
    words: Vec<u64>,
    unions: Vec<SpannedRow>,
}

/// Adds the positions that may follow those of word `i` of a set.
fn follow_word(rows: &Rows, i: usize, word: u64, next: &mut [u64])
    requires wide { length next.old ≡ rows.now.width }
    requires within { i < rows.now.width }
    ensures { AddsFollowers rows.now.follow i word 64 next.old next.new }
{
    for bit in 0..64 {
        let position = 64 * i + bit;
        if position < rows.follow.len() && is_set(word, bit) {
            rows.follow[position].add_to(next);
        }
    }
}

/// The positions that may follow those of word `i` of a set.
fn union_of(alloc: Global, rows: &Rows, i: usize, word: u64) -> Result<SpannedRow, AllocError>
    requires { i < rows.now.width }
    ensures wide { IfOk result (λ union. length union ≡ rows.now.width) }
    ensures next { IfOk result (λ union. (next : ℕ) →
        Holds union next ↔ FollowsWord rows.now.follow i word next) }
{
    let mut next: Vec<u64> = vec![in alloc; 0; rows.width]?;
    follow_word(rows, i, word, next.as_mut_slice());
    Ok(SpannedRow::new(next))
}

impl LastWords {
    /// The cache of the empty set, which nothing follows.
    pub fn new(alloc: Global, rows: &Rows) -> Result<LastWords, AllocError>
        ensures { IfOk result (λ last. AreKept rows.now last.words.items last.unions.items) }
    {
        let words: Vec<u64> = vec![in alloc; 0; rows.width]?;
        let mut unions = Vec::new(alloc);
        for i in 0..rows.width {
            unions.push(union_of(alloc, rows, i, 0)?)?;
        }
        Ok(LastWords { words, unions })
    }

    /// Sees to it that the cache has this value of a word of the set.
    fn update(&mut self, alloc: Global, rows: &Rows, i: usize, word: u64) -> Result<(), AllocError>
        requires kept { AreKept rows.now self.old.words.items self.old.unions.items }
        requires within { i < rows.now.width }
        ensures kept { OnOk result (AreKept rows.now self.new.words.items self.new.unions.items) }
        ensures word { OnOk result (slice_index self.new.words.items i ≡ word) }
    {
        if self.words[i] != word {
            let union = union_of(alloc, rows, i, word)?;
            self.unions[i] = union;
            self.words[i] = word;
        }
        Ok(())
    }

    /// Makes `candidates` the positions that may follow one of the set.
    pub fn follow(
        &mut self,
        alloc: Global,
        rows: &Rows,
        set: &[u64],
        candidates: &mut [u64],
    ) -> Result<(), AllocError>
        requires kept { AreKept rows.now self.old.words.items self.old.unions.items }
        requires set { length set.now ≡ rows.now.width }
        requires candidates { length candidates.old ≡ rows.now.width }
        ensures kept { OnOk result (AreKept rows.now self.new.words.items self.new.unions.items) }
        ensures followers { OnOk result (AreFollowers rows.now set.now candidates.new) }
    {
        candidates.fill(0);
        for i in 0..set.len() {
            self.update(alloc, rows, i, set[i])?;
            self.unions[i].add_to(candidates);
        }
        Ok(())
    }
}
