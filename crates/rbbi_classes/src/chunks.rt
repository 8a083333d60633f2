//! Words that stand in chunks, one after another.
ghost use Rattle.std.specs.Prelude.{◌≡◌, ◌+◌, ◌^◌, ◌<◌, ◌≤◌, ℕ, length, slice_index};
ghost use Rattle.std.specs.List.{flat_map};
ghost use Rattle.std.specs.Rc.{rc_slice_items};

use std::rc::RcSlice;

/// A piece of what lies outside of the words.
const ZEROS: [u64; 64] = [0; 64];

/// Some words that are 0, at most so many.
pub(crate) fn zeros(most: usize) -> &'static [u64]
    requires { 0 < most }
    ensures some { 0 < length result.now }
    ensures most { length result.now ≤ most }
    ensures zero { (k : ℕ) → slice_index result.now k ≡ 0 }
{
    &ZEROS[..most.min(64)]
}

/// The words from a place on, or some that are 0 if there are none.
pub(crate) fn rest_of(words: &[u64], place: usize) -> &[u64]
    ensures some { 0 < length result.now }
    ensures words { (k : ℕ) → k < length result.now
        → slice_index result.now k ≡ slice_index words.now (place + k) }
{
    if place < words.len() {
        &words[place..]
    } else {
        zeros(64)
    }
}

/// How many words there are.
pub(crate) fn words_in(chunks: &[RcSlice<u64>]) -> usize
    requires { length (flat_map rc_slice_items chunks.now) ≤ 2 ^ 58 }
    ensures { result ≡ length (flat_map rc_slice_items chunks.now) }
{
    let mut count = 0;
    for chunk in chunks {
        count += chunk.len();
    }
    count
}

/// The words from a place on in the chunk that has this place, or some that are 0 if none has it.
pub(crate) fn rest_of_chunk(chunks: &[RcSlice<u64>], place: usize) -> &[u64]
    ensures some { 0 < length result.now }
    ensures words { (k : ℕ) → k < length result.now → slice_index result.now k
        ≡ slice_index (flat_map rc_slice_items chunks.now) (place + k) }
{
    let mut left = place;
    for chunk in chunks {
        let words = chunk.as_slice();
        if left < words.len() {
            return &words[left..];
        }
        left -= words.len();
    }
    zeros(64)
}
