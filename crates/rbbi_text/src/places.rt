//! Where pieces start, and in which a place is.
ghost use Rattle.std.specs.Prelude.{◌≡◌, ◌-◌, ◌+◌, ◌/◌, ◌^◌, ◌<◌, ◌≤◌, ◌++◌, ℕ, length, take, drop};
ghost use Rattle.std.specs.Prelude.{min, slice_index, IfOk, OnOk};
ghost use Rattle.rbbi_model.specs.Spelling.{joined};
ghost use Rattle.rbbi_text.specs.Cuts.{starts_from};
ghost use Rattle.rbbi_text.specs.Excerpts.{IsExcerptOf};
ghost use Rattle.rbbi_text.specs.inner.Cuts.{shifted, IsIn, IsFound, AreWholeCut};

use crate::Excerpt;
use crate::piece::{FULL, Piece};
use std::alloc::AllocError;

/// The number of the piece that a place is in: mostly where it would be if all were full.
#[inline(always)]
pub(crate) fn find(starts: &[u32], place: usize) -> usize
    requires some { 0 < length starts.now }
    requires full { slice_index starts.now (min (place / 1024) (length starts.now - 1)) ≤ place }
    ensures { IsIn starts.now result place }
{
    let guess = (place / FULL).min(starts.len() - 1);
    if guess + 1 >= starts.len() || starts[guess + 1] as usize > place {
        return guess;
    }
    find_from(starts, guess, place)
}

/// The number of the piece that a place is in, from this one on: by steps of twice as many each
/// time until it is past the place, and then by halving what lies between.
#[inline(never)]
fn find_from(starts: &[u32], from: usize, place: usize) -> usize
    requires within { from < length starts.now }
    requires begins { slice_index starts.now from ≤ place }
    ensures { IsIn starts.now result place }
{
    let mut low = from;
    let mut step = 1;
    while step < starts.len() - low && starts[low + step] as usize <= place {
        low += step;
        step = step.saturating_mul(2);
    }
    let mut high = low + step.min(starts.len() - low);
    while high - low > 1 {
        let middle = low + (high - low) / 2;
        if starts[middle] as usize <= place {
            low = middle;
        } else {
            high = middle;
        }
    }
    low
}

/// Adds where pieces start, the first of them at `start`, and gives where the last ends.
pub(crate) fn push_starts(
    starts: &mut Vec<u32>,
    start: u32,
    pieces: &[Piece],
) -> Result<u32, AllocError>
    requires { start + length (joined pieces.now) < 2 ^ 32 }
    ensures starts { OnOk result
        (starts.new.items ≡ starts.old.items ++ starts_from start pieces.now) }
    ensures end { IfOk result (λ end. end ≡ start + length (joined pieces.now)) }
{
    let mut start = start;
    for piece in pieces {
        starts.push(start)?;
        start += piece.len() as u32;
    }
    Ok(start)
}

/// Moves the starts from a number on, which lie after an edit.
pub(crate) fn shift(starts: &mut Vec<u32>, from: usize, removed: u32, added: u32)
    requires from { from ≤ length starts.old.items }
    requires behind { (k : ℕ) → from ≤ k → k < length starts.old.items
        → removed ≤ slice_index starts.old.items k }
    requires small { (k : ℕ) → from ≤ k → k < length starts.old.items
        → slice_index starts.old.items k + added < 2 ^ 32 }
    ensures { starts.new.items
        ≡ take from starts.old.items ++ shifted removed added (drop from starts.old.items) }
{
    if removed == added {
        return;
    }
    let moved = starts.as_mut_slice();
    for k in from..moved.len() {
        moved[k] = moved[k] - removed + added;
    }
}

/// What is found of a place: the number of the piece that it is in.
#[inline(always)]
pub(crate) fn locate(pieces: &[Piece], starts: &[u32], place: usize) -> usize
    requires cut { AreWholeCut pieces.now starts.now }
    requires inside { place ≤ length (joined pieces.now) }
    ensures { IsFound pieces.now starts.now result place }
{
    let _pieces = pieces;
    find(starts, place)
}

/// The character at a place.
#[inline(always)]
pub(crate) fn character(pieces: &[Piece], starts: &[u32], place: usize) -> char
    requires cut { AreWholeCut pieces.now starts.now }
    requires inside { place < length (joined pieces.now) }
    ensures { result ≡ slice_index (joined pieces.now) place }
{
    let piece = locate(pieces, starts, place);
    let start = starts[piece] as usize;
    pieces[piece].get(place - start)
}

/// The piece that a place is in.
pub(crate) fn piece_around<'a>(pieces: &'a [Piece], starts: &[u32], place: usize) -> Excerpt<'a>
    requires cut { AreWholeCut pieces.now starts.now }
    requires inside { place ≤ length (joined pieces.now) }
    ensures { IsExcerptOf (joined pieces.now) result }
{
    let number = locate(pieces, starts, place);
    Excerpt {
        from: starts[number],
        items: pieces[number].as_slice(),
    }
}
