//! One search in a table with no look-ahead rules.
//!
//! A row's numbers are its list and, after it, a move for each category. A move is the place at
//! which the next row begins, which is a multiple of 4, and more by its kind (`kinds.rt`), 0 to 3.
//! Kinds 2 and 3 have the upper bit of the two. While moves have the kinds 0 and 1, a search goes
//! on over rows at which a rule ends and that are alike, so each move is looked up in the row at
//! which that stretch began, and no look-up waits for the one before.
ghost use Rattle.std.specs.Prelude.{◌≡◌, ℕ, ◌+◌, ◌-◌, ◌*◌, ◌<◌, ◌≤◌, length, slice_index, min};
ghost use Rattle.rbbi_model.specs.Searches.{found, look_end, row_at};
ghost use Rattle.rbbi_table.specs.Parts.{table_of};
ghost use Rattle.rbbi_table.specs.Blocks.{in_block};
ghost use Rattle.rbbi_table.specs.Short.{IsShortKept, AreNear, short_stride};
ghost use Rattle.rbbi_table.specs.inner.Searching.{IsOnward, IsMoveTo};

use crate::blocks::look_up;
use crate::search::longest;
use crate::{Found, Parts};
use rbbi_text::{Chars, Steps};
use std::sync::ledger::Ledger;

/// How many kinds of moves there are.
pub(crate) const KINDS: u16 = 4;

/// The kind of a move to a row at which no rule ends, as `kinds::OTHER`.
pub(crate) const OTHER: u16 = 3;

/// The move to row 0, at which a search ends: its place is 0.
pub(crate) const STOP: u16 = OTHER;

/// The place of a character's move after the beginning of a row.
#[inline(always)]
pub(crate) fn place_of(near: &[u8], numbers: &[u16], kept: &[u16], c: char) -> usize
    requires near { AreNear numbers.now kept.now near.now }
    requires all { length numbers.now ≡ 4352 }
    requires whole { (block : ℕ) → block < 4352 →
        slice_index numbers.now block * 256 + 256 ≤ length kept.now }
    ensures { result ≡ in_block numbers.now kept.now c + 1 }
{
    let i = c as usize;
    if i < near.len() {
        return near[i] as usize + 1;
    }
    look_up(numbers, kept, c) as usize + 1
}

/// How far a search went on over rows at which a rule ends: the last place, where its row begins,
/// and the move from there. There is none at the text's end.
#[derive(Clone, Copy)]
struct Stretch {
    end: u32,
    row: usize,
    next: u16,
}

/// Goes on from a place at which a rule ends, as long as moves lead to rows that are like the row
/// there, or the text ends. So the place of a move doesn't depend on the move before it.
#[inline(always)]
fn stretch_from<T: Chars, L: Ledger>(
    parts: &Parts,
    numbers: &[u16],
    kept: &[u16],
    near: &[u8],
    moves: &[u16],
    text: &T,
    s: u32,
    at: u32,
    base: usize,
    steps: &mut Steps<L>,
) -> Stretch
    requires kept { IsShortKept (table_of parts.now) numbers.now kept.now moves.now near.now }
    requires onward { IsOnward (table_of parts.now) (T.characters text.now) s at }
    requires base { base ≡ row_at (table_of parts.now) (T.characters text.now) s at
        * short_stride (table_of parts.now) }
    ensures onward { IsOnward (table_of parts.now) (T.characters text.now) s result.end }
    ensures row { result.row ≡ row_at (table_of parts.now) (T.characters text.now) s result.end
        * short_stride (table_of parts.now) }
    ensures further { at ≤ result.end }
    ensures next { result.end < length (T.characters text.now)
        → IsMoveTo (table_of parts.now) (T.characters text.now) s (result.end + 1) result.next }
    ensures read { steps.new
        ≡ steps.old + (min (result.end + 1) (length (T.characters text.now)) - at) }
{
    let (_parts, _start) = (parts, s);
    let len = text.len();
    let mut end = at;
    let mut row = base;
    while end < len {
        let place = place_of(near, numbers, kept, text.char_at(end, steps));
        let next = moves[base + place];
        // The kind is 2 or 3: the row's own move counts.
        if next / 2 % 2 == 1 {
            let next = moves[row + place];
            return Stretch { end, row, next };
        }
        end += 1;
        row = if next % 2 == 1 { row } else { next as usize };
    }
    Stretch { end, row, next: 0 }
}

/// The search of `Table::next` in a table with no look-ahead rules.
#[inline(always)]
pub(crate) fn short_search<T: Chars, L: Ledger>(
    parts: &Parts,
    numbers: &[u16],
    kept: &[u16],
    near: &[u8],
    moves: &[u16],
    start: usize,
    text: &T,
    s: u32,
    steps: &mut Steps<L>,
) -> Found
    requires kept { IsShortKept (table_of parts.now) numbers.now kept.now moves.now near.now }
    requires start { start ≡ short_stride (table_of parts.now) }
    requires within { s < length (T.characters text.now) }
    ensures at { result.at ≡ (found (table_of parts.now) (T.characters text.now) s).at }
    ensures status { result.status ≡ (found (table_of parts.now) (T.characters text.now) s).list }
    ensures look { result.look ≡ look_end (table_of parts.now) (T.characters text.now) s }
    ensures read { steps.new ≡ steps.old + (min (look_end (table_of parts.now)
        (T.characters text.now) s) (length (T.characters text.now)) - s) }
{
    let len = text.len();
    let mut next = moves[start + place_of(near, numbers, kept, text.char_at(s, steps))];
    let mut at = s + 1;
    let mut end = s;
    let mut end_row = 0;
    'reading: loop {
        if next % KINDS != OTHER {
            let row = (next / KINDS * KINDS) as usize;
            let over = stretch_from(parts, numbers, kept, near, moves, text, s, at, row, steps);
            end = over.end;
            end_row = over.row;
            if end == len {
                let status = moves[end_row];
                return Found {
                    at: end,
                    status,
                    look: len + 1,
                };
            }
            next = over.next;
            at = end + 1;
            if next == STOP {
                let status = moves[end_row];
                return Found {
                    at: end,
                    status,
                    look: at,
                };
            }
        } else {
            if next == STOP {
                return longest(s, end, moves[end_row], at);
            }
            if at == len {
                return longest(s, end, moves[end_row], len + 1);
            }
            let row = (next / KINDS * KINDS) as usize;
            next = moves[row + place_of(near, numbers, kept, text.char_at(at, steps))];
            at += 1;
        }
    }
}
