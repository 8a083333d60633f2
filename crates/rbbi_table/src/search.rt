//! One search in a table.
//!
//! There are two loops. This one serves every table: it reads a move of 32 bits for each character,
//! whose bits (`moves.rt`) say whether a rule ends, a front ends, or the search is over. That of
//! `short_search.rt` serves tables with no look-ahead rules: its moves have 16 bits, and it goes on
//! over rows that are alike without a row's place in each step. It is the faster by half or more.
ghost use Rattle.std.specs.Prelude.{◌≡◌, ℕ, ◌+◌, ◌-◌, ◌^◌, ◌<◌, length, min, nat_lt, if◌then◌else◌};
ghost use Rattle.rbbi_model.specs.Searches.{found, look_end};
ghost use Rattle.rbbi_table.specs.Parts.{table_of};
ghost use Rattle.rbbi_table.specs.Kept.{IsKept};

use crate::blocks::look_up;
use crate::front_places::note;
use crate::moves::{ACCEPT, FRONT_ENDS, FRONTS, HEAD, LIST, PLACE, STOPS};
use crate::short_search::short_search;
use crate::{Blocks, FrontPlaces, Parts, Table};
use rbbi_text::{Chars, Steps};
use std::sync::ledger::Ledger;

/// What a search finds.
#[derive(Clone, Copy, PartialEq, Eq)]
pub struct Found {
    /// The next boundary, in characters from 0.
    pub at: u32,
    /// The number of its status list.
    pub status: u16,
    /// The place after the last character read. If the search would have read on at the text's
    /// end, it is the text's length and one more.
    pub look: u32,
}

/// The longest match, or if none was seen, one character with list 0. `end` is the place at which a
/// rule ended last, or `s` if none did.
pub(crate) fn longest(s: u32, end: u32, status: u16, look: u32) -> Found
    requires { s < 2 ^ 31 }
    ensures at { result.at ≡ (if nat_lt s end then end else s + 1) }
    ensures status { result.status ≡ (if nat_lt s end then status else 0) }
    ensures look { result.look ≡ look }
{
    if end > s {
        Found {
            at: end,
            status,
            look,
        }
    } else {
        Found {
            at: s + 1,
            status: 0,
            look,
        }
    }
}

/// The search of `Table::next`, over the lists that it reads.
#[inline(never)]
fn search<T: Chars, L: Ledger>(
    parts: &Parts,
    blocks: &Blocks,
    moves: &[u32],
    text: &T,
    s: u32,
    places: &mut [u32],
    steps: &mut Steps<L>,
) -> Found
    requires kept { IsKept (table_of parts.now) blocks.now.numbers.items
        blocks.now.categories.items moves.now }
    requires within { s < length (T.characters text.now) }
    requires fit { length places.old ≡ parts.now.slashes }
    ensures at { result.at ≡ (found (table_of parts.now) (T.characters text.now) s).at }
    ensures status { result.status ≡ (found (table_of parts.now) (T.characters text.now) s).list }
    ensures look { result.look ≡ look_end (table_of parts.now) (T.characters text.now) s }
    ensures read { steps.new ≡ steps.old + (min (look_end (table_of parts.now)
        (T.characters text.now) s) (length (T.characters text.now)) - s) }
{
    let width = parts.categories as usize;
    let len = text.len();
    let numbers = blocks.numbers.as_slice();
    let kept = blocks.categories.as_slice();
    let mut row = width + HEAD;
    let mut end = s;
    let mut end_row = 0;
    let mut at = s;
    while at < len {
        let category = look_up(numbers, kept, text.char_at(at, steps));
        at += 1;
        let cell = moves[row + category as usize];
        row = (cell / PLACE) as usize;
        // The bit of `ENDS`, which is the lowest.
        if cell % 2 == 1 {
            end = at;
            end_row = row;
        }
        if cell / FRONT_ENDS % 2 == 1 {
            note(places, moves[row + width + FRONTS], at);
        }
        if cell / STOPS % 2 == 1 {
            let accept = moves[row + width + ACCEPT];
            if accept >= 2 {
                return Found {
                    at: places[accept as usize - 2],
                    status: moves[row + width + LIST] as u16,
                    look: at,
                };
            }
            return longest(s, end, moves[end_row + width + LIST] as u16, at);
        }
    }
    longest(s, end, moves[end_row + width + LIST] as u16, len + 1)
}

impl Table {
    /// The next boundary past `s`, in characters from 0, its status list, and how far the search
    /// looked.
    ///
    /// A search reads characters until it is in row 0, a look-ahead rule is completed, or the text
    /// ends. If a look-ahead rule is completed, the boundary is the last place before at which
    /// its front ended. Otherwise it is the last place at which a rule ended, or comes after one
    /// character (ICU User Guide, "Break Rules"). Each character from `s` to the look end is read
    /// once, and no memory is taken.
    #[inline]
    pub fn next<T: Chars, L: Ledger>(
        &self,
        text: &T,
        s: u32,
        marks: &mut FrontPlaces,
        steps: &mut Steps<L>,
    ) -> Found
        requires within { s < length (T.characters text.now) }
        requires fit { marks.old ≡ self.now.slashes }
        ensures at { result.at ≡ (found self.now (T.characters text.now) s).at }
        ensures status { result.status ≡ (found self.now (T.characters text.now) s).list }
        ensures look { result.look ≡ look_end self.now (T.characters text.now) s }
        ensures read { steps.new ≡ steps.old
            + (min (look_end self.now (T.characters text.now) s)
            (length (T.characters text.now)) - s) }
        ensures fit { marks.new ≡ marks.old }
    {
        if !self.short.moves.is_empty() {
            return short_search(
                &self.parts,
                &self.blocks.numbers,
                &self.blocks.categories,
                &self.short.near,
                &self.short.moves,
                self.short.start,
                text,
                s,
                steps,
            );
        }
        // Bound, so that what the short search finds can stay in registers:
        // else both searches write to one result in memory.
        let found = search(
            &self.parts,
            &self.blocks,
            &self.moves,
            text,
            s,
            &mut marks.places,
            steps,
        );
        found
    }
}
