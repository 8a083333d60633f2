//! One search over characters that were read before, by their categories, and on past them.
ghost use Rattle.std.specs.Prelude.{◌≡◌, ◌+◌, ◌-◌, ◌<◌, ◌≤◌, length, min, max, false};
ghost use Rattle.std.specs.Prelude.{MatchOption, ⊤};
ghost use Rattle.rbbi_model.specs.Searches.{look_end};
ghost use Rattle.rbbi_table.specs.Reading.{AreRead, IsFoundFrom};
ghost use Rattle.rbbi_table.specs.inner.Searching.{IsGoing};

use crate::search::longest;
use crate::short_search::{KINDS, OTHER, STOP, place_of};
use crate::{Found, Parts, Table};
use rbbi_text::{Chars, Steps};
use std::marker::Model;
use std::sync::ledger::Ledger;

/// A table whose rows are kept in 16-bit numbers: one with no look-ahead rules that isn't large.
/// Contracts see it as the table.
#[derive(Drop)]
pub struct ShortTable<'a> {
    parts: &'a Parts,
    numbers: &'a [u16],
    kept: &'a [u16],
    near: &'a [u8],
    moves: &'a [u16],
    start: usize,
}

impl<'a> Model for ShortTable<'a> {
    ghost use Rattle.std.specs.Prelude.{◌≡◌};
    ghost use Rattle.rbbi_model.specs.Tables.{Table};

    ghost Value = { Table };

    ghost use Rattle.rbbi_table.specs.Parts.{table_of};
    ghost use Rattle.rbbi_table.specs.Short.{IsShortKept, short_stride};

    ghost view = { λ short. table_of short.parts.now };

    ghost invariant = { λ short. (IsShortKept (table_of short.parts.now) short.numbers.now
        short.kept.now short.moves.now short.near.now)
        × (short.start ≡ short_stride (table_of short.parts.now)) };
}

impl Table {
    /// It as a short table, if it is one.
    #[inline]
    pub fn short(&self) -> Option<ShortTable<'_>>
        ensures { MatchOption result ⊤ (λ short. short ≡ self.now) }
    {
        if self.short.moves.is_empty() {
            return None;
        }
        Some(ShortTable {
            parts: &self.parts,
            numbers: self.blocks.numbers.as_slice(),
            kept: self.blocks.categories.as_slice(),
            near: self.short.near.as_slice(),
            moves: self.short.moves.as_slice(),
            start: self.short.start,
        })
    }
}

impl<'a> ShortTable<'a> {
    /// What `Table::next` finds from `s`, where the categories of the characters from `from` on are
    /// known: only what lies past these is read. Places are in characters from 0.
    ///
    /// It is `None`, with nothing read, if the search isn't over at their end and may not read.
    #[inline]
    pub fn next_on<T: Chars, L: Ledger>(
        &self,
        text: &T,
        from: u32,
        categories: &[u16],
        s: u32,
        may_read: bool,
        steps: &mut Steps<L>,
    ) -> Option<Found>
        requires read { AreRead self.now (T.characters text.now) from categories.now }
        requires behind { from ≤ s }
        requires within { s < length (T.characters text.now) }
        ensures found { MatchOption result (may_read ≡ false) (λ found.
            IsFoundFrom self.now (T.characters text.now) s found.at found.status found.look) }
        ensures nothing { may_read ≡ false → steps.new ≡ steps.old }
        ensures more { steps.old ≤ steps.new }
        ensures cost { steps.new ≤ steps.old + (min (look_end self.now (T.characters text.now) s)
            (length (T.characters text.now)) - max s (from + length categories.now)) }
    {
        // The text's length bounds the places, for the contract alone.
        let _len = text.len();
        let moves = self.moves;
        let mut row = self.start;
        let mut at = (s - from) as usize;
        let mut end = at;
        let mut end_row = 0;
        while at < categories.len() {
            let next = moves[row + (categories[at] as usize + 1)];
            at += 1;
            if next == STOP {
                let status = moves[end_row];
                return Some(longest(s, from + end as u32, status, from + at as u32));
            }
            row = (next / KINDS * KINDS) as usize;
            if next % KINDS != OTHER {
                end = at;
                end_row = row;
            }
        }
        if !may_read {
            return None;
        }
        let (at, end) = (from + at as u32, from + end as u32);
        Some(self.read_on(text, s, at, row, end, end_row, steps))
    }

    /// Goes on with a search that isn't over at `at`, where its row begins at `row`, and reads.
    #[inline(never)]
    fn read_on<T: Chars, L: Ledger>(
        &self,
        text: &T,
        s: u32,
        at: u32,
        row: usize,
        end: u32,
        end_row: usize,
        steps: &mut Steps<L>,
    ) -> Found
        requires going { IsGoing self.now (T.characters text.now) s at row end end_row }
        requires within { s < length (T.characters text.now) }
        ensures found { IsFoundFrom self.now (T.characters text.now) s
            result.at result.status result.look }
        ensures read { steps.new ≡ steps.old + (min (look_end self.now (T.characters text.now) s)
            (length (T.characters text.now)) - at) }
    {
        let len = text.len();
        let moves = self.moves;
        let (mut at, mut row, mut end, mut end_row) = (at, row, end, end_row);
        while at < len {
            let place = place_of(self.near, self.numbers, self.kept, text.char_at(at, steps));
            let next = moves[row + place];
            at += 1;
            if next == STOP {
                return longest(s, end, moves[end_row], at);
            }
            row = (next / KINDS * KINDS) as usize;
            if next % KINDS != OTHER {
                end = at;
                end_row = row;
            }
        }
        longest(s, end, moves[end_row], len + 1)
    }
}
